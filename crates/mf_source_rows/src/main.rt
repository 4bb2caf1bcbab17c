//! The program `mf_source_rows`: reads rows, each what is asked, ` => ` and what is expected, and
//! prints each that differs.
//!
//! The tables are those of characters, texts, readers, sources, the errors of sources, and
//! canonical sources; each says at its head how its rows read. A line that begins with `# ` is a
//! comment, a line `given ..` holds for the rows below it, and `\u{2068}` stands for the character
//! of that number. Behind the differences of a table stand its counts.
#![tactic(auto)]

mod characters;
mod escapes;
mod readers;
mod sources;
mod texts;

use escapes::plain;
use std::alloc::{AllocError, Global};
use std::process::ExitCode;
use std::{fs, io};

/// A table of rows.
#[derive(Clone, Copy)]
enum Table {
    Characters,
    Texts,
    Readers,
    Sources,
    Spaces,
    Errors,
    Canonical,
}

const TABLES: [Table; 7] = [
    Table::Characters,
    Table::Texts,
    Table::Readers,
    Table::Sources,
    Table::Spaces,
    Table::Errors,
    Table::Canonical,
];

impl Table {
    /// The name of its file.
    fn file(self) -> &'static str {
        match self {
            Table::Characters => "characters.txt",
            Table::Texts => "texts.txt",
            Table::Readers => "readers.txt",
            Table::Sources => "sources.txt",
            Table::Spaces => "spaces.txt",
            Table::Errors => "errors.txt",
            Table::Canonical => "canonical.txt",
        }
    }

    /// The answer to a row, written as the table has it.
    fn answer(self, alloc: Global, given: &str, asked: &str) -> Result<String, AllocError> {
        match self {
            Table::Characters => characters::answer(alloc, asked),
            Table::Texts => texts::answer(alloc, asked),
            Table::Readers => readers::answer(alloc, asked),
            Table::Sources => sources::message_of(alloc, asked),
            Table::Spaces => sources::spaced_message_of(alloc, given, asked),
            Table::Errors => sources::errors_of(alloc, asked),
            Table::Canonical => sources::linted(alloc, asked),
        }
    }
}

/// Looks at one row, and says whether it is as expected.
fn is_as_expected(rt: &HostRuntime, table: Table, given: &str, row: &str) -> io::Result<bool> {
    let (asked, expected) = row.split_once(" => ").unwrap_or((row, ""));
    let text = plain(rt.alloc(), asked)?;
    let answer = table.answer(rt.alloc(), given, text.as_str())?;
    if answer.as_str() == plain(rt.alloc(), expected)?.as_str() {
        return Ok(true);
    }
    println!(rt; "{asked} => {answer}, and not {expected}")?;
    Ok(false)
}

/// Looks at the rows of a table, and gives the number of differences.
fn look_at(rt: &HostRuntime, table: Table) -> io::Result<u64> {
    let text = fs::read_to_string(rt, table.file())?;
    let mut given = String::new(rt.alloc());
    let mut rows: u64 = 0;
    let mut differences: u64 = 0;
    for row in text.as_str().lines() {
        if row.is_empty() || row.starts_with("# ") {
            continue;
        }
        if let Some(line) = row.strip_prefix("given ") {
            given = String::from_str(rt.alloc(), line)?;
            continue;
        }
        rows = rows.saturating_add(1);
        if !is_as_expected(rt, table, given.as_str(), row)? {
            differences = differences.saturating_add(1);
        }
    }
    println!(rt; "{}: {rows} rows, {differences} differences", table.file())?;
    Ok(differences)
}

fn main(rt: HostRuntime) -> io::Result<ExitCode> {
    let mut differences: u64 = 0;
    for table in TABLES {
        differences = differences.saturating_add(look_at(&rt, table)?);
    }
    Ok(ExitCode::from(u8::from(differences != 0)))
}

#[cfg(test)]
mod error_tests;
#[cfg(test)]
mod linting_tests;
#[cfg(test)]
mod message_tests;
#[cfg(test)]
mod printing_tests;
#[cfg(test)]
mod reader_tests;
#[cfg(test)]
mod text_tests;
#[cfg(test)]
mod tree_tests;
