//! The program `mf_number_rows`: reads rows, each what is asked, ` => ` and what is expected, and
//! prints each that differs.
//!
//! The tables are those of decimals, plural rules, number texts, tags and locale records; each says
//! at its head how its rows read. A line that begins with `# ` is a comment, a line `given ..`
//! holds for the rows below it, and `\u{2068}` stands for the character of that number. Behind the
//! differences of a table stand its counts.
#![tactic(auto)]

mod decimals;
mod escapes;
mod number_texts;
mod records;
mod rounding;
mod rules;
mod tags;

use escapes::plain;
use std::alloc::{AllocError, Global};
use std::process::ExitCode;
use std::{fs, io};

/// A table of rows.
#[derive(Clone, Copy)]
enum Table {
    Decimals,
    Rounding,
    Ties,
    Rules,
    BadRules,
    Languages,
    NumberTexts,
    Tags,
    Records,
}

const TABLES: [Table; 9] = [
    Table::Decimals,
    Table::Rounding,
    Table::Ties,
    Table::Rules,
    Table::BadRules,
    Table::Languages,
    Table::NumberTexts,
    Table::Tags,
    Table::Records,
];

impl Table {
    /// The name of its file.
    fn file(self) -> &'static str {
        match self {
            Table::Decimals => "decimals.txt",
            Table::Rounding => "rounding.txt",
            Table::Ties => "ties.txt",
            Table::Rules => "rules.txt",
            Table::BadRules => "bad_rules.txt",
            Table::Languages => "languages.txt",
            Table::NumberTexts => "number_texts.txt",
            Table::Tags => "tags.txt",
            Table::Records => "records.txt",
        }
    }

    /// The answer to a row, written as the table has it.
    fn answer(self, alloc: Global, given: &str, asked: &str) -> Result<String, AllocError> {
        match self {
            Table::Decimals => decimals::answer(alloc, asked),
            Table::Rounding | Table::Ties => rounding::answer(alloc, asked),
            Table::Rules | Table::BadRules => rules::answer(alloc, asked),
            Table::Languages => rules::answer_in(alloc, given, asked),
            Table::NumberTexts => number_texts::answer(alloc, given, asked),
            Table::Tags => tags::answer(alloc, asked),
            Table::Records => records::answer(alloc, given, asked),
        }
    }
}

/// Looks at one row, and says whether it is as expected.
fn is_as_expected(rt: &HostRuntime, table: Table, given: &str, row: &str) -> io::Result<bool> {
    let (asked, expected) = row.split_once(" => ").unwrap_or((row, ""));
    let text = plain(rt.alloc(), asked)?;
    let answer = table.answer(rt.alloc(), given, text.as_str())?;
    if answer.as_str() == plain(rt.alloc(), expected)?.as_str() {
        return Ok(true);
    }
    println!(rt; "{asked} => {answer}, and not {expected}")?;
    Ok(false)
}

/// Looks at the rows of a table, and gives the number of differences.
fn look_at(rt: &HostRuntime, table: Table) -> io::Result<u64> {
    let text = fs::read_to_string(rt, table.file())?;
    let mut given = String::new(rt.alloc());
    let mut rows: u64 = 0;
    let mut differences: u64 = 0;
    for row in text.as_str().lines() {
        if row.is_empty() || row.starts_with("# ") {
            continue;
        }
        if let Some(line) = row.strip_prefix("given ") {
            given = String::from_str(rt.alloc(), line)?;
            continue;
        }
        rows = rows.saturating_add(1);
        if !is_as_expected(rt, table, given.as_str(), row)? {
            differences = differences.saturating_add(1);
        }
    }
    println!(rt; "{}: {rows} rows, {differences} differences", table.file())?;
    Ok(differences)
}

fn main(rt: HostRuntime) -> io::Result<ExitCode> {
    let mut differences: u64 = 0;
    for table in TABLES {
        differences = differences.saturating_add(look_at(&rt, table)?);
    }
    Ok(ExitCode::from(u8::from(differences != 0)))
}

#[cfg(test)]
mod decimal_tests;
#[cfg(test)]
mod locale_tests;
#[cfg(test)]
mod number_text_tests;
#[cfg(test)]
mod rule_tests;
