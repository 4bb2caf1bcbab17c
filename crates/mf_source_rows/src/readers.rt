//! What readers take.
use mf_lex::{Cursor, Ident};
use mf_text::Text;
use std::alloc::{AllocError, Global};

/// What the reader before a text reads, and what is left.
pub fn answer(alloc: Global, asked: &str) -> Result<String, AllocError> {
    let (reader, text) = asked.split_once(' ').unwrap_or((asked, ""));
    let mut cursor = Cursor::new(text);
    let taken = taken(alloc, reader, &mut cursor)?;
    let left = cursor.rest();
    if cursor.at().checked_add(left.len()) != Some(text.len()) {
        return String::from_str(alloc, "a place that isn't that of what is left");
    }
    match taken {
        Some(taken) => format!(in alloc; "[{taken}]{left}"),
        None if left == text => String::from_str(alloc, "none"),
        None => format!(in alloc; "none, and {left} left"),
    }
}

/// What a reader takes, where it reads something.
fn taken(alloc: Global, reader: &str, cursor: &mut Cursor) -> Result<Option<String>, AllocError> {
    let mut taken = String::new(alloc);
    let reads = match reader {
        "name" => push_text(&mut taken, cursor.name(alloc)?)?,
        "identifier" => push_identifier(&mut taken, cursor.identifier(alloc)?)?,
        "literal" => push_text(&mut taken, cursor.literal(alloc)?)?,
        "s" => cursor.s(),
        "o" => {
            cursor.o();
            true
        }
        "escape" => push_character(&mut taken, cursor.escape())?,
        "run" => {
            taken.push_str(cursor.text_run())?;
            true
        }
        _ => false,
    };
    Ok(if reads { Some(taken) } else { None })
}

fn push_text(taken: &mut String, text: Option<Text>) -> Result<bool, AllocError> {
    let Some(text) = text else {
        return Ok(false);
    };
    taken.push_str(text.as_str())?;
    Ok(true)
}

/// A name, and its namespace before it.
fn push_identifier(taken: &mut String, ident: Option<Ident>) -> Result<bool, AllocError> {
    let Some(ident) = ident else {
        return Ok(false);
    };
    if let Some(namespace) = &ident.namespace {
        taken.push_str(namespace.as_str())?;
        taken.push(':')?;
    }
    taken.push_str(ident.name.as_str())?;
    Ok(true)
}

fn push_character(taken: &mut String, c: Option<char>) -> Result<bool, AllocError> {
    let Some(c) = c else {
        return Ok(false);
    };
    taken.push(c)?;
    Ok(true)
}
