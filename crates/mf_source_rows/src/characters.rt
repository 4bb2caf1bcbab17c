//! Classes of characters.
use mf_text::{
    is_bidi, is_escapable, is_name_char, is_name_start, is_quoted, is_simple_start, is_text, is_ws,
};
use std::alloc::{AllocError, Global};
use std::fmt::Write;

/// A class of characters.
#[derive(Clone, Copy)]
enum Class {
    White,
    Mark,
    NameStart,
    Name,
    Text,
    Quoted,
    Escapable,
    SimpleStart,
}

/// The characters of a class, of all that there are, by their numbers.
pub fn answer(alloc: Global, asked: &str) -> Result<String, AllocError> {
    let Some(class) = class_of(asked) else {
        return String::from_str(alloc, "no such class");
    };
    let mut members = String::new(alloc);
    let mut first: Option<u32> = None;
    for code in 0..0x110001u32 {
        let has = is_member(class, code);
        match first {
            None if has => first = Some(code),
            Some(start) if !has => {
                push_range(&mut members, start, code.saturating_sub(1))?;
                first = None;
            }
            _ => {}
        }
    }
    Ok(members)
}

/// The class of a name of the grammar.
fn class_of(name: &str) -> Option<Class> {
    match name {
        "ws" => Some(Class::White),
        "bidi" => Some(Class::Mark),
        "name-start" => Some(Class::NameStart),
        "name-char" => Some(Class::Name),
        "text-char" => Some(Class::Text),
        "quoted-char" => Some(Class::Quoted),
        "escapable" => Some(Class::Escapable),
        "simple-start" => Some(Class::SimpleStart),
        _ => None,
    }
}

/// Whether a number is that of a character of a class.
fn is_member(class: Class, code: u32) -> bool {
    let Some(c) = char::from_u32(code) else {
        return false;
    };
    match class {
        Class::White => is_ws(c),
        Class::Mark => is_bidi(c),
        Class::NameStart => is_name_start(c),
        Class::Name => is_name_char(c),
        Class::Text => is_text(c),
        Class::Quoted => is_quoted(c),
        Class::Escapable => is_escapable(c),
        Class::SimpleStart => is_simple_start(c),
    }
}

/// A number or several, behind those before them.
fn push_range(text: &mut String, first: u32, last: u32) -> Result<(), AllocError> {
    if !text.is_empty() {
        text.push(' ')?;
    }
    if first == last {
        write!(text, "{first:x}")
    } else {
        write!(text, "{first:x}..{last:x}")
    }
}
