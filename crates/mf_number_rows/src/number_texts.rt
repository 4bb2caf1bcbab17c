//! The texts of numbers.
use crate::records::record_of;
use crate::rounding::{digits_of, rounded, written_digits};
use crate::rules::push_word;
use mf_decimal::{Digits, read};
use mf_numfmt::{Grouping, Layout, Sign, text};
use std::alloc::{AllocError, Global};

/// How numbers are written.
#[derive(Clone, Copy)]
struct Options {
    digits: Option<Digits>,
    sign: Sign,
    grouping: Grouping,
    whole: u32,
}

/// The texts of the numbers that are no options.
pub fn answer(alloc: Global, given: &str, asked: &str) -> Result<String, AllocError> {
    let Some(record) = record_of(alloc, given)? else {
        return String::from_str(alloc, "no record");
    };
    let Some(options) = options_of(asked) else {
        return String::from_str(alloc, "no such option");
    };
    let mut texts = String::new(alloc);
    for word in asked.split(' ') {
        if !word.contains('=') {
            let text = text_of(alloc, &record.layout, options, word)?;
            push_word(&mut texts, text.as_str())?;
        }
    }
    Ok(texts)
}

/// The options that words set.
fn options_of(words: &str) -> Option<Options> {
    let mut options = Options {
        digits: None,
        sign: Sign::Auto,
        grouping: Grouping::Auto,
        whole: 1,
    };
    for word in words.split(' ') {
        if let Some((name, value)) = word.split_once('=') {
            match name {
                "sign" => options.sign = sign_of(value)?,
                "grouping" => options.grouping = grouping_of(value)?,
                "whole" => options.whole = value.parse::<u32>().ok()?,
                _ => options.digits = Some(digits_of(word)?),
            }
        }
    }
    Some(options)
}

fn sign_of(value: &str) -> Option<Sign> {
    match value {
        "auto" => Some(Sign::Auto),
        "always" => Some(Sign::Always),
        "exceptZero" => Some(Sign::ExceptZero),
        "negative" => Some(Sign::Negative),
        "never" => Some(Sign::Never),
        _ => None,
    }
}

fn grouping_of(value: &str) -> Option<Grouping> {
    match value {
        "auto" => Some(Grouping::Auto),
        "always" => Some(Grouping::Always),
        "never" => Some(Grouping::Never),
        "min2" => Some(Grouping::Min2),
        _ => None,
    }
}

/// The text of a number.
fn text_of(
    alloc: Global,
    layout: &Layout,
    options: Options,
    number: &str,
) -> Result<String, AllocError> {
    let Options {
        sign,
        grouping,
        whole,
        ..
    } = options;
    let digits = options.digits.unwrap_or(written_digits(number));
    let Ok(number) = read(number) else {
        return String::from_str(alloc, "no-number");
    };
    match rounded(&number, digits) {
        Some(shown) if 1 <= whole && whole <= 21 => {
            Ok(text(alloc, &shown, layout, sign, grouping, whole)?.into_string())
        }
        _ => String::from_str(alloc, "no-such-digits"),
    }
}
