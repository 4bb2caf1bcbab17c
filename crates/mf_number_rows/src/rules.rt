//! Plural rules, and the categories of numbers by them.
use crate::rounding::{rounded, written_digits};
use mf_decimal::{Digits, of_u64, read};
use mf_plural::{Category, RuleError, Rules, category, read_rules};
use std::alloc::{AllocError, Global};
use std::fmt::Write;

/// The categories of numbers by the rules before `?`, or the keywords of rules, or which of them is
/// bad.
pub fn answer(alloc: Global, asked: &str) -> Result<String, AllocError> {
    let (text, numbers) = asked.split_once(" ? ").unwrap_or((asked, ""));
    match read_rules(alloc, text) {
        Ok(rules) if numbers.is_empty() => keywords(alloc, &rules),
        Ok(rules) => categories(alloc, &rules, numbers),
        Err(RuleError::OutOfMemory) => Err(AllocError),
        Err(error) => format!(in alloc; "{error}"),
    }
}

/// The numbers from 0 to 120 of a category, or the categories of numbers.
pub fn answer_in(alloc: Global, given: &str, asked: &str) -> Result<String, AllocError> {
    let rules = match read_rules(alloc, given) {
        Ok(rules) => rules,
        Err(RuleError::OutOfMemory) => return Err(AllocError),
        Err(error) => return format!(in alloc; "{error}"),
    };
    match category_of(asked) {
        Some(wanted) => members(alloc, &rules, wanted),
        None => categories(alloc, &rules, asked),
    }
}

/// The keywords of rules, in their order.
pub fn keywords(alloc: Global, rules: &Rules) -> Result<String, AllocError> {
    let mut keywords = String::new(alloc);
    for rule in rules.as_slice() {
        push_word(&mut keywords, rule.keyword.as_str())?;
    }
    if keywords.is_empty() {
        keywords.push_str("no rules")?;
    }
    Ok(keywords)
}

/// The category of each number.
fn categories(alloc: Global, rules: &Rules, numbers: &str) -> Result<String, AllocError> {
    let mut categories = String::new(alloc);
    for number in numbers.split(' ') {
        push_word(&mut categories, word_for(rules, number))?;
    }
    Ok(categories)
}

/// The category of a number, in the digits in which it is written.
fn word_for(rules: &Rules, number: &str) -> &'static str {
    let Ok(value) = read(number) else {
        return "no-number";
    };
    match rounded(&value, written_digits(number)) {
        Some(shown) => category(rules, &shown).as_str(),
        None => "no-number",
    }
}

/// The numbers from 0 to 120 that have a category.
fn members(alloc: Global, rules: &Rules, wanted: Category) -> Result<String, AllocError> {
    let mut members = String::new(alloc);
    let mut first: Option<u64> = None;
    for number in 0..122u64 {
        let has = number <= 120 && has_category(rules, number, wanted);
        match first {
            None if has => first = Some(number),
            Some(start) if !has => {
                push_range(&mut members, start, number.saturating_sub(1))?;
                first = None;
            }
            _ => {}
        }
    }
    Ok(members)
}

fn has_category(rules: &Rules, number: u64, wanted: Category) -> bool {
    let digits = Digits::Fraction { min: 0, max: 0 };
    category(rules, &of_u64(number).round(digits)) == wanted
}

/// The category of a keyword.
fn category_of(word: &str) -> Option<Category> {
    match word {
        "zero" => Some(Category::Zero),
        "one" => Some(Category::One),
        "two" => Some(Category::Two),
        "few" => Some(Category::Few),
        "many" => Some(Category::Many),
        "other" => Some(Category::Other),
        _ => None,
    }
}

/// A word behind those before it.
pub fn push_word(text: &mut String, word: &str) -> Result<(), AllocError> {
    if !text.is_empty() {
        text.push(' ')?;
    }
    text.push_str(word)
}

/// A number or several, behind those before them.
fn push_range(text: &mut String, first: u64, last: u64) -> Result<(), AllocError> {
    push_word(text, "")?;
    if first == last {
        write!(text, "{first}")
    } else {
        write!(text, "{first}..{last}")
    }
}
