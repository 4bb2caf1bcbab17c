//! Messages formatted.
ghost use Rattle.mf_render.specs.Rendering.{IsPlan};

use mf_edition::{Change, Edition, Entry, Publications};
use mf_locale::{LocaleError, SharedRecord, Tag, read_record, read_tag};
use mf_plan::Plan;
use mf_render::{RenderError, render};
use mf_text::{Argued, Arguments, Text};
use serde_json::Value;
use std::alloc::{AllocError, Global};

/// What English says of its numbers.
const ENGLISH: &str =
    r#"{"version":1,"dir":"ltr","decimal":".","group":",","minus":"-","plus":"+","primary":3,"secondary":3,"minGroup":1,"plural":"one: i = 1 and v = 0","ordinal":"one: n % 10 = 1 and n % 100 != 11; two: n % 10 = 2 and n % 100 != 12; few: n % 10 = 3 and n % 100 != 13"}"#;

/// How many parts an English message has, formatted so many times: its arguments `n` and `count`
/// are the squares of the numbers from 0, modulo 10,000, and `name` is `Ann`.
pub fn rendered(alloc: Global, source: &str, count: u64) -> Result<u64, AllocError> {
    let english = read_tag(alloc, "en").map_err(|_| AllocError)?;
    let publications = publications(alloc, &english)?;
    let plan = Plan::of(alloc, source)?;
    parts_of_all(alloc, &plan, publications.newest(), &english, count)
}

/// How many parts a plan has, formatted so many times.
fn parts_of_all(
    alloc: Global,
    plan: &Plan,
    edition: &Edition,
    tag: &Tag,
    count: u64,
) -> Result<u64, AllocError>
    requires { IsPlan plan.now }
{
    let mut parts = 0u64;
    for number in 0..count {
        let square = (number.wrapping_mul(number) % 10_000) as i64;
        let arguments = arguments(alloc, square)?;
        parts = parts.wrapping_add(parts_of(alloc, plan, edition, tag, &arguments)?);
    }
    Ok(parts)
}

/// How many parts a plan has with these arguments, and 0 where its text is too long.
fn parts_of(
    alloc: Global,
    plan: &Plan,
    edition: &Edition,
    tag: &Tag,
    arguments: &Arguments,
) -> Result<u64, AllocError>
    requires { IsPlan plan.now }
{
    match render(alloc, plan, edition, tag, arguments) {
        Ok(formatted) => Ok(formatted.parts.len() as u64),
        Err(RenderError::TooLong { .. }) => Ok(0),
        Err(RenderError::OutOfMemory) => Err(AllocError),
    }
}

/// The publication of English.
fn publications(alloc: Global, english: &Tag) -> Result<Publications, AllocError> {
    let value = Value::from_str(alloc, ENGLISH).map_err(|_| AllocError)?;
    let record = read_record(alloc, &value).map_err(|_| AllocError)?;
    let change = Change::Locale {
        tag: english.clone()?,
        place: SharedRecord::new(alloc, record)?,
        size: 64,
    };
    let mut publications = Publications::new(alloc)?;
    let entry = Entry {
        caller: 0,
        nth: 1,
        change,
    };
    publications.publish(entry).map_err(|_| AllocError)?;
    Ok(publications)
}

/// The arguments of one request.
fn arguments(alloc: Global, number: i64) -> Result<Arguments, AllocError> {
    let mut arguments = Arguments::new(alloc);
    for name in ["n", "count"] {
        arguments.insert(alloc, name, Argued::Signed(number))?;
    }
    arguments.insert(alloc, "name", Argued::Text(Text::of(alloc, "Ann")?))?;
    Ok(arguments)
}
