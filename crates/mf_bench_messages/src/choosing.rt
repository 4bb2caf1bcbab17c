//! Variants chosen.
ghost use Rattle.std.specs.Prelude.{◌≡◌, []};
ghost use Rattle.mf_tree.specs.Faults.{faults as faults_of};

use mf_check::faults;
use mf_functions::BuiltIns;
use mf_locale::{LocaleRecord, root};
use mf_parse::{ParseError, parse};
use mf_resolve::Scope;
use mf_select::choose;
use mf_text::{Argued, Arguments};
use mf_tree::{Body, Message};
use std::alloc::{AllocError, Global};

/// The sum of the positions that are chosen where a source is a valid matcher and its variables
/// `a`, `b`, `c`, `d` and `count` are 1, so many times.
pub fn chosen(alloc: Global, source: &str, count: u64) -> Result<u64, AllocError> {
    let record = root(alloc)?;
    let mut arguments = Arguments::new(alloc);
    for name in ["a", "b", "c", "d", "count"] {
        arguments.insert(alloc, name, Argued::Signed(1))?;
    }
    match parse(alloc, source) {
        Ok(message) => chosen_of(alloc, &record, &message, &arguments, count),
        Err(ParseError::Syntax) => Ok(0),
        Err(ParseError::OutOfMemory) => Err(AllocError),
    }
}

/// The sum of the positions that are chosen of a message, where it is valid.
fn chosen_of(
    alloc: Global,
    record: &LocaleRecord,
    message: &Message,
    arguments: &Arguments,
    count: u64,
) -> Result<u64, AllocError> {
    let mut sum = 0u64;
    if faults(alloc, message)?.is_empty() {
        for _ in 0..count {
            sum = sum.wrapping_add(chosen_once(alloc, record, message, arguments)?);
        }
    }
    Ok(sum)
}

/// The position that is chosen of a valid message, and 0 where it is no matcher.
fn chosen_once(
    alloc: Global,
    record: &LocaleRecord,
    message: &Message,
    arguments: &Arguments,
) -> Result<u64, AllocError>
    requires valid { faults_of message.now ≡ [] }
{
    match &message.body {
        Body::Pattern(_) => Ok(0),
        Body::Match {
            selectors,
            variants,
        } => {
            let functions = BuiltIns::new(record);
            let mut scope = Scope::new(alloc, &message.declarations, arguments)?;
            Ok(choose(alloc, &mut scope, &functions, selectors, variants)? as u64)
        }
    }
}

/// The source of a matcher of four numbers with so many variants and one more, of which the last is
/// chosen where all are 1.
pub fn matcher(alloc: Global, variants: u64) -> Result<String, AllocError> {
    let mut source = String::new(alloc);
    for name in ["a", "b", "c", "d"] {
        source.push_str(format!(in alloc; ".input {{${name} :number}} ")?.as_str())?;
    }
    source.push_str(".match $a $b $c $d")?;
    for number in 0..variants {
        source.push_str(format!(in alloc;
            " 1 1 one {} {{{{a}}}}",
            number.saturating_add(2)
        )?.as_str())?;
    }
    source.push_str(" * * * * {{b}}")?;
    Ok(source)
}
