//! What a plan is formatted to.
ghost use Rattle.std.specs.Prelude.{IfErr, IfOk, IsTrue};
ghost use Rattle.mf_answer.specs.Answers.{functions_of, is_text_size};
ghost use Rattle.mf_answer.specs.Messages.{Shows};
ghost use Rattle.mf_plan.specs.Plans.{compilation};
ghost use Rattle.mf_render.specs.Rendering.{IsPlan, IsRefusal, Renders};
ghost use Rattle.mf_render.specs.Showing.{shown_of};

use crate::error::RenderError;
use crate::functions::EditionFunctions;
use crate::message::{Formatted, format_invalid, format_message};
use mf_edition::Edition;
use mf_locale::{LocaleRecord, Tag};
use mf_parts::joined_len;
use mf_plan::Plan;
use mf_text::Arguments;
use std::alloc::{AllocError, Global};

/// The most bytes that the text of a formatted message may have.
const LONGEST_TEXT: u64 = 16_777_216;

/// A message of an edition under this tag, formatted with the arguments of a request: the plan is
/// that of its source.
///
/// It has the parts that its pieces come to, those of the chosen variant where it is a matcher, and
/// the errors that arose; a message that isn't valid is one fallback, and its errors are those that
/// make it invalid. [`RenderError::TooLong`] comes where its text has more than 16,777,216 bytes.
/// See DECISIONS 138.
pub fn render(
    alloc: Global,
    plan: &Plan,
    edition: &Edition,
    tag: &Tag,
    arguments: &Arguments,
) -> Result<Formatted, RenderError>
    requires { IsPlan plan.now }
    ensures ok { IfOk result (λ formatted. Renders edition.now tag.now arguments.now plan.now
        (shown_of formatted)) }
    ensures fits { IfOk result (λ formatted. IsTrue (is_text_size formatted.parts)) }
    ensures refused { IfErr result (IsRefusal edition.now tag.now arguments.now plan.now) }
{
    let record = edition.place_for(tag);
    let formatted = shown(alloc, plan, edition, record, arguments)?;
    let length = joined_len(&formatted.parts);
    if length > LONGEST_TEXT {
        return Err(RenderError::TooLong { length });
    }
    Ok(formatted)
}

/// What a plan is formatted to with a locale record.
fn shown(
    alloc: Global,
    plan: &Plan,
    edition: &Edition,
    record: &LocaleRecord,
    arguments: &Arguments,
) -> Result<Formatted, AllocError>
    requires { IsPlan plan.now }
    ensures { IfOk result (λ formatted. Shows «record».now (functions_of edition.now «record».now)
        arguments.now (compilation plan.now) (shown_of formatted)) }
{
    match plan {
        Plan::Valid(message) => {
            let functions = EditionFunctions { edition, record };
            format_message(alloc, &functions, record, message, arguments)
        }
        Plan::Invalid(faults) => format_invalid(alloc, record, faults),
    }
}
