//! The arguments of a request for a sentence, read from the tokens of a line.
ghost use Rattle.std.specs.Prelude.{◌≡◌, ◌==◌, false, Some, IfOk, slice_index};
ghost use Rattle.serde_json.specs.Data.{number as numeric, unsigned};
ghost use Rattle.serde_json.specs.Read.{number_from, number_of};
ghost use Rattle.mf_wire.specs.Fields as fields;
ghost use Rattle.mf_requests.specs.Sentences.{HasArgument, HasArguments};

use crate::unread::Unread;
use fast_float::Numeral;
use json::{Reader, Token};
use mf_text::{Argued, Arguments, Text};
use std::alloc::Global;

/// The arguments of an object whose opening brace was read.
pub(crate) fn read_arguments(alloc: Global, reader: &mut Reader<'_>) -> Result<Arguments, Unread>
    ensures { IfOk result (λ arguments. HasArguments reader.old arguments reader.new) }
{
    let mut arguments = Arguments::new(alloc);
    'members: while let Some(name) = reader.next_key()? {
        let value = read_argument(alloc, reader)?;
        if !arguments.insert(alloc, name, value)? {
            return Err(Unread::NotPlain);
        }
    }
    Ok(arguments)
}

/// The value of an argument: a text, or a whole number without a sign.
fn read_argument(alloc: Global, reader: &mut Reader<'_>) -> Result<Argued, Unread>
    ensures { IfOk result (λ argued. HasArgument reader.old argued reader.new) }
{
    match reader.next() {
        Some(Token::String(text)) => Ok(Argued::Text(Text::of(alloc, text)?)),
        Some(Token::Number(text)) => Ok(argued_number(whole_number(text)?)),
        _ => Err(Unread::NotPlain),
    }
}

/// A whole number as an argument: with a sign where 64 bits with a sign hold it.
fn argued_number(number: u64) -> Argued
    ensures { Some result ≡ fields.argued_number (numeric (unsigned number)) }
{
    if number <= i64::MAX as u64 {
        Argued::Signed(number as i64)
    } else {
        Argued::Unsigned(number)
    }
}

/// The whole number that a number is, where it has no sign, no fraction and no exponent, and 64
/// bits hold it.
pub(crate) fn whole_number(text: &str) -> Result<u64, Unread>
    ensures { IfOk result (λ number. number_of text.now ≡ Some (unsigned number)) }
{
    let bytes = text.as_bytes();
    if has_sign(bytes) {
        return Err(Unread::NotPlain);
    }
    whole_numeral(&Numeral::scan(bytes))
}

/// The whole number that a number without a sign is.
fn whole_numeral(numeral: &Numeral<'_>) -> Result<u64, Unread>
    ensures { IfOk result (λ number. number_from false numeral.now ≡ Some (unsigned number)) }
{
    match numeral.to_u64() {
        Some(number) => Ok(number),
        None => Err(Unread::NotPlain),
    }
}

/// Whether a number begins with a sign.
fn has_sign(bytes: &[u8]) -> bool
    ensures { result ≡ (slice_index bytes.now 0 == 45) }
{
    !bytes.is_empty() && bytes[0] == b'-'
}
