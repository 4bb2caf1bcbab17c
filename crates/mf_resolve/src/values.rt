//! Values that no function has made.

ghost use Rattle.std.specs.Prelude.{◌≡◌, IfOk};
ghost use Rattle.mf_value.specs.Traces as traces;

use mf_decimal::{Decimal, of_i64, of_u64};
use mf_text::{Argued, Direction, Text};
use mf_value::{Content, Kept, Selects, Value};
use std::alloc::{AllocError, Global};

/// A literal, or an argument that is a text.
pub fn plain_text(alloc: Global, text: Text) -> Value
    ensures { result ≡ traces.plain_text text }
{
    Value {
        content: Content::Text(text),
        dir: Direction::Unknown,
        forced: false,
        id: None,
        prefix: Text::new(alloc),
        suffix: Text::new(alloc),
        selects: Selects::Nothing,
    }
}

/// An argument that is a number.
fn plain_number(alloc: Global, dir: Direction, amount: Decimal) -> Value
    ensures { result ≡ traces.plain_number dir amount }
{
    Value {
        content: Content::Number {
            amount,
            kept: Kept::nothing(),
        },
        dir,
        forced: false,
        id: None,
        prefix: Text::new(alloc),
        suffix: Text::new(alloc),
        selects: Selects::Nothing,
    }
}

/// The value of an expression that has none, with its source.
pub fn fallback(alloc: Global, source: Text) -> Value
    ensures { result ≡ traces.fallback source }
{
    Value {
        content: Content::Fallback(source),
        dir: Direction::Unknown,
        forced: false,
        id: None,
        prefix: Text::new(alloc),
        suffix: Text::new(alloc),
        selects: Selects::Nothing,
    }
}

/// The value of an argument, where numbers have this direction.
pub fn argument_value(alloc: Global, dir: Direction, argued: &Argued) -> Result<Value, AllocError>
    ensures { IfOk result (λ value. value ≡ traces.argument_value dir argued.now) }
{
    match argued {
        Argued::Text(text) => Ok(plain_text(alloc, text.clone()?)),
        Argued::Signed(number) => Ok(plain_number(alloc, dir, of_i64(*number))),
        Argued::Unsigned(number) => Ok(plain_number(alloc, dir, of_u64(*number))),
    }
}
