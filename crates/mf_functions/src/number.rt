//! `:number` and `:integer`.

ghost use Rattle.std.specs.Prelude.{◌≡◌, ◌<◌, ◌^◌, [], length, IfOk};
ghost use Rattle.std.specs.Option.{option_copied};
ghost use Rattle.mf_meaning.specs.Functions as functions;
ghost use Rattle.mf_meaning.specs.Numbers.{number_of};
ghost use Rattle.mf_meaning.specs.Options.{inherited_from};
ghost use Rattle.mf_functions.specs.Written.{AreInRange, IsKept};
ghost use Rattle.mf_value.specs.declared.number_option.NumberFunction.TheVariants.{Number, Integer};

use crate::reading::{Reading, read_options};
use crate::written::Written;
use mf_decimal::{Decimal, read};
use mf_locale::LocaleRecord;
use mf_text::{List, Pair, Text};
use mf_value::{Called, Content, Kept, NumberFunction, NumberOption, Options, Selects, Value};
use std::alloc::{AllocError, Global};

/// `:number`: a number with options of its own, and the value that it has (Unicode TS 35, Part 9,
/// "The `:number` function").
///
/// The operand is a number, or a text that is a number literal of at most 36 digits and a scale of
/// at most 36; there is no value for any other one, and for none. The options are `select`,
/// `signDisplay`, `useGrouping`, `minimumIntegerDigits` and `minimumSignificantDigits` and
/// `maximumSignificantDigits` (1 to 21), `minimumFractionDigits` and `maximumFractionDigits` (0 to
/// 20); each that isn't written is inherited from the operand. An option with another name or a
/// value that isn't allowed is refused, and so is a `select` that a variable gives; then the number
/// selects nothing.
pub fn number_fn(
    alloc: Global,
    record: &LocaleRecord,
    operand: Option<&Value>,
    options: &Options,
) -> Result<Called, AllocError>
    requires few { length options.now < 2 ^ 32 }
    ensures { IfOk result (λ called. called ≡ functions.number_called «record».now Number []
        (option_copied operand.entry) options.now) }
{
    number_called(alloc, record, NumberFunction::Number, &[], operand, options)
}

/// `:integer`: the same of the number cut toward zero (Unicode TS 35, Part 9, "The `:integer`
/// function"). It has neither `minimumFractionDigits`, `maximumFractionDigits` nor
/// `minimumSignificantDigits`, and inherits none of them.
pub fn integer_fn(
    alloc: Global,
    record: &LocaleRecord,
    operand: Option<&Value>,
    options: &Options,
) -> Result<Called, AllocError>
    requires few { length options.now < 2 ^ 32 }
    ensures { IfOk result (λ called. called ≡ functions.number_called «record».now Integer []
        (option_copied operand.entry) options.now) }
{
    number_called(
        alloc,
        record,
        NumberFunction::Integer,
        &[],
        operand,
        options,
    )
}

/// What a function over numbers gives where some options are preset.
pub fn number_called(
    alloc: Global,
    record: &LocaleRecord,
    function: NumberFunction,
    presets: &[Pair],
    operand: Option<&Value>,
    options: &Options,
) -> Result<Called, AllocError>
    requires few { length options.now < 2 ^ 32 }
    ensures { IfOk result (λ called. called
        ≡ functions.number_called «record».now function presets.now
        (option_copied operand.entry) options.now) }
{
    let Some((amount, inherited)) = operand_number(operand) else {
        return Ok(Called {
            value: None,
            faults: List::new(alloc),
        });
    };
    let Reading { written, refused } = read_options(alloc, function, presets, options)?;
    let kept = kept_after(function, &written, &inherited);
    let value = number_value(
        alloc,
        record,
        amount_of(function, amount),
        kept,
        written.by_variable,
    );
    Ok(Called {
        value: Some(value),
        faults: refused,
    })
}

/// The amount of an operand and what it keeps, where it is a number or a text that is one.
fn operand_number(operand: Option<&Value>) -> Option<(Decimal, Kept)>
    ensures { result ≡ functions.operand_number (option_copied operand.entry) }
{
    match &operand?.content {
        Content::Text(text) => text_operand(text),
        Content::Number { amount, kept } => Some((*amount, *kept)),
        Content::Fallback(_) => None,
    }
}

/// The amount of a text that is a number.
fn text_operand(text: &Text) -> Option<(Decimal, Kept)>
    ensures { result ≡ functions.text_operand (number_of text.now) }
{
    match number_of(text) {
        Some(amount) => Some((amount, Kept::nothing())),
        None => None,
    }
}

/// The number that a text is.
fn number_of(text: &Text) -> Option<Decimal>
    ensures { result ≡ number_of text.now }
{
    read(text.as_str()).ok()
}

/// The amount that the function gives a number.
fn amount_of(function: NumberFunction, amount: Decimal) -> Decimal
    ensures { result ≡ functions.amount_of function amount }
{
    match function {
        NumberFunction::Number => amount,
        NumberFunction::Integer => amount.cut(),
    }
}

/// A count of digits that the operand keeps, where the function inherits it.
fn inherited_count(
    function: NumberFunction,
    option: NumberOption,
    count: Option<u32>,
) -> Option<u32>
    ensures { result ≡ inherited_from function option count }
{
    if option.is_of(function) { count } else { None }
}

/// What is kept where these options are written.
fn kept_after(function: NumberFunction, written: &Written, inherited: &Kept) -> Kept
    requires in_range { AreInRange written.now }
    ensures { IsKept function written.now inherited.now result }
{
    let min_fraction = inherited_count(
        function,
        NumberOption::MinimumFractionDigits,
        inherited.min_fraction,
    );
    let max_fraction = inherited_count(
        function,
        NumberOption::MaximumFractionDigits,
        inherited.max_fraction,
    );
    let min_significant = inherited_count(
        function,
        NumberOption::MinimumSignificantDigits,
        inherited.min_significant,
    );
    Kept {
        select: written.select.or(inherited.select),
        sign: written.sign.or(inherited.sign),
        grouping: written.grouping.or(inherited.grouping),
        min_whole: written.min_whole.or(inherited.min_whole),
        min_fraction: written.min_fraction.or(min_fraction),
        max_fraction: written.max_fraction.or(max_fraction),
        min_significant: written.min_significant.or(min_significant),
        max_significant: written.max_significant.or(inherited.max_significant),
    }
}

/// How a number selects.
fn way_of(by_variable: bool, kept: Option<Selects>) -> Selects
    ensures { result ≡ functions.way_of by_variable kept }
{
    if by_variable {
        return Selects::Nothing;
    }
    match kept {
        Some(way) => way,
        None => Selects::Plural,
    }
}

/// A number with what it keeps.
fn number_value(
    alloc: Global,
    record: &LocaleRecord,
    amount: Decimal,
    kept: Kept,
    by_variable: bool,
) -> Value
    ensures { result ≡ functions.number_value «record».now amount kept by_variable }
{
    Value {
        content: Content::Number { amount, kept },
        dir: record.dir,
        forced: false,
        id: None,
        prefix: Text::new(alloc),
        suffix: Text::new(alloc),
        selects: way_of(by_variable, kept.select),
    }
}
