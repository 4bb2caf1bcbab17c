//! How well a key matches a value.

ghost use Rattle.std.specs.Prelude.{◌≡◌, ℕ, List, Option, Some, None, IfOk};
ghost use Rattle.mf_meaning.specs.Numbers.{is_literal, is_number};
ghost use Rattle.mf_meaning.specs.Ranks as ranks;
ghost use Rattle.mf_functions.specs.Selecting.{rank_by, IsOf};

use crate::shown::{is_significant, shown_number};
use mf_decimal::{Decimal, NumberError, read};
use mf_locale::LocaleRecord;
use mf_plural::{Category, category};
use mf_text::{Text, nfc};
use mf_value::{Content, Kept, Ranked, Selects, Value};
use std::alloc::{AllocError, Global};

/// What the keys of a selector are compared with, made once for all of them.
#[derive(Debug, Drop)]
pub enum Selecting {
    /// The value selects nothing.
    Nothing,
    /// A text, in its normal form.
    Text(Text),
    /// A number: the key that is its exact text, if a key can be, and its category, where it
    /// selects by one.
    Number {
        exact: Option<Text>,
        category: Option<Category>,
    },
}

/// How well a key matches a value (Unicode TS 35, Part 9, "Pattern Selection"): a text the key with
/// its normal form; a number the key that is its exact text, unless an option adds digits to that,
/// and the keyword of its plural category.
///
/// Beside what `Selecting::of` takes, it takes no memory but for the normal form of the key of a
/// text.
pub fn select_rank(
    alloc: Global,
    record: &LocaleRecord,
    value: &Value,
    key: &Text,
) -> Result<Ranked, AllocError>
    ensures { IfOk result (λ ranked. ranked ≡ ranks.rank «record».now value.now key.now) }
{
    Selecting::of(alloc, record, value)?.rank(alloc, key)
}

impl Selecting {
    /// What the keys for a value are compared with.
    pub fn of(alloc: Global, record: &LocaleRecord, value: &Value) -> Result<Selecting, AllocError>
        ensures { IfOk result (λ selecting. IsOf «record».now value.now selecting) }
    {
        match (value.selects, &value.content) {
            (Selects::Nothing, _) | (_, Content::Fallback(_)) => Ok(Selecting::Nothing),
            (_, Content::Text(text)) => Ok(Selecting::Text(nfc(alloc, text.as_str())?)),
            (selects, Content::Number { amount, kept }) => Ok(Selecting::Number {
                exact: exact_key(alloc, amount, kept)?,
                category: category_of(record, selects, amount, kept),
            }),
        }
    }

    /// How well a key matches the value.
    pub fn rank(&self, alloc: Global, key: &Text) -> Result<Ranked, AllocError>
        ensures { IfOk result (λ ranked. ranked ≡ rank_by self.now key.now) }
    {
        match self {
            Selecting::Nothing => Ok(Ranked::Never),
            Selecting::Text(text) => {
                let key = nfc(alloc, key.as_str())?;
                if key.as_str() == text.as_str() {
                    Ok(Ranked::Exact)
                } else {
                    Ok(Ranked::Never)
                }
            }
            Selecting::Number { exact, category } => Ok(number_rank(exact, *category, key)),
        }
    }
}

/// The key that is the number itself, if a key can be.
fn exact_key(alloc: Global, amount: &Decimal, kept: &Kept) -> Result<Option<Text>, AllocError>
    ensures { IfOk result (λ key. key ≡ ranks.exact_key amount.now kept.now) }
{
    if adds_digits(kept) {
        return Ok(None);
    }
    let text = amount.exact_text(alloc)?;
    Ok(Some(Text::from(text)))
}

/// Whether an option is set that asks for digits which the exact text hasn't.
fn adds_digits(kept: &Kept) -> bool
    ensures { result ≡ ranks.adds_digits kept.now }
{
    kept.min_fraction.is_some() || kept.min_whole.is_some() || is_significant(kept)
}

/// The category of the shown number, where the number selects by one.
fn category_of(
    record: &LocaleRecord,
    selects: Selects,
    amount: &Decimal,
    kept: &Kept,
) -> Option<Category>
    ensures { result ≡ ranks.category_of «record».now selects amount.now kept.now }
{
    let rules = match selects {
        Selects::Plural => &record.plural,
        Selects::Ordinal => &record.ordinal,
        Selects::Nothing | Selects::Text | Selects::Exact => return None,
    };
    Some(category(rules, &shown_number(amount, kept)))
}

/// How well a key matches a number.
fn number_rank(exact: &Option<Text>, category: Option<Category>, key: &Text) -> Ranked
    ensures { result ≡ ranks.number_rank exact.now category key.now }
{
    if is_key(exact, key) {
        return Ranked::Exact;
    }
    if is_number(key) {
        return Ranked::Never;
    }
    keyword_rank(category, key.as_str())
}

/// Whether the key is a text that there is.
fn is_key(exact: &Option<Text>, key: &Text) -> bool
    ensures { result ≡ ranks.is_key exact.now key.now }
{
    match exact {
        Some(text) => key.as_str() == text.as_str(),
        None => false,
    }
}

/// Whether a text is a number literal.
fn is_number(text: &Text) -> bool
    ensures { result ≡ is_number text.now }
{
    is_literal(read(text.as_str()))
}

/// Whether a text that was read so is a number literal, which may be too wide.
fn is_literal(number: Result<Decimal, NumberError>) -> bool
    ensures { result ≡ is_literal number }
{
    match number {
        Ok(_) => true,
        Err(NumberError::TooWide) => true,
        Err(NumberError::NotANumber) => false,
    }
}

/// How well a key that is no number literal matches a number.
fn keyword_rank(category: Option<Category>, key: &str) -> Ranked
    ensures { result ≡ ranks.keyword_rank category key.now }
{
    if is_category(category, key) {
        Ranked::Keyword
    } else if is_keyword(key) {
        Ranked::Never
    } else {
        Ranked::BadKey
    }
}

/// Whether a key is the keyword of a category that there is.
fn is_category(category: Option<Category>, key: &str) -> bool
    ensures { result ≡ ranks.is_category category key.now }
{
    match category {
        Some(category) => key == category.as_str(),
        None => false,
    }
}

/// Whether a key is the keyword of some category.
fn is_keyword(key: &str) -> bool
    ensures { result ≡ ranks.is_keyword key.now }
{
    matches!(key, "zero" | "one" | "two" | "few" | "many" | "other")
}
