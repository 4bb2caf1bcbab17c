//! The category of a shown number.

ghost use Rattle.std.specs.Prelude.{◌≡◌};
ghost use Rattle.std.specs.List.{list_any};
ghost use Rattle.mf_plural.specs.Choice as choice;

use crate::operands::Operands;
use crate::rule::{AndPart, Category, Condition, Item, Items, Relation, Rules};
use mf_decimal::Shown;

/// The category of a shown number: the keyword of the first rule whose condition holds, else
/// `other`.
///
/// It takes no memory.
pub fn category(rules: &Rules, shown: &Shown) -> Category
    ensures { result ≡ choice.category_by rules.now shown.now }
{
    let operands = Operands::of(shown);
    for rule in rules.as_slice() {
        if condition_holds(&rule.condition, &operands) {
            return rule.keyword;
        }
    }
    Category::Other
}

// Whether one of the parts of a condition holds.
fn condition_holds(condition: &Condition, operands: &Operands) -> bool
    ensures { result ≡ choice.condition_holds operands.now condition.now }
{
    condition
        .as_slice()
        .iter()
        .any(|part| part_holds(part, operands))
}

// Whether all relations of a part hold.
fn part_holds(part: &AndPart, operands: &Operands) -> bool
    ensures { result ≡ choice.part_holds operands.now part.now }
{
    part.as_slice()
        .iter()
        .all(|relation| relation_holds(relation, operands))
}

// Whether a relation holds.
fn relation_holds(relation: &Relation, operands: &Operands) -> bool
    ensures { result ≡ choice.relation_holds operands.now relation.now }
{
    let value = operands.whole_value(relation.operand, relation.modulus);
    is_among(&relation.items, value) != relation.negated
}

// Whether a value is at one of the items.
fn is_among(items: &Items, value: Option<u128>) -> bool
    ensures { result ≡ choice.is_among items.now value }
{
    match value {
        Some(number) => has_item(items, number),
        None => false,
    }
}

// Whether a whole number is at one of the items.
fn has_item(items: &Items, number: u128) -> bool
    ensures { result ≡ list_any (choice.is_at number) items.now }
{
    items.as_slice().iter().any(|item| is_at(item, number))
}

// Whether a number is the value, or lies in the range.
fn is_at(item: &Item, number: u128) -> bool
    ensures { result ≡ choice.is_at number item.now }
{
    match *item {
        Item::Value(value) => number == u128::from(value),
        Item::Range { first, last } => u128::from(first) <= number && number <= u128::from(last),
    }
}
