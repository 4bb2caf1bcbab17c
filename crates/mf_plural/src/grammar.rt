//! Rules read from their tokens.

ghost use Rattle.std.specs.Prelude.{◌≡◌, IfOk};
ghost use Rattle.mf_plural.specs.Grammar as grammar;
ghost use Rattle.mf_plural.specs.Computed as computed;

use crate::cut::cut;
use crate::rule::{AndPart, Category, Condition, Item, Items, Operand, Relation, Rule};
use crate::token::{Separator, Token};
use std::alloc::{AllocError, Global};

/// The rule that tokens are, if they are one.
pub fn read_rule(alloc: Global, tokens: &[Token]) -> Result<Option<Rule>, AllocError>
    ensures { IfOk result (λ rule. rule ≡ computed.rule_of tokens.now) }
{
    let [Token::Keyword(keyword), Token::Colon, rest @ ..] = tokens else {
        return Ok(None);
    };
    let Some(condition) = read_condition(alloc, rest)? else {
        return Ok(None);
    };
    Ok(fit_rule(*keyword, condition))
}

// The rule of a keyword and a condition, where only `other` has none.
fn fit_rule(keyword: Category, condition: Condition) -> Option<Rule>
    ensures { result ≡ computed.fit_rule keyword condition }
{
    if is_fit(keyword, &condition) {
        Some(Rule { keyword, condition })
    } else {
        None
    }
}

// Whether a rule of a keyword may have such a condition.
fn is_fit(keyword: Category, condition: &Condition) -> bool
    ensures { result ≡ grammar.is_fit keyword condition.now }
{
    match keyword {
        Category::Other => condition.is_empty(),
        _ => !condition.is_empty(),
    }
}

// The condition that tokens are: none where there are no tokens.
fn read_condition(alloc: Global, tokens: &[Token]) -> Result<Option<Condition>, AllocError>
    ensures { IfOk result (λ parts. parts ≡ computed.condition_of tokens.now) }
{
    if tokens.is_empty() {
        return Ok(Some(Condition::new(alloc)));
    }
    read_parts(alloc, tokens)
}

// The and-parts between each `or`.
fn read_parts(alloc: Global, tokens: &[Token]) -> Result<Option<Condition>, AllocError>
    ensures { IfOk result (λ parts. parts ≡ computed.parts_of tokens.now) }
{
    let mut parts = Condition::new(alloc);
    let mut rest = Some(tokens);
    while let Some(tokens) = rest {
        let (first, after) = cut(Separator::BetweenParts, tokens);
        let Some(part) = read_part(alloc, first)? else {
            return Ok(None);
        };
        parts.push(part)?;
        rest = after;
    }
    Ok(Some(parts))
}

// The relations between each `and`.
fn read_part(alloc: Global, tokens: &[Token]) -> Result<Option<AndPart>, AllocError>
    ensures { IfOk result (λ part. part ≡ computed.part_of tokens.now) }
{
    let mut part = AndPart::new(alloc);
    let mut rest = Some(tokens);
    while let Some(tokens) = rest {
        let (first, after) = cut(Separator::BetweenRelations, tokens);
        let Some(relation) = read_relation(alloc, first)? else {
            return Ok(None);
        };
        part.push(relation)?;
        rest = after;
    }
    Ok(Some(part))
}

// The relation that tokens are.
fn read_relation(alloc: Global, tokens: &[Token]) -> Result<Option<Relation>, AllocError>
    ensures { IfOk result (λ relation. relation ≡ computed.relation_of tokens.now) }
{
    match tokens {
        [Token::Operand(_), Token::Percent, Token::Value(0), ..] => Ok(None),
        [
            Token::Operand(operand),
            Token::Percent,
            Token::Value(modulus),
            rest @ ..,
        ] => { compared(alloc, *operand, Some(*modulus), rest) }
        [Token::Operand(operand), rest @ ..] => compared(alloc, *operand, None, rest),
        _ => Ok(None),
    }
}

// The relation of an operand whose sign and list these tokens are.
fn compared(
    alloc: Global,
    operand: Operand,
    modulus: Option<u64>,
    tokens: &[Token],
) -> Result<Option<Relation>, AllocError>
    ensures { IfOk result (λ relation. relation ≡ computed.compared operand modulus tokens.now) }
{
    let (negated, list) = match tokens {
        [Token::Equals, list @ ..] => (false, list),
        [Token::Differs, list @ ..] => (true, list),
        _ => return Ok(None),
    };
    let Some(items) = read_items(alloc, list)? else {
        return Ok(None);
    };
    Ok(Some(Relation {
        operand,
        modulus,
        negated,
        items,
    }))
}

// The items between the commas.
fn read_items(alloc: Global, tokens: &[Token]) -> Result<Option<Items>, AllocError>
    ensures { IfOk result (λ items. items ≡ computed.items_of tokens.now) }
{
    let mut items = Items::new(alloc);
    let mut rest = Some(tokens);
    while let Some(tokens) = rest {
        let (first, after) = cut(Separator::BetweenItems, tokens);
        let Some(item) = item(first) else {
            return Ok(None);
        };
        items.push(item)?;
        rest = after;
    }
    Ok(Some(items))
}

// The item that tokens are.
fn item(tokens: &[Token]) -> Option<Item>
    ensures { result ≡ computed.item_of tokens.now }
{
    match tokens {
        [Token::Value(value)] => Some(Item::Value(*value)),
        [Token::Value(first), Token::Dots, Token::Value(last)] if first <= last => {
            Some(Item::Range {
                first: *first,
                last: *last,
            })
        }
        _ => None,
    }
}
