//! Rules read from their text.

ghost use Rattle.std.specs.Prelude.{◌≡◌, ◌+◌, ◌≤◌, length, IfErr, IfOk, Ok, Err};
ghost use Rattle.mf_plural.specs.Keywords.{has_keyword, is_same};
ghost use Rattle.mf_plural.specs.Refusals.{IfBadRule};
ghost use Rattle.mf_plural.specs.Grammar.{IsFirstBad, SpellsRules};
ghost use Rattle.mf_plural.specs.Computed.{rules_of};
ghost use Rattle.mf_plural.specs.Computed as computed;

use crate::cut::{before_samples, first_rule, is_blank};
use crate::error::RuleError;
use crate::grammar::read_rule;
use crate::lexeme::read_tokens;
use crate::rule::{Category, Rule, Rules};
use std::alloc::{AllocError, Global};

/// The rules that a text spells.
///
/// # Errors
///
/// `BadRule` with the number of the first rule that is none: it isn't of the form, its keyword
/// stood in an earlier rule, it is a rule for `other` with a condition or for another keyword
/// without one, it takes a remainder by zero, or a range's first value is above its last.
/// `OutOfMemory`.
pub fn read_rules(alloc: Global, text: &str) -> Result<Rules, RuleError>
    ensures spelled { IfOk result (λ rules. SpellsRules text.now rules) }
    ensures bad { IfErr result (IfBadRule (IsFirstBad text.now)) }
    ensures computed { IfOk result (λ rules. rules_of text.now ≡ Ok rules) }
    ensures numbered { IfErr result (IfBadRule (λ number. rules_of text.now ≡ Err number)) }
{
    let mut rules = Rules::new(alloc);
    let mut rest = text.as_bytes();
    while !is_blank(rest) {
        let (first, after) = first_rule(rest);
        let Some(rule) = new_rule(alloc, rules.as_slice(), first)? else {
            return Err(RuleError::BadRule {
                rule: next_number(rules.as_slice()),
            });
        };
        rules.push(rule)?;
        rest = after;
    }
    Ok(rules)
}

// The rule that a text is, if its keyword is new.
fn new_rule(alloc: Global, earlier: &[Rule], text: &[u8]) -> Result<Option<Rule>, AllocError>
    ensures { IfOk result (λ rule. rule ≡ computed.new_rule earlier.now text.now) }
{
    let Some(rule) = rule_from(alloc, text)? else {
        return Ok(None);
    };
    if has_keyword(earlier, rule.keyword) {
        return Ok(None);
    }
    Ok(Some(rule))
}

// Whether one of the rules has a keyword.
fn has_keyword(rules: &[Rule], keyword: Category) -> bool
    ensures { result ≡ has_keyword keyword rules.now }
{
    rules.iter().any(|rule| is_same(keyword, rule.keyword))
}

// Whether two categories are one.
fn is_same(category: Category, other: Category) -> bool
    ensures { result ≡ is_same category other }
{
    category == other
}

// The number of the rule that follows some rules.
fn next_number(rules: &[Rule]) -> u32
    requires { length rules.now ≤ 6 }
    ensures { result ≡ length rules.now + 1 }
{
    rules.len() as u32 + 1
}

// The rule that a text is, its samples left aside.
fn rule_from(alloc: Global, text: &[u8]) -> Result<Option<Rule>, AllocError>
    ensures { IfOk result (λ rule. rule ≡ computed.rule_from text.now) }
{
    let Some(tokens) = read_tokens(alloc, before_samples(text))? else {
        return Ok(None);
    };
    read_rule(alloc, tokens.as_slice())
}
