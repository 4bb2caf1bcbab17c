//! What rules are made of.

ghost use Rattle.std.specs.Prelude.{◌≡◌};
ghost use Rattle.mf_plural.specs.Grammar.{keyword_text};

use mf_text::List;

/// A plural category.
#[derive(Clone, Copy, Debug, PartialEq, Eq)]
pub enum Category {
    Zero,
    One,
    Two,
    Few,
    Many,
    Other,
}

impl Category {
    /// The keyword by which rules and the keys of messages name it: `zero`, `one`, `two`, `few`,
    /// `many` or `other`.
    pub fn as_str(&self) -> &'static str
        ensures { result.now ≡ keyword_text self.now }
    {
        match self {
            Category::Zero => "zero",
            Category::One => "one",
            Category::Two => "two",
            Category::Few => "few",
            Category::Many => "many",
            Category::Other => "other",
        }
    }
}

/// What a relation looks at in a shown number, with the letter that rules write for it.
#[derive(Clone, Copy, Debug, PartialEq, Eq)]
pub enum Operand {
    /// `n`: the absolute value.
    Number,
    /// `i`: the whole part.
    Whole,
    /// `v`: the number of fraction digits, trailing zeros counted.
    FractionLen,
    /// `w`: the number of fraction digits without trailing zeros.
    TrimmedLen,
    /// `f`: the fraction digits as a whole number.
    Fraction,
    /// `t`: the fraction digits without trailing zeros, as a whole number.
    Trimmed,
    /// `c` and `e`: the power of ten of a compact form, which is 0 here.
    Exponent,
}

/// A value, or all from a first to a last one; each below 10^18.
#[derive(Clone, Copy, Debug, PartialEq, Eq)]
pub enum Item {
    Value(u64),
    Range { first: u64, last: u64 },
}

/// The items of a relation.
pub type Items = List<Item>;

/// That an operand, or its remainder by a modulus, is among some items, or that it isn't.
#[derive(Debug, PartialEq, Eq, Drop)]
pub struct Relation {
    pub operand: Operand,
    /// The modulus, where there is one; it isn't 0.
    pub modulus: Option<u64>,
    /// Whether the relation is written with `!=`.
    pub negated: bool,
    pub items: Items,
}

/// Relations that hold together.
pub type AndPart = List<Relation>;

/// Parts of which one holds; a rule for `other` has none.
pub type Condition = List<AndPart>;

/// A category, and the condition under which a number has it.
#[derive(Debug, PartialEq, Eq, Drop)]
pub struct Rule {
    pub keyword: Category,
    pub condition: Condition,
}

/// Rules in order, each of another keyword.
pub type Rules = List<Rule>;
