//! The calls that can be timed.

ghost use Rattle.std.specs.Prelude.{◌≡◌};
ghost use Rattle.mf_bench.specs.Calls.{call_named};

/// A call that is timed.
#[derive(Clone, Copy)]
pub enum Call {
    /// A text is read.
    Read,
    /// A number is rounded to at most three fraction digits.
    Round,
    /// A number's exact text is written.
    Exact,
    /// A number's text in a locale's layout is written.
    Text,
    /// A number's category is found by plural rules.
    Category,
    /// `:number` is called without options.
    Number,
    /// `:number` is called with four options.
    Options,
    /// What a number shows is written.
    Shown,
    /// A key is ranked for a number.
    Rank,
    /// An alias with two presets is called.
    Alias,
    /// An affix with two presets is called.
    Affix,
    /// A table of that many entries is called.
    Table,
    /// A matcher of that many variants is checked.
    Variants,
    /// That many declarations of a hundred options are checked.
    Declarations,
}

impl Call {
    /// The call that a word names.
    pub fn named(word: &str) -> Option<Call>
        ensures { result ≡ call_named word.now }
    {
        if word == "read" {
            Some(Call::Read)
        } else if word == "round" {
            Some(Call::Round)
        } else if word == "exact" {
            Some(Call::Exact)
        } else if word == "text" {
            Some(Call::Text)
        } else if word == "category" {
            Some(Call::Category)
        } else if word == "number" {
            Some(Call::Number)
        } else if word == "options" {
            Some(Call::Options)
        } else if word == "shown" {
            Some(Call::Shown)
        } else if word == "rank" {
            Some(Call::Rank)
        } else if word == "alias" {
            Some(Call::Alias)
        } else if word == "affix" {
            Some(Call::Affix)
        } else if word == "table" {
            Some(Call::Table)
        } else if word == "variants" {
            Some(Call::Variants)
        } else if word == "declarations" {
            Some(Call::Declarations)
        } else {
            None
        }
    }
}
