//! The options of a call, read once.

ghost use Rattle.std.specs.Prelude.{◌≡◌};
ghost use Rattle.std.specs.Option.{is_some, option_or};
ghost use Rattle.mf_functions.specs.Written.{nothing_written, preset_from, takes_given, takes_option, takes_preset, with_given, with_option, with_preset};

use crate::option_values::{count_named, grouping_named, sign_named, way_named};
use crate::options::{option_named, option_of};
use mf_numfmt::{Grouping, Sign};
use mf_text::Pair;
use mf_value::{Given, NumberFunction, NumberOption, Selects};

/// The values that the options of a call give, each the first one that is allowed.
#[derive(Clone, Copy)]
pub struct Written {
    pub select: Option<Selects>,
    pub sign: Option<Sign>,
    pub grouping: Option<Grouping>,
    pub min_whole: Option<u32>,
    pub min_fraction: Option<u32>,
    pub max_fraction: Option<u32>,
    pub min_significant: Option<u32>,
    pub max_significant: Option<u32>,
    /// Whether a variable gives `select`.
    pub by_variable: bool,
}

impl Written {
    /// No option.
    pub fn nothing() -> Written
        ensures { result ≡ nothing_written }
    {
        Written {
            select: None,
            sign: None,
            grouping: None,
            min_whole: None,
            min_fraction: None,
            max_fraction: None,
            min_significant: None,
            max_significant: None,
            by_variable: false,
        }
    }

    /// Takes up one more option, and says whether it is allowed.
    pub fn take(&mut self, function: NumberFunction, given: &Given) -> bool
        ensures allowed { result ≡ takes_given function given.now }
        ensures taken { self.new ≡ with_given function self.old given.now }
    {
        let option = option_of(function, &given.name);
        self.take_option(option, given.literal, given.value.as_str())
    }

    /// Takes up a preset, which counts as given by a literal, and says whether it is allowed.
    pub fn take_preset(&mut self, function: NumberFunction, preset: &Pair) -> bool
        ensures allowed { result ≡ takes_preset function preset.now }
        ensures taken { self.new ≡ with_preset function self.old preset.now }
    {
        let option = option_named(function, preset.name.as_str());
        self.take_option(option, true, preset.value.as_str())
    }

    /// These, and what presets give that isn't there.
    pub fn with_presets(self, function: NumberFunction, presets: &[Pair]) -> Written
        ensures { result ≡ preset_from function self presets.now }
    {
        let mut written = self;
        for preset in presets {
            written.take_preset(function, preset);
        }
        written
    }

    /// Takes up a value of an option, which a literal gives or a variable, and says whether it is
    /// allowed.
    fn take_option(&mut self, option: Option<NumberOption>, literal: bool, text: &str) -> bool
        ensures allowed { result ≡ takes_option option literal text.now }
        ensures taken { self.new ≡ with_option self.old option literal text.now }
    {
        let Some(option) = option else {
            return false;
        };
        match option {
            NumberOption::Select => {
                self.by_variable = self.by_variable || !literal;
                set(
                    &mut self.select,
                    if literal { way_named(text) } else { None },
                )
            }
            NumberOption::SignDisplay => set(&mut self.sign, sign_named(text)),
            NumberOption::UseGrouping => set(&mut self.grouping, grouping_named(text)),
            NumberOption::MinimumIntegerDigits => set(
                &mut self.min_whole,
                count_named(1, 21, text),
            ),
            NumberOption::MinimumFractionDigits => {
                set(&mut self.min_fraction, count_named(0, 20, text))
            }
            NumberOption::MaximumFractionDigits => {
                set(&mut self.max_fraction, count_named(0, 20, text))
            }
            NumberOption::MinimumSignificantDigits => {
                set(&mut self.min_significant, count_named(1, 21, text))
            }
            NumberOption::MaximumSignificantDigits => {
                set(&mut self.max_significant, count_named(1, 21, text))
            }
        }
    }
}

/// Gives a setting its value where it has none yet, and says whether there is one.
fn set<T: Copy>(setting: &mut Option<T>, value: Option<T>) -> bool
    ensures some { result ≡ is_some value }
    ensures first { setting.new ≡ option_or setting.old value }
{
    if setting.is_none() {
        *setting = value;
    }
    value.is_some()
}
