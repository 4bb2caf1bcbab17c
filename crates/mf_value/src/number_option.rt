//! The functions over numbers and their options, by name.

ghost use Rattle.std.specs.Prelude.{◌≡◌};
ghost use Rattle.mf_value.specs.NumberOptions as options;

/// A function whose value is a number (Unicode TS 35, Part 9, "Numeric Value Selection and
/// Formatting").
#[derive(Clone, Copy, Debug, PartialEq, Eq)]
pub enum NumberFunction {
    /// `:number`.
    Number,
    /// `:integer`.
    Integer,
}

/// An option of a function over numbers.
#[derive(Clone, Copy, Debug, PartialEq, Eq)]
pub enum NumberOption {
    Select,
    SignDisplay,
    UseGrouping,
    MinimumIntegerDigits,
    MinimumFractionDigits,
    MaximumFractionDigits,
    MinimumSignificantDigits,
    MaximumSignificantDigits,
}

impl NumberOption {
    /// The option with this name, if there is one.
    pub fn named(name: &str) -> Option<NumberOption>
        ensures { result ≡ options.option_named name.now }
    {
        match name {
            "select" => Some(NumberOption::Select),
            "signDisplay" => Some(NumberOption::SignDisplay),
            "useGrouping" => Some(NumberOption::UseGrouping),
            "minimumIntegerDigits" => Some(NumberOption::MinimumIntegerDigits),
            "minimumFractionDigits" => Some(NumberOption::MinimumFractionDigits),
            "maximumFractionDigits" => Some(NumberOption::MaximumFractionDigits),
            "minimumSignificantDigits" => Some(NumberOption::MinimumSignificantDigits),
            "maximumSignificantDigits" => Some(NumberOption::MaximumSignificantDigits),
            _ => None,
        }
    }

    /// Whether the function has the option.
    pub fn is_of(self, function: NumberFunction) -> bool
        ensures { result ≡ options.is_of function self }
    {
        match function {
            NumberFunction::Number => true,
            NumberFunction::Integer => !matches!(
                self,
                NumberOption::MinimumFractionDigits
                    | NumberOption::MaximumFractionDigits
                    | NumberOption::MinimumSignificantDigits
            ),
        }
    }
}
