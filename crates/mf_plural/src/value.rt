//! The values of operands.

ghost use Rattle.std.specs.Prelude.{◌≡◌, ◌%◌, ◌<◌, Some};
ghost use Rattle.mf_plural.specs.Choice as choice;
ghost use Rattle.mf_plural.specs.declared.rule.Operand.TheVariants as operand;

use crate::operands::Operands;
use crate::rule::Operand;

impl Operands {
    /// The whole number that an operand's value is, or its remainder by a modulus, if that has no
    /// fraction.
    pub fn whole_value(&self, operand: Operand, modulus: Option<u64>) -> Option<u128>
        ensures { result
            ≡ choice.whole_of (choice.remainder modulus (choice.value_of self.now operand)) }
    {
        match self.whole_operand(operand) {
            Some(value) => Some(remainder(value, modulus)),
            None => None,
        }
    }

    // The whole number that an operand's value is, if it has no fraction.
    fn whole_operand(&self, operand: Operand) -> Option<u128>
        ensures { result ≡ choice.whole_of (choice.value_of self.now operand) }
    {
        match operand {
            Operand::Number => self.whole_number(),
            Operand::Whole => Some(self.whole),
            Operand::FractionLen => Some(u128::from(self.fraction_len)),
            Operand::TrimmedLen => Some(u128::from(self.trimmed_len)),
            Operand::Fraction => Some(self.fraction),
            Operand::Trimmed => Some(self.trimmed),
            Operand::Exponent => Some(0),
        }
    }

    // The whole number that the number is without its sign, if it has no fraction.
    fn whole_number(&self) -> Option<u128>
        ensures { result ≡ choice.whole_of (choice.value_of self.now operand.Number) }
    {
        if self.fraction == 0 {
            Some(self.whole)
        } else {
            None
        }
    }
}

// The remainder of a whole number by a modulus, where there is one.
fn remainder(value: u128, modulus: Option<u64>) -> u128
    ensures { result ≡ choice.whole_remainder modulus value }
{
    match modulus {
        Some(modulus) if modulus != 0 => short_remainder(value, modulus),
        _ => value,
    }
}

// The remainder by a modulus, which is quicker to find where the number is short, as most are.
fn short_remainder(value: u128, modulus: u64) -> u128
    requires { 0 < modulus }
    ensures { result ≡ value % modulus }
{
    match u64::try_from(value) {
        Ok(value) => u128::from(value % modulus),
        Err(_) => value % u128::from(modulus),
    }
}
