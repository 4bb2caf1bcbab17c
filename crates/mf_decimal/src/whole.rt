//! Whole numbers as decimals, and the whole part of a decimal.

ghost use Rattle.std.specs.Prelude.{pos};
ghost use Rattle.mf_decimal.specs.Whole.{IsWhole, Cuts};

use crate::decimal::Decimal;
use crate::powers::ten_to;

/// The number as a decimal.
pub fn of_u64(n: u64) -> Decimal
    ensures { IsWhole result (pos n) }
{
    Decimal {
        negative: false,
        coefficient: u128::from(n),
        scale: 0,
    }
}

/// The number as a decimal.
pub fn of_i64(n: i64) -> Decimal
    ensures { IsWhole result n }
{
    Decimal {
        negative: n < 0,
        coefficient: u128::from(n.unsigned_abs()),
        scale: 0,
    }
}

impl Decimal {
    /// The whole part: the number without its fraction.
    pub fn cut(&self) -> Decimal
        ensures { Cuts self.now result }
    {
        let coefficient = self.coefficient / ten_to(self.scale);
        Decimal {
            negative: self.negative && coefficient != 0,
            coefficient,
            scale: 0,
        }
    }
}
