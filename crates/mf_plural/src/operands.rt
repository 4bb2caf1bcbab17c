//! The operands of a shown number.

ghost use Rattle.std.specs.Prelude.{◌≡◌};
ghost use Rattle.mf_plural.specs.Operands.{operands_of, trimmed as value_trimmed, trimmed_len as len_trimmed};

use mf_decimal::Shown;
use std::marker::Model;

/// The operands of a shown number: its whole part, how many fraction digits it has and what they
/// write, and the same of those without trailing zeros.
#[derive(Drop)]
pub struct Operands {
    pub whole: u128,
    pub fraction_len: u32,
    pub fraction: u128,
    pub trimmed_len: u32,
    pub trimmed: u128,
}

impl Model for Operands {
    ghost use Rattle.std.specs.Prelude.{◌<◌, ◌^◌};
    ghost use Rattle.mf_plural.specs.Operands.{Operands as Seen};

    ghost Value = { Seen };

    ghost view = { λ o. record { whole = o.whole; fraction_len = o.fraction_len; fraction = o.fraction; trimmed_len = o.trimmed_len; trimmed = o.trimmed } };

    ghost invariant = { λ o. o.fraction < 10 ^ o.fraction_len };
}

impl Operands {
    /// The operands of a shown number.
    pub fn of(shown: &Shown) -> Operands
        ensures { result ≡ operands_of shown.now }
    {
        let (trimmed_len, trimmed) = trim(shown.fraction_len, shown.fraction);
        Operands {
            whole: shown.whole,
            fraction_len: shown.fraction_len,
            fraction: shown.fraction,
            trimmed_len,
            trimmed,
        }
    }
}

// How many fraction digits are left without the trailing zeros, and what they write.
fn trim(mut len: u32, mut fraction: u128) -> (u32, u128)
    ensures len { result.0 ≡ len_trimmed len fraction }
    ensures fraction { result.1 ≡ value_trimmed len fraction }
{
    while len > 0 && fraction % 10 == 0 {
        len -= 1;
        fraction /= 10;
    }
    (len, fraction)
}
