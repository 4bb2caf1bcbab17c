//! The digits of a number by their places.

ghost use Rattle.std.specs.Prelude.{◌≡◌, ℕ, ◌≤◌, slice_index};
ghost use Rattle.mf_numfmt.specs.NumberText.{digit_at, digit_count};

/// The places that a number is written in at most: those of a whole number or of a fraction.
pub const PLACES: usize = 56;

// The greatest number of 64 bits.
const NARROW: u128 = 18_446_744_073_709_551_615;

/// A number with its digits, by places that count from 0 at the decimal point.
#[derive(Drop)]
pub struct Places {
    pub number: u128,
    pub digits: [u8; PLACES],
    /// How many digits write the number, without leading zeros.
    pub count: usize,
    pub ghost written: { (place : ℕ) → slice_index digits place ≡ digit_at number place },
    pub ghost counted: { count ≡ digit_count number },
    pub ghost short: { count ≤ 39 },
}

impl Places {
    /// The digits of a number.
    pub fn of(number: u128) -> Places
        ensures { result.number ≡ number }
    {
        let mut digits = [0; PLACES];
        let mut count = 0;
        let mut wide = number;
        while wide > NARROW {
            digits[count] = (wide % 10) as u8;
            wide /= 10;
            count += 1;
        }
        // Most numbers need 64 bits, in which division is faster.
        let mut rest = wide as u64;
        while rest > 0 {
            digits[count] = (rest % 10) as u8;
            rest /= 10;
            count += 1;
        }
        Places {
            number,
            digits,
            count: count.max(1),
        }
    }
}
