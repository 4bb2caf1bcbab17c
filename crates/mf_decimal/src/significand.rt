//! The digits of a number, read one after the other.

ghost use Rattle.std.specs.Prelude.{◌≡◌, ◌<◌, ◌≤◌, ◌+◌, ◌*◌, ◌%◌, ◌^◌, length, IfSome, IfNone};

use crate::powers::ten_to;

/// Digits with zeros after them. The last digit is no zero, and there are at most 36 of them.
#[derive(Clone, Copy)]
pub struct Significand {
    pub digits: u128,
    pub zeros: usize,
    pub ghost short: { digits < 10 ^ 36 },
    pub ghost last: { 0 < digits → 0 < digits % 10 },
    pub ghost none: { digits ≡ 0 → zeros ≡ 0 },
}

impl Significand {
    ghost use Rattle.std.specs.Str.Parse.{AllDigits, digits_value};
    ghost use Rattle.mf_decimal.specs.Significand.{worth, IsLong};

    /// No digits yet.
    pub const NONE: Significand = Significand {
        digits: 0,
        zeros: 0,
    };

    /// The number with one more digit, or none where the last digit would be the 37th or a later
    /// one.
    fn with_digit(self, digit: u8) -> Option<Significand>
        requires digit { digit < 10 }
        requires room { self.zeros + 1 < 2 ^ 64 }
        ensures value { IfSome result (λ s. worth s ≡ worth self * 10 + digit) }
        ensures zeros { IfSome result (λ s. s.zeros ≤ self.zeros + 1) }
        ensures long { IfNone result ((10 ^ 35 ≤ worth self) × (0 < digit)) }
    {
        if digit == 0 {
            let zeros = if self.digits == 0 { 0 } else { self.zeros + 1 };
            return Some(Significand {
                digits: self.digits,
                zeros,
            });
        }
        if self.zeros > 35 || self.digits >= ten_to(35 - self.zeros as u32) {
            return None;
        }
        let digits = self.digits * ten_to(self.zeros as u32 + 1) + u128::from(digit);
        Some(Significand { digits, zeros: 0 })
    }

    /// The number with these digits after its own, or none where more than 36 digits stand before
    /// the last one that is no zero.
    pub fn with_digits(self, bytes: &[u8]) -> Option<Significand>
        requires digits { AllDigits 10 bytes.now }
        requires room { self.zeros + length bytes.now < 2 ^ 64 }
        ensures value { IfSome result
            (λ s. worth s ≡ worth self * 10 ^ length bytes.now + digits_value 10 bytes.now) }
        ensures zeros { IfSome result (λ s. s.zeros ≤ self.zeros + length bytes.now) }
        ensures long { IfNone result
            (IsLong (worth self * 10 ^ length bytes.now + digits_value 10 bytes.now)) }
    {
        let mut number = self;
        for byte in bytes {
            number = number.with_digit(*byte - b'0')?;
        }
        Some(number)
    }
}
