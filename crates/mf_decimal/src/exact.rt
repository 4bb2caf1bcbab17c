//! The exact text of a decimal.

ghost use Rattle.std.specs.Prelude.{◌≡◌, IfOk, string_bytes};
ghost use Rattle.std.specs.Str.{chars};
ghost use Rattle.mf_decimal.specs.Text.{exact_text};

use crate::decimal::Decimal;
use crate::powers::ten_to;
use std::alloc::{AllocError, Global};

impl Decimal {
    /// The plain decimal, with `-` below zero: `-0.05`, `1200`.
    pub fn exact_text(&self, alloc: Global) -> Result<String, AllocError>
        ensures bytes { IfOk result (λ text. string_bytes text ≡ exact_text self.now) }
        ensures characters { IfOk result (λ text. chars (string_bytes text) ≡ exact_text self.now) }
    {
        let sign = if self.negative { "-" } else { "" };
        let unit = ten_to(self.scale);
        let whole = self.coefficient / unit;
        if self.scale == 0 {
            return format!(in alloc; "{sign}{whole}");
        }
        let fraction = self.coefficient % unit;
        let width = self.scale as usize;
        format!(in alloc; "{sign}{whole}.{fraction:0width$}")
    }
}
