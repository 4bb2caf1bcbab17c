ghost use Rattle.std.specs.Prelude.{IsTrue};
ghost use Rattle.mf_numfmt.specs.Sizes.{is_size};

use mf_text::Text;
use std::alloc::AllocError;

/// The symbols and the sizes of groups by which a locale writes a number (Unicode TS 35, Part 3,
/// "Number Symbols" and "Number Patterns"), whose sizes are from 1 to 9.
#[derive(Debug, PartialEq, Eq, Drop)]
pub struct Layout {
    /// Stands between the whole digits and the fraction.
    pub decimal: Text,
    /// Stands between two groups of whole digits; it may be empty.
    pub group: Text,
    pub minus: Text,
    pub plus: Text,
    /// The digits of the group at the decimal point, from 1 to 9.
    pub primary: u32,
    /// The digits of each further group, from 1 to 9.
    pub secondary: u32,
    /// The least digits that stand before the first separator, from 1 to 9.
    pub min_group: u32,
    pub ghost primary_fits: { IsTrue (is_size primary) },
    pub ghost secondary_fits: { IsTrue (is_size secondary) },
    pub ghost min_group_fits: { IsTrue (is_size min_group) },
}

impl Clone for Layout {
    ghost use Rattle.std.specs.Prelude.{◌≡◌};

    ghost is_clone = { λ original copy. copy ≡ original };

    fn clone(&self) -> Result<Layout, AllocError> {
        Ok(Layout {
            decimal: self.decimal.clone()?,
            group: self.group.clone()?,
            minus: self.minus.clone()?,
            plus: self.plus.clone()?,
            primary: self.primary,
            secondary: self.secondary,
            min_group: self.min_group,
        })
    }
}
