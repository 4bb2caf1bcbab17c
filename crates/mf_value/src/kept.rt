//! The options that a number keeps.

ghost use Rattle.std.specs.Prelude.{◌≡◌, true};
ghost use Rattle.mf_value.specs.Ranges.{is_way_of_number, is_within};

use crate::content::Selects;
use mf_numfmt::{Grouping, Sign};

/// The options of a number that were given to it, each none where it wasn't (Unicode TS 35, Part 9,
/// the functions
/// `:number` and `:integer`). They are as they were written: a maximum may be below its minimum.
#[derive(Clone, Copy, Debug, PartialEq, Eq)]
pub struct Kept {
    /// `select`: by `Plural`, `Ordinal` or `Exact`.
    pub select: Option<Selects>,
    /// `signDisplay`.
    pub sign: Option<Sign>,
    /// `useGrouping`.
    pub grouping: Option<Grouping>,
    /// `minimumIntegerDigits`, from 1 to 21.
    pub min_whole: Option<u32>,
    /// `minimumFractionDigits`, from 0 to 20.
    pub min_fraction: Option<u32>,
    /// `maximumFractionDigits`, from 0 to 20.
    pub max_fraction: Option<u32>,
    /// `minimumSignificantDigits`, from 1 to 21.
    pub min_significant: Option<u32>,
    /// `maximumSignificantDigits`, from 1 to 21.
    pub max_significant: Option<u32>,
    pub ghost select_fits: { is_way_of_number select ≡ true },
    pub ghost min_whole_fits: { is_within 1 21 min_whole ≡ true },
    pub ghost min_fraction_fits: { is_within 0 20 min_fraction ≡ true },
    pub ghost max_fraction_fits: { is_within 0 20 max_fraction ≡ true },
    pub ghost min_significant_fits: { is_within 1 21 min_significant ≡ true },
    pub ghost max_significant_fits: { is_within 1 21 max_significant ≡ true },
}
