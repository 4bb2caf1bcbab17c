//! The options of a number that was given none: a file of its own, since what it promises names the
//! type.

ghost use Rattle.std.specs.Prelude.{◌≡◌};
ghost use Rattle.mf_value.specs.Values.{nothing_kept};

use crate::kept::Kept;

impl Kept {
    /// No option was given.
    pub fn nothing() -> Kept
        ensures { result ≡ nothing_kept }
    {
        Kept {
            select: None,
            sign: None,
            grouping: None,
            min_whole: None,
            min_fraction: None,
            max_fraction: None,
            min_significant: None,
            max_significant: None,
        }
    }
}
