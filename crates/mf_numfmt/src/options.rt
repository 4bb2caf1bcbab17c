/// Which sign is shown (Unicode TS 35, Part 9, the option `signDisplay`). A zero is a number that
/// is shown as zero.
#[derive(Clone, Copy, PartialEq, Eq, Debug)]
pub enum Sign {
    /// The minus of a negative number.
    Auto,
    /// The minus of a negative number, the plus of every other one.
    Always,
    /// The minus of a negative number, the plus of a positive one.
    ExceptZero,
    /// The minus of a negative number, as a zero has none.
    Negative,
    /// None.
    Never,
}

/// Where separators stand between groups of whole digits (Unicode TS 35, Part 9, the option
/// `useGrouping`).
#[derive(Clone, Copy, PartialEq, Eq, Debug)]
pub enum Grouping {
    /// Where as many digits stand before the first one as the layout wants.
    Auto,
    /// Where one digit stands before the first one.
    Always,
    /// Nowhere.
    Never,
    /// Where two digits stand before the first one.
    Min2,
}
