use mf_numfmt::Layout;
use mf_plural::Rules;
use mf_text::Direction;

/// What a locale says of the messages and the numbers in its language.
#[derive(Debug, PartialEq, Eq, Drop)]
pub struct LocaleRecord {
    /// The direction of its messages and numbers.
    pub dir: Direction,
    /// How a number is written.
    pub layout: Layout,
    /// The plural rules for cardinal numbers.
    pub plural: Rules,
    /// The plural rules for ordinal numbers.
    pub ordinal: Rules,
}
