/// The direction of a text: of a whole message, or of a value that is put into one.
#[derive(Clone, Copy, Debug, PartialEq, Eq)]
pub enum Direction {
    /// Left to right.
    Ltr,
    /// Right to left.
    Rtl,
    /// Not known, so that the first strong character of the text decides.
    Unknown,
}
