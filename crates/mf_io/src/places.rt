//! Where a test may hold a caller.
use std::sync::Wait;

/// Where a caller stands on its way through a request.
#[derive(Clone, Copy, Debug, PartialEq, Eq)]
pub enum Place {
    /// It hasn't pinned an edition yet.
    BeforePin,
    /// It has claimed a message and hasn't compiled it yet.
    BeforeCompile,
    /// It has compiled the message that it claimed.
    AfterCompile,
}

/// What a caller passes on its way. In the program it does nothing. In a test it may hold a caller
/// until others have come.
pub trait Gate {
    /// Lets the caller go on, at once or later.
    fn at<R: Wait>(&self, rt: &R, place: Place);
}

/// A gate that does nothing.
#[derive(Clone, Copy, Debug, PartialEq, Eq, Drop)]
pub struct NoGate;

impl Gate for NoGate {
    fn at<R: Wait>(&self, _rt: &R, _place: Place) {}
}
