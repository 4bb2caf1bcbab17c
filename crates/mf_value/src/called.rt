use crate::value::Value;
use mf_text::List;
use mf_tree::Kind;

/// An error of a call: its class, and the option at which it arose, by its place among the options
/// from 0.
#[derive(Clone, Copy, Debug, PartialEq, Eq)]
pub struct CallFault {
    pub kind: Kind,
    pub option: u32,
}

/// Errors of a call in the order of the options.
pub type CallFaults = List<CallFault>;

/// What a call gives: a value, or none where the function refuses its operand; and the options that
/// it refuses.
#[derive(Debug, Drop)]
pub struct Called {
    pub value: Option<Value>,
    pub faults: CallFaults,
}

/// How well a key of a variant matches a value.
#[derive(Clone, Copy, Debug, PartialEq, Eq)]
pub enum Ranked {
    /// It is the value.
    Exact,
    /// It is the value's plural category.
    Keyword,
    /// It doesn't match.
    Never,
    /// It is no key for such a value, and matches nothing.
    BadKey,
}
