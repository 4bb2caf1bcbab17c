use crate::Text;

/// A name with its value.
#[derive(Clone, Debug, PartialEq, Eq, Drop)]
pub struct Pair {
    pub name: Text,
    pub value: Text,
}
