use crate::name::{Identifier, Name};
use mf_text::{List, Text};

/// What an expression is about.
#[derive(Debug, Drop)]
pub enum Operand {
    /// Nothing: the expression is a function alone.
    Absent,
    /// The characters of a literal, whether it was quoted or not.
    Literal(Text),
    Variable(Name),
}

/// An expression: an operand, a function, or both.
#[derive(Debug, Drop)]
pub struct Expression {
    pub operand: Operand,
    pub function: Option<Call>,
    pub attributes: Attributes,
}

/// A function with its options, in the order of the source.
#[derive(Debug, Drop)]
pub struct Call {
    pub name: Identifier,
    pub options: OptionNodes,
}

/// The value that an option is given.
#[derive(Debug, Drop)]
pub enum OptionValue {
    Literal(Text),
    Variable(Name),
}

/// An option with its value.
#[derive(Debug, Drop)]
pub struct OptionNode {
    pub name: Identifier,
    pub value: OptionValue,
}

/// Options in the order of the source.
pub type OptionNodes = List<OptionNode>;

/// An attribute, which has no effect on what is formatted, with its literal if it has one.
#[derive(Debug, Drop)]
pub struct Attribute {
    pub name: Identifier,
    pub value: Option<Text>,
}

/// Attributes in the order of the source.
pub type Attributes = List<Attribute>;
