ghost use Rattle.std.specs.Prelude.{◌≡◌};
ghost use Rattle.mf_tree.specs.Kinds.{class_of};

use mf_text::{List, Text};

/// The class of an error: of the source, of its resolution, or of its selection. Source: Unicode TS
/// 35, Part 9, "Errors"; the names and their number are this project's own.
#[derive(Clone, Copy, Debug, PartialEq, Eq)]
pub enum Kind {
    Syntax,
    Limit,
    VariantKeyMismatch,
    MissingFallbackVariant,
    MissingSelectorAnnotation,
    DuplicateDeclaration,
    DuplicateOptionName,
    DuplicateVariant,
    UnresolvedVariable,
    UnknownFunction,
    BadSelector,
    BadOperand,
    BadOption,
    BadVariantKey,
}

impl Kind {
    /// The class's name in a reply.
    pub fn as_str(self) -> &'static str
        ensures { result.now ≡ class_of self }
    {
        match self {
            Kind::Syntax => "syntax-error",
            Kind::Limit => "limit",
            Kind::VariantKeyMismatch => "variant-key-mismatch",
            Kind::MissingFallbackVariant => "missing-fallback-variant",
            Kind::MissingSelectorAnnotation => "missing-selector-annotation",
            Kind::DuplicateDeclaration => "duplicate-declaration",
            Kind::DuplicateOptionName => "duplicate-option-name",
            Kind::DuplicateVariant => "duplicate-variant",
            Kind::UnresolvedVariable => "unresolved-variable",
            Kind::UnknownFunction => "unknown-function",
            Kind::BadSelector => "bad-selector",
            Kind::BadOperand => "bad-operand",
            Kind::BadOption => "bad-option",
            Kind::BadVariantKey => "bad-variant-key",
        }
    }
}

/// An error of a message.
#[derive(Debug, Drop)]
pub struct Fault {
    pub kind: Kind,
    /// What it is about: `$name`, an identifier, a fallback source, a key, a variant's number from
    /// 1, or nothing.
    pub of: Text,
}

/// Errors in the order in which they arose.
pub type Faults = List<Fault>;
