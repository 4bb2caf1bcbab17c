ghost use Rattle.std.specs.Prelude.{◌≡◌};
ghost use Rattle.unicode_normalization.specs.Forms.{nfc};

use mf_text::{List, Text};

/// A name: of a variable, a function, an option, an attribute or markup, or of a namespace.
#[derive(Debug, Drop)]
pub struct Name {
    /// As it is written, without marks of direction.
    pub spelled: Text,
    /// The same in Normalization Form C, by which names are compared.
    pub value: Text,
    ghost in_nfc: { value ≡ nfc spelled },
}

/// A list of names.
pub type Names = List<Name>;

/// A name that may stand in a namespace.
#[derive(Debug, Drop)]
pub struct Identifier {
    pub namespace: Option<Name>,
    pub name: Name,
}
