ghost use Rattle.std.specs.Prelude.{◌≡◌, ◌↔◌, [], None, Some, chars, length, IfOk, IsTrue, MatchBool, OnErr};
ghost use Rattle.std.specs.Option.{option_copied};
ghost use Rattle.unicode_normalization.specs.Forms.{nfc};
ghost use Rattle.mf_text.specs.Arguments.{argument_named, with_new_argument, AreNormal};

use crate::{Text, nfc};
use std::alloc::{AllocError, Global};
use std::collections::BTreeMap;
use std::marker::Model;

/// The value of an argument: a text, or a whole number.
#[derive(Clone, Debug, PartialEq, Eq, Drop)]
pub enum Argued {
    Text(Text),
    /// A number that 64 bits with a sign hold.
    Signed(i64),
    /// A number that only 64 bits without a sign hold.
    Unsigned(u64),
}

/// The arguments of a request, seen as the list of their names and values in the byte order of the
/// names. The names are in Normalization Form C (Unicode Standard Annex 15), and no two arguments
/// have one name.
#[derive(Debug, Drop)]
pub struct Arguments {
    named: BTreeMap<Text, Argued>,
}

impl Model for Arguments {
    ghost use Rattle.std.specs.Prelude.{ℕ, List};
    ghost use Rattle.mf_text.specs.declared.arguments.Argued.{Argued};

    ghost Value = { List (List ℕ × Argued) };

    ghost use Rattle.mf_text.specs.Arguments.{AreNormal};

    ghost view = { λ a. a.named.entries };

    ghost invariant = { λ a. AreNormal a.named.entries };
}

impl Arguments {
    /// No arguments, which take no memory.
    pub fn new(alloc: Global) -> Arguments
        ensures { result ≡ [] }
    {
        Arguments {
            named: BTreeMap::new(alloc),
        }
    }

    /// The number of arguments.
    pub fn len(&self) -> usize
        ensures { result ≡ length self.now }
    {
        self.named.len()
    }

    /// Whether there is no argument.
    pub fn is_empty(&self) -> bool
        ensures { IsTrue result ↔ (self.now ≡ []) }
    {
        self.named.is_empty()
    }

    /// The value of the argument with a name, if there is one.
    pub fn find(&self, name: &Text) -> Option<&Argued>
        ensures value { option_copied result ≡ argument_named self.now name.now }
        ensures normal { AreNormal self.now }
    {
        self.named.get(name)
    }

    /// Gives a name, taken in Normalization Form C, its value, and answers `true`. Where the name
    /// has a value already nothing is changed, and the answer is `false`.
    pub fn insert(&mut self, alloc: Global, name: &str, value: Argued) -> Result<bool, AllocError>
        ensures ok { IfOk result (λ is_new. MatchBool is_new
            (with_new_argument self.old (nfc (chars name.now)) value ≡ Some self.new)
            ((with_new_argument self.old (nfc (chars name.now)) value ≡ None) × (self.new ≡ self.old))) }
        ensures err { OnErr result (self.new ≡ self.old) }
    {
        let name = nfc(alloc, name)?;
        if self.named.contains_key(&name) {
            return Ok(false);
        }
        self.named.insert(name, value)?;
        Ok(true)
    }
}
