ghost use Rattle.std.specs.Prelude.{◌≡◌, ◌==◌, [], ◌∷◌, ◌++◌, IfOk, OnErr, OnOk, chars, string_bytes, encode_utf8_all};

use std::alloc::{AllocError, Global};
use std::cmp::Ordering;
use std::marker::Model;

/// A text, seen as the list of its characters (Unicode scalar values).
#[derive(Debug, Drop)]
pub struct Text {
    text: String,
}

impl Model for Text {
    ghost use Rattle.std.specs.Prelude.{ℕ, List, chars, string_bytes};

    ghost Value = { List ℕ };

    ghost view = { λ t. chars (string_bytes t.text) };
}

impl Text {
    /// A text of no characters, which takes no memory.
    pub fn new(alloc: Global) -> Text
        ensures { result ≡ [] }
    {
        Text {
            text: String::new(alloc),
        }
    }

    /// Puts a character at the end.
    pub fn push(&mut self, c: char) -> Result<(), AllocError>
        ensures ok { OnOk result (self.new ≡ self.old ++ c ∷ []) }
        ensures err { OnErr result (self.new ≡ self.old) }
    {
        self.text.push(c)
    }

    /// Puts a text at the end.
    pub fn push_str(&mut self, text: &str) -> Result<(), AllocError>
        ensures ok { OnOk result (self.new ≡ self.old ++ chars text.now) }
        ensures err { OnErr result (self.new ≡ self.old) }
    {
        self.text.push_str(text)
    }

    /// A text of its own with these characters.
    pub fn of(alloc: Global, text: &str) -> Result<Text, AllocError>
        ensures { IfOk result (λ t. t ≡ chars text.now) }
    {
        let text = String::from_str(alloc, text)?;
        Ok(Text { text })
    }

    /// The characters, as a borrowed text.
    pub fn as_str(&self) -> &str
        ensures characters { chars result.now ≡ self.now }
        ensures bytes { result.now ≡ encode_utf8_all self.now }
    {
        self.text.as_str()
    }

    /// The characters, as an owned text of the standard library.
    pub fn into_string(self) -> String
        ensures { chars (string_bytes result) ≡ self }
    {
        self.text
    }
}

impl PartialEq for Text {
    ghost use Rattle.std.proofs.Common.{rules};
    ghost use Rattle.std.specs.Cmp.Lexicographic.{pointwise};
    ghost use Rattle.std.specs.Cmp.Rules.{comparing};

    ghost eq = { pointwise ◌==◌ };

    ghost laws = { Prim.search (comparing, rules) };

    fn eq(&self, other: &Text) -> bool {
        self.text == other.text
    }
}

impl Eq for Text {
    ghost use Rattle.std.proofs.Common.{rules};
    ghost use Rattle.std.specs.Cmp.Rules.{comparing};

    ghost laws = { Prim.search (comparing, rules) };
}

/// The byte order of the texts' UTF-8, which is also the order of their code points.
impl Ord for Text {
    ghost use Rattle.mf_text.specs.Order.{byte_cmp, byte_cmp_total, byte_cmp_ties};
    ghost use Rattle.std.specs.Prelude.{refl};

    ghost cmp = { byte_cmp };

    ghost total = { byte_cmp_total };

    ghost matches_partial_cmp = { λ a b. refl };

    ghost matches_eq = { byte_cmp_ties };

    fn cmp(&self, other: &Text) -> Ordering {
        self.text.cmp(&other.text)
    }
}

impl PartialOrd for Text {
    ghost use Rattle.mf_text.specs.Order.{byte_cmp, byte_cmp_total, byte_cmp_ties};
    ghost use Rattle.std.specs.Cmp.{po};
    ghost use Rattle.std.specs.Prelude.{Some};

    ghost partial_cmp = { λ a b. Some (byte_cmp a b) };

    ghost laws = { po byte_cmp_total byte_cmp_ties };

    fn partial_cmp(&self, other: &Text) -> Option<Ordering> {
        Some(self.cmp(other))
    }
}

impl From<String> for Text {
    ghost use Rattle.std.specs.Prelude.{string_bytes};

    ghost from_gives = { λ s t. t ≡ chars (string_bytes s) };

    fn from(text: String) -> Text {
        Text { text }
    }
}

impl Clone for Text {
    ghost is_clone = { λ s t. t ≡ s };

    fn clone(&self) -> Result<Text, AllocError> {
        let text = self.text.clone()?;
        Ok(Text { text })
    }
}
