ghost use Rattle.std.specs.Prelude.{◌≡◌, ◌+◌, [], ◌∷◌, ◌++◌, Some, None, chars, length, encode_utf8_all, MatchOption, slice_get};
ghost use Rattle.mf_lex.specs.Cursor.{Place, EndsWith, passed};

use std::marker::Model;

/// A place in a text, seen as the text's characters and those that are left.
#[derive(Drop)]
pub struct Cursor<'a> {
    text: &'a str,
    rest: &'a str,
}

impl<'a> Model for Cursor<'a> {
    ghost use Rattle.std.specs.Prelude.{chars};
    ghost use Rattle.std.specs.Str.{IsUtf8};
    ghost use Rattle.mf_lex.specs.Cursor.{Place, EndsWith};

    ghost Value = { Place };

    ghost view = { λ c. record { whole = chars c.text.now; left = chars c.rest.now } };

    ghost invariant = { λ c. record {
      text : IsUtf8 c.text.now;
      rest : IsUtf8 c.rest.now;
      behind : EndsWith c.text.now c.rest.now;
    } };
}

impl<'a> Cursor<'a> {
    /// The start of a text.
    pub fn new(text: &'a str) -> Cursor<'a>
        ensures { result ≡ record { whole = chars text.now; left = chars text.now } }
    {
        Cursor { text, rest: text }
    }

    /// The number of bytes that were passed.
    pub fn at(&self) -> usize
        ensures bytes { result ≡ length (encode_utf8_all (passed self.now)) }
        ensures split { self.now.whole ≡ passed self.now ++ self.now.left }
    {
        self.text.len() - self.rest.len()
    }

    /// The text that is left.
    pub fn rest(&self) -> &'a str
        ensures { chars result.now ≡ self.now.left }
    {
        self.rest
    }

    /// The same place, to which one can go back by an assignment.
    pub fn save(&self) -> Cursor<'a>
        ensures { result ≡ self.now }
    {
        Cursor {
            text: self.text,
            rest: self.rest,
        }
    }

    /// The next character, which is not passed.
    pub fn peek(&self) -> Option<char>
        ensures { result ≡ slice_get self.now.left 0 }
    {
        self.rest.chars().next()
    }

    /// Passes the next character, whatever it is.
    pub fn next(&mut self) -> Option<char>
        ensures passed { MatchOption result ((self.old.left ≡ []) × (self.new ≡ self.old))
            (λ c. self.old.left ≡ c ∷ self.new.left) }
        ensures whole { self.new.whole ≡ self.old.whole }
    {
        let mut chars = self.rest.chars();
        let next = chars.next()?;
        self.rest = chars.as_str();
        Some(next)
    }
}
