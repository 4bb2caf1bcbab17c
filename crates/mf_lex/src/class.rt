ghost use Rattle.std.specs.Prelude.{◌≡◌};
ghost use Rattle.mf_lex.specs.Classes.{holds};

use mf_text::{is_bidi, is_name_char, is_quoted, is_text, is_ws};

/// A class of characters of which readers pass a run.
#[derive(Clone, Copy)]
pub enum Class {
    /// `ws`
    White,
    /// `ws / bidi`
    Space,
    /// `bidi`
    Mark,
    /// `name-char`
    NameChar,
    /// `quoted-char`
    Quoted,
    /// `text-char`
    Text,
}

impl Class {
    /// Whether a character is of the class.
    pub fn has(self, c: char) -> bool
        ensures { result ≡ holds self c }
    {
        match self {
            Class::White => is_ws(c),
            Class::Space => is_ws(c) || is_bidi(c),
            Class::Mark => is_bidi(c),
            Class::NameChar => is_name_char(c),
            Class::Quoted => is_quoted(c),
            Class::Text => is_text(c),
        }
    }
}
