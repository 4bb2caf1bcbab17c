//! The readers of the rules: each passes the longest text of its rule, and nothing where none
//! begins.
ghost use Rattle.std.specs.Prelude.{◌≡◌, ◌<◌, ◌≤◌, length, [], ◌∷◌, Some, None, true, false, chars, MatchBool, IfOk, OnErr};
ghost use Rattle.mf_text.specs.Characters.{is_text};
ghost use Rattle.mf_text.specs.Languages.{Word};
ghost use Rattle.mf_text.specs.Grammar.{O, S, SpellsEscapedChar, SpellsName, SpellsLiteral};
ghost use Rattle.mf_lex.specs.Readers.{Finds, Reads, Passes, Shortens, SpellsIdent};
ghost use Rattle.mf_lex.specs.Computed.{is_next, run, behind_run, one_at, escape_at, after_space, has_space, name_at, identifier_at, literal_at};

use crate::class::Class;
use crate::escape::{pass_escape, pass_one};
use crate::literal::read_literal;
use crate::name::{read_identifier, read_name};
use crate::run::take_run;
use crate::space::{pass_needed_space, pass_space};
use crate::{Cursor, Ident};
use mf_text::Text;
use std::alloc::{AllocError, Global};

impl<'a> Cursor<'a> {
    /// Passes this character, if it is the next one.
    pub fn one(&mut self, c: char) -> bool
        ensures longest { Passes (Word (c ∷ [])) result self.old.left self.new.left }
        ensures passed { MatchBool result (self.old.left ≡ c ∷ self.new.left)
            (self.new ≡ self.old) }
        ensures computed { MatchBool result (one_at c self.old.left ≡ Some self.new.left)
            (one_at c self.old.left ≡ None) }
        ensures whole { self.new.whole ≡ self.old.whole }
    {
        pass_one(self, c)
    }

    /// Passes white space and marks, as many as there are (`o`).
    pub fn o(&mut self)
        ensures longest { Passes O true self.old.left self.new.left }
        ensures computed { self.new.left ≡ after_space self.old.left }
        ensures no_longer { length self.new.left ≤ length self.old.left }
        ensures whole { self.new.whole ≡ self.old.whole }
    {
        pass_space(self);
    }

    /// Passes white space and marks, if a white space stands behind the marks at the front (`s`).
    pub fn s(&mut self) -> bool
        ensures longest { Passes S result self.old.left self.new.left }
        ensures computed { result ≡ has_space self.old.left }
        ensures passed { MatchBool result (self.new.left ≡ after_space self.old.left)
            (self.new ≡ self.old) }
        ensures shorter { MatchBool result (length self.new.left < length self.old.left)
            (length self.new.left ≤ length self.old.left) }
        ensures whole { self.new.whole ≡ self.old.whole }
    {
        pass_needed_space(self)
    }

    /// Passes the characters of a text that stand for themselves, as many as there are, and gives
    /// them (`text-char`).
    pub fn text_run(&mut self) -> &'a str
        ensures taken { chars result.now ≡ run is_text self.old.left }
        ensures computed { self.new.left ≡ behind_run is_text self.old.left }
        ensures longest { is_next is_text self.new.left ≡ false }
        ensures no_longer { length self.new.left ≤ length self.old.left }
        ensures whole { self.new.whole ≡ self.old.whole }
    {
        take_run(self, Class::Text)
    }

    /// Passes a backslash and one of the characters that it may stand before, which is given
    /// (`escaped-char`).
    pub fn escape(&mut self) -> Option<char>
        ensures longest { Reads SpellsEscapedChar result self.old.left self.new.left }
        ensures computed { Finds escape_at result self.old.left self.new.left }
        ensures shorter { Shortens result self.old.left self.new.left }
        ensures whole { self.new.whole ≡ self.old.whole }
    {
        pass_escape(self)
    }

    /// Passes a name, with the one mark that may stand before it and the one behind it, which it is
    /// given without (`name`).
    ///
    /// # Errors
    ///
    /// Want of memory alone, at which the cursor stays where it was.
    pub fn name(&mut self, alloc: Global) -> Result<Option<Text>, AllocError>
        ensures longest { IfOk result (λ found.
            Reads SpellsName found self.old.left self.new.left) }
        ensures computed { IfOk result (λ found. Finds name_at found self.old.left self.new.left) }
        ensures shorter { IfOk result (λ found. Shortens found self.old.left self.new.left) }
        ensures unchanged { OnErr result (self.new ≡ self.old) }
        ensures whole { self.new.whole ≡ self.old.whole }
    {
        read_name(alloc, self)
    }

    /// Passes an identifier: a name, or two with a colon between them (`identifier`).
    ///
    /// # Errors
    ///
    /// Want of memory alone, at which the cursor stays where it was.
    pub fn identifier(&mut self, alloc: Global) -> Result<Option<Ident>, AllocError>
        ensures longest { IfOk result (λ found.
            Reads SpellsIdent found self.old.left self.new.left) }
        ensures computed { IfOk result (λ found.
            Finds identifier_at found self.old.left self.new.left) }
        ensures shorter { IfOk result (λ found. Shortens found self.old.left self.new.left) }
        ensures unchanged { OnErr result (self.new ≡ self.old) }
        ensures whole { self.new.whole ≡ self.old.whole }
    {
        read_identifier(alloc, self)
    }

    /// Passes a literal, whose value is given: without the bars, and with the escapes replaced
    /// (`literal`).
    ///
    /// # Errors
    ///
    /// Want of memory alone, at which the cursor stays where it was.
    pub fn literal(&mut self, alloc: Global) -> Result<Option<Text>, AllocError>
        ensures longest { IfOk result (λ found.
            Reads SpellsLiteral found self.old.left self.new.left) }
        ensures computed { IfOk result (λ found.
            Finds literal_at found self.old.left self.new.left) }
        ensures shorter { IfOk result (λ found. Shortens found self.old.left self.new.left) }
        ensures unchanged { OnErr result (self.new ≡ self.old) }
        ensures whole { self.new.whole ≡ self.old.whole }
    {
        read_literal(alloc, self)
    }
}
