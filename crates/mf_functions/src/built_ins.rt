//! The built-in functions as a set of functions.

ghost use Rattle.std.specs.Prelude.{◌≡◌, ◌<◌, ◌^◌};
ghost use Rattle.std.specs.Option.{option_copied};
ghost use Rattle.mf_meaning.specs.Functions as functions;
ghost use Rattle.mf_meaning.specs.Ranks.{built_ins};
ghost use Rattle.mf_value.specs.Meaning.{IsNoFallback};

use crate::base::base_called;
use crate::selecting::select_rank;
use mf_locale::LocaleRecord;
use mf_text::{Direction, Text};
use mf_tree::Identifier;
use mf_value::{BuiltIn, Called, Functions, Options, Ranked, Value};
use std::alloc::{AllocError, Global};

/// The functions of an edition without handlers, with the numbers of a locale: `:string`, `:number`
/// and `:integer`.
#[derive(Clone, Copy)]
pub struct BuiltIns<'a> {
    pub place: &'a LocaleRecord,
}

impl<'a> BuiltIns<'a> {
    /// Those with the numbers of this locale.
    pub fn new(place: &'a LocaleRecord) -> BuiltIns<'a>
        ensures { result.place.now ≡ place.entry.now }
    {
        BuiltIns { place }
    }
}

/// The built-in function with this name, which has no namespace.
fn built_in(identifier: &Identifier) -> Option<BuiltIn>
    ensures { result ≡ functions.built_in identifier.now }
{
    if identifier.namespace.is_some() {
        return None;
    }
    BuiltIn::named(identifier.name.value.as_str())
}

impl<'a> Functions for BuiltIns<'a> {
    ghost meaning = { λ f. built_ins f.place.now };

    fn direction(&self) -> Direction {
        self.place.dir
    }

    fn known(&self, name: &Identifier) -> bool {
        built_in(name).is_some()
    }

    fn call(
        &self,
        alloc: Global,
        name: &Identifier,
        operand: Option<&Value>,
        options: &Options,
    ) -> Result<Called, AllocError> {
        base_called(alloc, self.place, built_in(name), &[], operand, options)
    }

    fn rank(&self, alloc: Global, value: &Value, key: &Text) -> Result<Ranked, AllocError> {
        select_rank(alloc, self.place, value, key)
    }
}
