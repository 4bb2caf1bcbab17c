//! The functions that a message of an edition may call.
ghost use Rattle.std.specs.Prelude.{◌≡◌};
ghost use Rattle.mf_answer.specs.Answers.{functions_of};

use mf_edition::Edition;
use mf_functions::{BuiltIns, select_rank};
use mf_handlers::call_handler;
use mf_locale::LocaleRecord;
use mf_text::{Direction, Text};
use mf_tree::Identifier;
use mf_value::{Called, Functions, Options, Ranked, Value};
use std::alloc::{AllocError, Global};

/// The built-in functions and the handlers of an edition, with the numbers of a locale record.
#[derive(Clone, Copy)]
pub struct EditionFunctions<'a> {
    pub edition: &'a Edition,
    pub record: &'a LocaleRecord,
}

impl<'a> EditionFunctions<'a> {
    /// The built-in functions alone.
    fn built_ins(&self) -> BuiltIns<'a>
        ensures { result.place.now ≡ self.now.«record».now }
    {
        BuiltIns::new(self.record)
    }
}

impl<'a> Functions for EditionFunctions<'a> {
    ghost meaning = { λ f. functions_of f.edition.now f.«record».now };

    fn direction(&self) -> Direction {
        self.record.dir
    }

    fn known(&self, name: &Identifier) -> bool {
        self.built_ins().known(name) || self.edition.handler(name).is_some()
    }

    fn call(
        &self,
        alloc: Global,
        name: &Identifier,
        operand: Option<&Value>,
        options: &Options,
    ) -> Result<Called, AllocError> {
        let built_ins = self.built_ins();
        if built_ins.known(name) {
            return built_ins.call(alloc, name, operand, options);
        }
        match self.edition.handler(name) {
            Some(def) => call_handler(alloc, self.record, def, operand, options),
            None => unreachable!(),
        }
    }

    fn rank(&self, alloc: Global, value: &Value, key: &Text) -> Result<Ranked, AllocError> {
        select_rank(alloc, self.record, value, key)
    }
}
