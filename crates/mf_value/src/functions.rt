//! A set of functions.

ghost use Rattle.std.specs.Prelude.{◌≡◌, ◌<◌, ◌^◌, length, IsTrue, IfOk};
ghost use Rattle.std.specs.Option.{option_copied};
ghost use Rattle.mf_value.specs.Meaning.{Meaning, IsNoFallback};

use crate::called::{Called, Ranked};
use crate::given::Options;
use crate::value::Value;
use mf_text::{Direction, Text};
use mf_tree::Identifier;
use std::alloc::{AllocError, Global};

/// The functions that a message may call, and how their values select.
///
/// `meaning` says what they are: whatever is formatted with them hangs on that alone.
pub trait Functions {
    ghost meaning: { Self → Meaning };

    /// The direction of a number that is an argument.
    fn direction(&self) -> Direction
        ensures { result ≡ (meaning self.now).direction };

    /// Whether there is a function with this name.
    fn known(&self, name: &Identifier) -> bool
        ensures { result ≡ (meaning self.now).known name.now };

    /// What the function gives for its operand, if there is one, and its options.
    fn call(
        &self,
        alloc: Global,
        name: &Identifier,
        operand: Option<&Value>,
        options: &Options,
    ) -> Result<Called, AllocError>
        requires known { IsTrue ((meaning self.now).known name.now) }
        requires no_fallback { IsNoFallback (option_copied operand) }
        requires few { length options.now < 2 ^ 32 }
        ensures { IfOk result (λ called. called ≡ (meaning self.now).called name.now (option_copied operand.entry) options.now) };

    /// How well a key matches a value.
    fn rank(&self, alloc: Global, value: &Value, key: &Text) -> Result<Ranked, AllocError>
        ensures { IfOk result (λ ranked. ranked ≡ (meaning self.now).rank value.now key.now) };
}
