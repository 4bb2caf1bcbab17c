ghost use Rattle.std.specs.Prelude.{◌≡◌, IfOk, chars};
ghost use Rattle.mf_lint.specs.Computed.{lint_of};
ghost use Rattle.mf_lint.specs.Lint.{Lints};

use mf_plan::Plan;
use mf_print::print;
use mf_text::Text;
use mf_tree::Faults;
use std::alloc::{AllocError, Global};

/// What there is to say of a source.
#[derive(Debug, Drop)]
pub enum Linted {
    /// The source is valid, and this is the canonical one of its message.
    Valid(Text),
    /// The errors that make it invalid, at least one.
    Invalid(Faults),
}

/// What there is to say of a source. Source: Unicode TS 35, Part 9, "Syntax Errors" and "Data Model
/// Errors"; the choice of a canonical source is this project's own.
/// See DECISIONS 51.
#[tactic(auto, using(crate::proofs::Lints::valid_lints, crate::proofs::Lints::invalid_computed))]
pub fn lint(alloc: Global, source: &str) -> Result<Linted, AllocError>
    ensures lints { IfOk result (λ linted. Lints (chars source.now) linted) }
    ensures computed { IfOk result (λ linted. linted ≡ lint_of (chars source.now)) }
{
    match Plan::of(alloc, source)? {
        Plan::Valid(message) => Ok(Linted::Valid(print(alloc, &message)?)),
        Plan::Invalid(faults) => Ok(Linted::Invalid(faults)),
    }
}
