//! The reply to a source that is linted.
ghost use Rattle.std.specs.Prelude.{IfOk, chars};
ghost use Rattle.mf_transcript.specs.Replies.{IsLintReply};

use mf_lint::{Linted, lint};
use mf_wire::Reply;
use std::alloc::{AllocError, Global};

/// The reply to a source that is linted: its canonical form, or the errors that make it invalid.
pub fn lint_reply(alloc: Global, source: &str) -> Result<Reply, AllocError>
    ensures { IfOk result (λ reply. IsLintReply (chars source.now) reply) }
{
    match lint(alloc, source)? {
        Linted::Valid(source) => Ok(Reply::LintValid { source }),
        Linted::Invalid(faults) => Ok(Reply::LintInvalid { faults }),
    }
}
