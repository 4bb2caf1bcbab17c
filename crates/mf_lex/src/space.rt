//! White space and marks.
ghost use Rattle.std.specs.Prelude.{◌≡◌, MatchBool};
ghost use Rattle.mf_lex.specs.Computed.{after_space, has_space};

use crate::Cursor;
use crate::class::Class;
use crate::run::{pass, pass_run};

/// Passes white space and marks, as many as there are.
#[tactic(auto, unfolding(crate::specs::Computed::after_space))]
pub fn pass_space(cursor: &mut Cursor)
    ensures computed { cursor.new.left ≡ after_space cursor.old.left }
    ensures whole { cursor.new.whole ≡ cursor.old.whole }
{
    pass_run(cursor, Class::Space);
}

/// Passes white space and marks, if a white space stands behind the marks at the front.
#[tactic(auto, unfolding(crate::specs::Computed::after_space, crate::specs::Computed::has_space))]
pub fn pass_needed_space(cursor: &mut Cursor) -> bool
    ensures computed { result ≡ has_space cursor.old.left }
    ensures passed { MatchBool result (cursor.new.left ≡ after_space cursor.old.left)
        (cursor.new ≡ cursor.old) }
    ensures whole { cursor.new.whole ≡ cursor.old.whole }
{
    let mut behind = cursor.save();
    pass_run(&mut behind, Class::Mark);
    if !pass(&mut behind, Class::White) {
        return false;
    }
    pass_run(cursor, Class::Space);
    true
}
