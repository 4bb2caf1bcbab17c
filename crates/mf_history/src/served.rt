//! The messages of an edition that a caller was answered from.
ghost use Rattle.std.specs.Prelude.{ℕ, List, ◌<◌, ◌++◌, [], ◌∷◌, OnOk};
ghost use Rattle.mf_history.specs.Served.{IsServed};

use std::alloc::AllocError;
use std::collections::BTreeSet;

/// Puts the index of a message in.
pub(crate) fn serve(served: &mut BTreeSet<u32>, index: u32) -> Result<(), AllocError>
    ensures { (indexes : List ℕ) (items : ℕ) → IsServed served.old indexes items → index < items
        → OnOk result (IsServed served.new (indexes ++ index ∷ []) items) }
{
    served.insert(index)?;
    Ok(())
}
