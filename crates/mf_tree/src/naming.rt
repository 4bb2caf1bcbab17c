ghost use Rattle.std.specs.Prelude.{◌≡◌, IfOk};
ghost use Rattle.mf_tree.specs.Names.{named};

use crate::name::Name;
use mf_text::{Text, nfc};
use std::alloc::{AllocError, Global};

impl Name {
    /// The name that is spelled so.
    pub fn new(alloc: Global, spelled: Text) -> Result<Name, AllocError>
        ensures { IfOk result (λ name. name ≡ named spelled) }
    {
        let value = nfc(alloc, spelled.as_str())?;
        Ok(Name { spelled, value })
    }
}

impl Clone for Name {
    ghost is_clone = { λ name copy. copy ≡ name };

    fn clone(&self) -> Result<Name, AllocError> {
        let spelled = self.spelled.clone()?;
        Ok(Name {
            spelled,
            value: self.value.clone()?,
        })
    }
}
