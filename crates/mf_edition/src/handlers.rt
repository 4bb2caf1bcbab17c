ghost use Rattle.std.specs.Prelude.{◌≡◌, [], MatchResult, OnErr, OnOk};
ghost use Rattle.std.specs.Option.{option_copied};
ghost use Rattle.mf_edition.specs.Handlers.{handler_of, put_handler, AreInNameOrder, IsHandlerAt, IsHandlerGap};

use crate::SharedHandler;
use crate::handler::compare_names;
use mf_tree::Identifier;
use mf_value::HandlerDef;
use std::alloc::{AllocError, Global};
use std::marker::Model;

/// Handlers, seen as their list in the order of their names.
#[derive(Debug, Drop)]
pub struct Handlers {
    by_name: Vec<SharedHandler>,
}

impl Model for Handlers {
    ghost use Rattle.std.specs.Prelude.{List};
    ghost use Rattle.mf_edition.specs.Handlers.{AreInNameOrder};
    ghost use Rattle.mf_edition.specs.declared.handler.Handler.{Handler};

    ghost Value = { List Handler };

    ghost view = { λ h. h.by_name.items };

    ghost invariant = { λ h. AreInNameOrder h.by_name.items };
}

/// The same handlers under the same names; no handler is copied.
impl Clone for Handlers {
    ghost is_clone = { λ original copy. copy ≡ original };

    fn clone(&self) -> Result<Handlers, AllocError> {
        let by_name = self.by_name.clone()?;
        Ok(Handlers { by_name })
    }
}

impl Handlers {
    /// No handlers, which take no memory.
    pub fn new(alloc: Global) -> Handlers
        ensures { result ≡ [] }
    {
        Handlers {
            by_name: Vec::new(alloc),
        }
    }

    /// Puts a handler in, in place of the one that its name has. After an error all is as it was.
    pub fn put_handler(&mut self, shared: &SharedHandler) -> Result<(), AllocError>
        ensures ok { OnOk result (self.new ≡ put_handler self.old shared.now) }
        ensures err { OnErr result (self.new ≡ self.old) }
    {
        let new = shared.clone()?;
        match search(&self.by_name, &new.as_handler().name) {
            Ok(at) => self.by_name[at] = new,
            Err(at) => self.by_name.insert(at, new)?,
        }
        Ok(())
    }

    /// What the handler of a name does, if there is one.
    pub fn handler_of(&self, name: &Identifier) -> Option<&HandlerDef>
        ensures { option_copied result ≡ handler_of self.now name.now }
    {
        match search(&self.by_name, name) {
            Ok(at) => Some(&self.by_name[at].as_handler().def),
            Err(_) => None,
        }
    }
}

/// Where the handler of a name stands, or where it would have to stand.
fn search(handlers: &[SharedHandler], name: &Identifier) -> Result<usize, usize>
    requires { AreInNameOrder handlers.now }
    ensures { MatchResult result (λ at. IsHandlerAt handlers.now name.now at)
        (λ at. IsHandlerGap handlers.now name.now at) }
{
    handlers.binary_search_by(|handler| compare_names(&handler.as_handler().name, name))
}
