ghost use Rattle.std.specs.Prelude.{◌≡◌, IfOk};
ghost use Rattle.std.specs.Option.{option_eq};
ghost use Rattle.mf_edition.specs.Handlers.{handler_cmp, identifier_eq, name_eq, namespace_cmp};

use mf_tree::{Identifier, Name};
use mf_value::HandlerDef;
use std::alloc::{AllocError, Global};
use std::cmp::Ordering;
use std::marker::Model;
use std::sync::Arc;

/// A handler: a function of a name that isn't built in.
#[derive(Debug, Drop)]
pub struct Handler {
    pub name: Identifier,
    pub def: HandlerDef,
}

/// Two are equal where their names are spelled alike and they do the same.
impl PartialEq for Handler {
    ghost use Rattle.std.specs.Cmp.{partial_equiv_from_equiv};
    ghost use Rattle.mf_edition.specs.Handlers.{handler_eq, handler_eq_equiv};

    ghost eq = { handler_eq };

    ghost laws = { partial_equiv_from_equiv handler_eq_equiv };

    fn eq(&self, other: &Handler) -> bool {
        same_spelling(&self.name, &other.name) && self.def == other.def
    }
}

impl Eq for Handler {
    ghost use Rattle.mf_edition.specs.Handlers.{handler_eq_equiv};

    ghost laws = { handler_eq_equiv };
}

/// A handler that several owners may share, seen as the handler.
/// See DECISIONS 84.
#[derive(Debug, Drop)]
pub struct SharedHandler {
    handler: Arc<Handler>,
}

impl Model for SharedHandler {
    ghost use Rattle.std.specs.Arc.{arc_value};
    ghost use Rattle.mf_edition.specs.declared.handler.Handler.{Handler};

    ghost Value = { Handler };

    ghost view = { λ s. arc_value s.handler };
}

impl SharedHandler {
    /// The handler, to be shared from now on.
    pub fn new(alloc: Global, owned: Handler) -> Result<SharedHandler, AllocError>
        ensures { IfOk result (λ shared. shared ≡ owned) }
    {
        let handler = Arc::new(alloc, owned)?;
        Ok(SharedHandler { handler })
    }

    /// The handler itself.
    pub fn as_handler(&self) -> &Handler
        ensures { result.now ≡ self.now }
    {
        &self.handler
    }
}

/// One more owner of the same handler, which isn't copied.
impl Clone for SharedHandler {
    ghost is_clone = { λ original copy. copy ≡ original };

    fn clone(&self) -> Result<SharedHandler, AllocError> {
        let handler = self.handler.clone()?;
        Ok(SharedHandler { handler })
    }
}

/// Two are equal where their handlers are, whoever shares them.
impl PartialEq for SharedHandler {
    ghost use Rattle.std.specs.Cmp.{partial_equiv_from_equiv};
    ghost use Rattle.mf_edition.specs.Handlers.{handler_eq, handler_eq_equiv};

    ghost eq = { handler_eq };

    ghost laws = { partial_equiv_from_equiv handler_eq_equiv };

    fn eq(&self, other: &SharedHandler) -> bool {
        self.as_handler() == other.as_handler()
    }
}

impl Eq for SharedHandler {
    ghost use Rattle.mf_edition.specs.Handlers.{handler_eq_equiv};

    ghost laws = { handler_eq_equiv };
}

/// Whether two names of handlers are spelled alike.
fn same_spelling(name: &Identifier, other: &Identifier) -> bool
    ensures { result ≡ identifier_eq name.now other.now }
{
    same_namespaces(&name.namespace, &other.namespace) && name.name.spelled == other.name.spelled
}

/// Whether two namespaces are spelled alike.
fn same_namespaces(namespace: &Option<Name>, other: &Option<Name>) -> bool
    ensures { result ≡ option_eq name_eq namespace.now other.now }
{
    match (namespace, other) {
        (None, None) => true,
        (Some(namespace), Some(other)) => namespace.spelled == other.spelled,
        _ => false,
    }
}

/// How two names of handlers compare: by their namespaces, none standing first, then by what
/// follows.
pub fn compare_names(name: &Identifier, other: &Identifier) -> Ordering
    ensures { result ≡ handler_cmp name.now other.now }
{
    let namespaces = compare_namespaces(&name.namespace, &other.namespace);
    namespaces.then_with(|| name.name.value.cmp(&other.name.value))
}

/// How two namespaces compare.
fn compare_namespaces(namespace: &Option<Name>, other: &Option<Name>) -> Ordering
    ensures { result ≡ namespace_cmp namespace.now other.now }
{
    match (namespace, other) {
        (None, None) => Ordering::Equal,
        (None, Some(_)) => Ordering::Less,
        (Some(_), None) => Ordering::Greater,
        (Some(namespace), Some(other)) => namespace.value.cmp(&other.value),
    }
}
