//! The fields of a handler, and what they make.
ghost use Rattle.std.specs.Prelude.{◌≡◌, Ok, IfErr, IfOk, chars, option_map};
ghost use Rattle.serde_json.specs.Find.{get};
ghost use Rattle.serde_json.specs.View.{members_view, view};
ghost use Rattle.mf_tree.specs.Names.{named};
ghost use Rattle.mf_wire.specs.HandlerFields as fields;
ghost use Rattle.mf_wire.specs.Requests.{affix_def, alias_def, def_by, def_of, handler_request, named_request, table_def, IsDue};

use crate::Request;
use crate::field::Field;
use crate::fields::{object_field, string_field};
use crate::reading::WireError;
use mf_edition::{Change, Handler, SharedHandler};
use mf_lex::{Cursor, Ident};
use mf_text::{OrderedPairs, Pair, Pairs, Text};
use mf_tree::{Identifier, Name};
use mf_value::{Entries, HandlerDef};
use serde_json::{Map, Value};
use std::alloc::{AllocError, Global};

/// A publication of a handler.
pub(crate) fn handler(alloc: Global, value: &Value) -> Result<Request, WireError>
    ensures request { IfOk result (λ request. handler_request (view value.now) ≡ Ok request) }
    ensures refused { IfErr result (IsDue (handler_request (view value.now))) }
{
    let Some(name) = identifier_field(alloc, value, "name")? else {
        return Err(WireError::BadRequest { field: Field::Name });
    };
    let Some(given) = object_field(value, "def") else {
        return Err(WireError::BadRequest { field: Field::Def });
    };
    named(alloc, name, given)
}

/// A publication of the handler of a name that an object is.
fn named(alloc: Global, name: Identifier, given: &Value) -> Result<Request, WireError>
    ensures request { IfOk result
        (λ request. named_request name (def_of (view given.now)) ≡ Ok request) }
    ensures refused { IfErr result (IsDue (named_request name (def_of (view given.now)))) }
{
    let def = def_of(alloc, given)?;
    let shared = SharedHandler::new(alloc, Handler { name, def })?;
    Ok(Request::Publish(Change::Handler(shared)))
}

/// What the handler that an object is does.
fn def_of(alloc: Global, given: &Value) -> Result<HandlerDef, WireError>
    ensures def { IfOk result (λ def. def_of (view given.now) ≡ Ok def) }
    ensures refused { IfErr result (IsDue (def_of (view given.now))) }
{
    match string_field(given, "kind") {
        Some(kind) => def_by(alloc, kind, given),
        None => Err(WireError::BadRequest { field: Field::Kind }),
    }
}

/// What a handler of this kind does.
fn def_by(alloc: Global, kind: &str, given: &Value) -> Result<HandlerDef, WireError>
    ensures def { IfOk result (λ def. def_by kind.now (view given.now) ≡ Ok def) }
    ensures refused { IfErr result (IsDue (def_by kind.now (view given.now))) }
{
    match kind {
        "alias" => alias(alloc, given),
        "affix" => affix(alloc, given),
        "table" => table(alloc, given),
        _ => Err(WireError::BadRequest { field: Field::Kind }),
    }
}

/// What an alias does.
fn alias(alloc: Global, given: &Value) -> Result<HandlerDef, WireError>
    ensures def { IfOk result (λ def. alias_def (view given.now) ≡ Ok def) }
    ensures refused { IfErr result (IsDue (alias_def (view given.now))) }
{
    let Some(base) = text_field(alloc, given, "base")? else {
        return Err(WireError::BadRequest { field: Field::Base });
    };
    let Some(presets) = presets_field(alloc, given, "options")? else {
        return Err(WireError::BadRequest {
            field: Field::Options,
        });
    };
    Ok(HandlerDef::Alias { base, presets })
}

/// What an affix does.
fn affix(alloc: Global, given: &Value) -> Result<HandlerDef, WireError>
    ensures def { IfOk result (λ def. affix_def (view given.now) ≡ Ok def) }
    ensures refused { IfErr result (IsDue (affix_def (view given.now))) }
{
    let Some(base) = text_field(alloc, given, "base")? else {
        return Err(WireError::BadRequest { field: Field::Base });
    };
    let Some(presets) = presets_field(alloc, given, "options")? else {
        return Err(WireError::BadRequest {
            field: Field::Options,
        });
    };
    let Some(prefix) = text_field(alloc, given, "prefix")? else {
        return Err(WireError::BadRequest {
            field: Field::Prefix,
        });
    };
    let Some(suffix) = text_field(alloc, given, "suffix")? else {
        return Err(WireError::BadRequest {
            field: Field::Suffix,
        });
    };
    Ok(HandlerDef::Affix {
        base,
        presets,
        prefix,
        suffix,
    })
}

/// What a table does.
fn table(alloc: Global, given: &Value) -> Result<HandlerDef, WireError>
    ensures def { IfOk result (λ def. table_def (view given.now) ≡ Ok def) }
    ensures refused { IfErr result (IsDue (table_def (view given.now))) }
{
    let Some(pairs) = texts_field(alloc, given, "entries")? else {
        return Err(WireError::BadRequest {
            field: Field::Entries,
        });
    };
    let Some(default) = default_field(alloc, given, "default")? else {
        return Err(WireError::BadRequest {
            field: Field::Default,
        });
    };
    let entries = Entries::new(alloc, pairs)?;
    Ok(HandlerDef::Table { entries, default })
}

/// A field that is an identifier.
fn identifier_field(
    alloc: Global,
    object: &Value,
    name: &str,
) -> Result<Option<Identifier>, AllocError>
    ensures { IfOk result
        (λ identifier. identifier ≡ fields.identifier_field name.now (view object.now)) }
{
    match string_field(object, name) {
        Some(text) => identifier_in(alloc, text),
        None => Ok(None),
    }
}

/// The identifier that a text spells, if it spells one.
fn identifier_in(alloc: Global, text: &str) -> Result<Option<Identifier>, AllocError>
    ensures { IfOk result (λ identifier. identifier ≡ fields.identifier_in (chars text.now)) }
{
    let mut cursor = Cursor::new(text);
    let Some(ident) = cursor.identifier(alloc)? else {
        return Ok(None);
    };
    match cursor.peek() {
        Some(_) => Ok(None),
        None => Ok(Some(identifier_node(alloc, ident)?)),
    }
}

/// The node of an identifier.
fn identifier_node(alloc: Global, ident: Ident) -> Result<Identifier, AllocError>
    ensures { IfOk result (λ identifier. identifier ≡ fields.identifier_node ident) }
{
    let namespace = namespace_node(alloc, ident.namespace)?;
    let name = Name::new(alloc, ident.name)?;
    Ok(Identifier { namespace, name })
}

/// The node of a namespace, where there is one.
fn namespace_node(alloc: Global, namespace: Option<Text>) -> Result<Option<Name>, AllocError>
    ensures { IfOk result (λ found. found ≡ option_map named namespace) }
{
    match namespace {
        Some(spelled) => Ok(Some(Name::new(alloc, spelled)?)),
        None => Ok(None),
    }
}

/// A field that is a text.
fn text_field(alloc: Global, object: &Value, name: &str) -> Result<Option<Text>, AllocError>
    ensures { IfOk result (λ text. text ≡ fields.text_field name.now (view object.now)) }
{
    match string_field(object, name) {
        Some(text) => Ok(Some(Text::of(alloc, text)?)),
        None => Ok(None),
    }
}

/// The presets of a field: none where it is missing.
fn presets_field(alloc: Global, object: &Value, name: &str) -> Result<Option<Pairs>, AllocError>
    ensures { IfOk result
        (λ presets. presets ≡ fields.presets_of (get name.now (view object.now))) }
{
    match object.get(name) {
        Some(value) => texts(alloc, value),
        None => Ok(Some(Pairs::new(alloc))),
    }
}

/// A field that is an object of texts.
fn texts_field(alloc: Global, object: &Value, name: &str) -> Result<Option<Pairs>, AllocError>
    ensures { IfOk result (λ pairs. pairs ≡ fields.texts_field name.now (view object.now)) }
{
    let Some(value) = object.get(name) else {
        return Ok(None);
    };
    texts(alloc, value)
}

/// The texts of an object.
fn texts(alloc: Global, value: &Value) -> Result<Option<Pairs>, AllocError>
    ensures { IfOk result (λ pairs. pairs ≡ fields.texts_from (view value.now)) }
{
    match value.as_object() {
        Some(members) => ordered(alloc, members),
        None => Ok(None),
    }
}

/// The texts of an object in the byte order of their names: none where one of its values isn't a
/// text.
fn ordered(alloc: Global, members: &Map<String, Value>) -> Result<Option<Pairs>, AllocError>
    ensures { IfOk result
        (λ pairs. pairs ≡ fields.ordered_from (members_view members.now.entries)) }
{
    let mut pairs = OrderedPairs::new(alloc);
    for (name, value) in members {
        let Some(value) = value.as_str() else {
            return Ok(None);
        };
        let name = Text::of(alloc, name.as_str())?;
        let value = Text::of(alloc, value)?;
        pairs.put(Pair { name, value })?;
    }
    Ok(Some(pairs.into_pairs()))
}

/// The default of a field: none where it is missing.
fn default_field(
    alloc: Global,
    object: &Value,
    name: &str,
) -> Result<Option<Option<Text>>, AllocError>
    ensures { IfOk result
        (λ default. default ≡ fields.default_of (get name.now (view object.now))) }
{
    let Some(value) = object.get(name) else {
        return Ok(Some(None));
    };
    match value.as_str() {
        Some(text) => Ok(Some(Some(Text::of(alloc, text)?))),
        None => Ok(None),
    }
}
