//! Whether a handler may be published.

ghost use Rattle.std.specs.Prelude.{◌≡◌};
ghost use Rattle.mf_meaning.specs.Handlers as handlers;
ghost use Rattle.mf_value.specs.Entries.{repeated_key};
ghost use Rattle.mf_handlers.specs.Sizes.{AreFew, IsFew};

use mf_functions::allows_preset;
use mf_text::Pair;
use mf_tree::{Identifier, Name};
use mf_value::{BuiltIn, DefError, Entries, HandlerDef};

/// Whether a handler is fine, and the first thing that is wrong with it where it isn't: its name
/// has no namespace, or `u` or `own`; its base isn't `string`, `number` or `integer`; a preset
/// isn't an option of the base with a value that is allowed; a table's key has the normal form of
/// an earlier one. It takes no memory.
/// See DECISIONS 123.
pub fn check_def(name: &Identifier, def: &HandlerDef) -> Result<(), DefError>
    requires few { IsFew def.now }
    ensures { result ≡ handlers.checked name.now def.now }
{
    if is_reserved(&name.namespace) {
        return Err(DefError::ReservedName);
    }
    match def {
        HandlerDef::Alias { base, presets } | HandlerDef::Affix { base, presets, .. } => {
            check_base(BuiltIn::named(base.as_str()), presets.as_slice())
        }
        HandlerDef::Table { entries, .. } => check_keys(entries),
    }
}

/// Whether no handler may have a name with this namespace, or without one.
fn is_reserved(namespace: &Option<Name>) -> bool
    ensures { result ≡ handlers.is_reserved namespace.now }
{
    match namespace {
        Some(namespace) => matches!(namespace.value.as_str(), "u" | "own"),
        None => true,
    }
}

/// Whether there is such a base, and allows each preset.
fn check_base(base: Option<BuiltIn>, presets: &[Pair]) -> Result<(), DefError>
    requires few { AreFew presets.now }
    ensures { result ≡ handlers.base_checked base presets.now }
{
    let Some(base) = base else {
        return Err(DefError::BadBase);
    };
    match bad_preset(base, presets) {
        Some(place) => Err(DefError::BadOption {
            index: place as u32,
        }),
        None => Ok(()),
    }
}

/// The place of the first preset that the base doesn't allow.
fn bad_preset(base: BuiltIn, presets: &[Pair]) -> Option<usize>
    ensures { result ≡ handlers.bad_preset base presets.now }
{
    presets
        .iter()
        .position(|preset| !allows_preset(base, preset))
}

/// Whether each key has a normal form of its own.
fn check_keys(entries: &Entries) -> Result<(), DefError>
    requires few { AreFew entries.now }
    ensures { result ≡ handlers.key_checked (repeated_key entries.now) }
{
    match entries.repeated() {
        Some(place) => Err(DefError::RepeatedKey {
            index: place as u32,
        }),
        None => Ok(()),
    }
}
