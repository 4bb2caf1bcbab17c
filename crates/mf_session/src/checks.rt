//! Whether a change may be published, whatever the log has.
ghost use Rattle.std.specs.Prelude.{◌≡◌, IfOk, IsTrue};
ghost use Rattle.mf_handlers.specs.Sizes.{IsFew};
ghost use Rattle.mf_transcript.specs.Asked as asked;

use mf_edition::{Change, Handler};
use mf_handlers::check_def;
use mf_value::{DefError, HandlerDef};
use mf_wire::Reason;
use std::alloc::AllocError;

/// The most presets or entries that a handler may have.
const MOST: usize = 0xFFFF_FFFF;

/// Why a change may not be published, if it may not: a handler alone is checked. For one that has
/// 2^32 presets or entries or more, which no line has, there is no memory.
pub fn reason_against(change: &Change) -> Result<Option<Reason>, AllocError>
    ensures { IfOk result (λ reason. reason ≡ asked.reason_against change.now) }
{
    match change {
        Change::Catalogue(_) | Change::Locale { .. } => Ok(None),
        Change::Handler(shared) => reason_against_handler(shared.as_handler()),
    }
}

/// Why a handler may not be published, if it may not.
fn reason_against_handler(handler: &Handler) -> Result<Option<Reason>, AllocError>
    ensures { IfOk result (λ reason. reason ≡ asked.reason_against_handler handler.now) }
{
    if !is_few(&handler.def) {
        return Err(AllocError);
    }
    match check_def(&handler.name, &handler.def) {
        Ok(()) => Ok(None),
        Err(error) => Ok(Some(reason_of(error))),
    }
}

/// Whether the places of presets and entries have 32 bits.
fn is_few(def: &HandlerDef) -> bool
    ensures { IsTrue result → IsFew def.now }
{
    match def {
        HandlerDef::Alias { presets, .. } | HandlerDef::Affix { presets, .. } => {
            presets.len() <= MOST
        }
        HandlerDef::Table { entries, .. } => entries.as_slice().len() <= MOST,
    }
}

/// What is wrong with a handler, in one word.
fn reason_of(error: DefError) -> Reason
    ensures { result ≡ asked.reason_of error }
{
    match error {
        DefError::ReservedName => Reason::ReservedName,
        DefError::BadBase => Reason::BadBase,
        DefError::BadOption { .. } => Reason::BadOption,
        DefError::RepeatedKey { .. } => Reason::RepeatedKey,
    }
}
