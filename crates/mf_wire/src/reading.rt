ghost use Rattle.std.specs.Prelude.{◌≡◌, IfOk, option_map};
ghost use Rattle.serde_json.specs.View.{view};
ghost use Rattle.mf_wire.specs.Reading.{reading};

use crate::field::Field;
use mf_locale::RecordField;
use serde_json::Value;
use std::alloc::{AllocError, Global};
use thiserror::Error;

/// Why a line is no request.
#[derive(Clone, Copy, Debug, PartialEq, Eq, Error)]
pub enum WireError {
    /// The line is no JSON: it isn't UTF-8, breaks the grammar, has a number past the floats, or
    /// nests more than 127 arrays and objects.
    #[error("the line is no JSON")]
    BadJson,
    /// This field is the first that is missing, of another kind or out of range.
    #[error("the field {} is missing or wrong", field.as_str())]
    BadRequest {
        field: Field,
    },
    /// This field of the locale record is the first that is missing, of another kind or out of
    /// range, or has this rule as its first bad one, counted from 1.
    #[error("the field {} of the locale record is missing or wrong", field.as_str())]
    BadLocale {
        field: RecordField,
        rule: Option<u32>,
    },
    /// There was no memory for the value of the line.
    #[error("out of memory")]
    OutOfMemory,
}

impl From<AllocError> for WireError {
    ghost use Rattle.std.specs.Prelude.{◌≡◌};
    ghost use Rattle.mf_wire.specs.declared.reading.WireError.TheVariants.{OutOfMemory};

    ghost from_gives = { λ _ e. e ≡ OutOfMemory };

    fn from(_: AllocError) -> WireError {
        WireError::OutOfMemory
    }
}

/// The JSON value of a line, or none where the line is no JSON.
pub(crate) fn read_value(alloc: Global, line: &[u8]) -> Result<Option<Value>, AllocError>
    ensures { IfOk result (λ value. option_map view value ≡ reading line.now) }
{
    let Ok(text) = str::from_utf8(line) else {
        return Ok(None);
    };
    match Value::from_str(alloc, text) {
        Ok(value) => Ok(Some(value)),
        Err(error) if error.is_memory() => Err(AllocError),
        Err(_) => Ok(None),
    }
}
