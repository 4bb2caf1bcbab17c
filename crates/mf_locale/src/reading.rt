//! A locale record read from JSON.

ghost use Rattle.std.specs.Prelude.{◌≡◌, Ok, IfErr, IfOk};
ghost use Rattle.serde_json.specs.View.{view};
ghost use Rattle.mf_locale.specs.RecordReading.{IsDue, record_of};

use crate::error::LocaleError;
use crate::field::RecordField;
use crate::fields::{read_direction, read_plural, read_size, read_symbol, read_version};
use crate::record::LocaleRecord;
use mf_numfmt::Layout;
use serde_json::Value;
use std::alloc::Global;

/// The locale record that a JSON object is.
///
/// It has these fields, and others are passed over: `version`, the number 1; `dir`, which is `ltr`,
/// `rtl` or `unknown`; `decimal`, `minus` and `plus`, texts of 1 to 16 bytes; `group`, a text of at
/// most 16 bytes; `primary`, `secondary` and `minGroup`, whole numbers from 1 to 9; `plural` and
/// `ordinal`, texts of plural rules (Unicode TS 35, Part 3, "Plural rules syntax").
///
/// # Errors
///
/// The fields are looked at in the order `version`, `dir`, `decimal`, `group`, `minus`, `plus`,
/// `primary`, `secondary`, `minGroup`, `plural`, `ordinal`, and the first that is wrong is named:
/// `BadField` where it is missing, of another kind or out of range, and `BadRule` where it is a
/// text with a bad rule. `OutOfMemory`. It is never `BadTag`.
pub fn read_record(alloc: Global, value: &Value) -> Result<LocaleRecord, LocaleError>
    ensures ok { IfOk result (λ r. record_of (view value.now) ≡ Ok r) }
    ensures refused { IfErr result (IsDue (record_of (view value.now))) }
{
    read_version(value)?;
    let dir = read_direction(value)?;
    let decimal = read_symbol(alloc, value, RecordField::Decimal, 1)?;
    let group = read_symbol(alloc, value, RecordField::Group, 0)?;
    let minus = read_symbol(alloc, value, RecordField::Minus, 1)?;
    let plus = read_symbol(alloc, value, RecordField::Plus, 1)?;
    let primary = read_size(value, RecordField::Primary)?;
    let secondary = read_size(value, RecordField::Secondary)?;
    let min_group = read_size(value, RecordField::MinGroup)?;
    let plural = read_plural(alloc, value, RecordField::Plural)?;
    let ordinal = read_plural(alloc, value, RecordField::Ordinal)?;
    let layout = Layout {
        decimal,
        group,
        minus,
        plus,
        primary: primary.digits,
        secondary: secondary.digits,
        min_group: min_group.digits,
    };
    Ok(LocaleRecord {
        dir,
        layout,
        plural,
        ordinal,
    })
}
