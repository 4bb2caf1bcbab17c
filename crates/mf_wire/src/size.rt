ghost use Rattle.std.specs.Prelude.{◌≡◌, ◌+◌};
ghost use Rattle.serde_json.specs.View.{view};
ghost use Rattle.mf_edition.specs.Sizes.{shown};
ghost use Rattle.mf_wire.specs.RecordSizes as sizes;

use crate::fields::string_field;
use mf_locale::Tag;
use serde_json::Value;

/// The bytes that the publication of a locale record counts for: 64, those of the tag, and those of
/// the record's texts as they are given.
pub(crate) fn record_size(tag: &Tag, given: &Value) -> u64
    ensures { result ≡ sizes.record_size tag.now (view given.now) }
{
    let size = more(64, tag.as_text().as_str().len());
    let size = more(size, text_size(given, "decimal"));
    let size = more(size, text_size(given, "group"));
    let size = more(size, text_size(given, "minus"));
    let size = more(size, text_size(given, "plus"));
    let size = more(size, text_size(given, "plural"));
    more(size, text_size(given, "ordinal"))
}

/// A size and more bytes.
fn more(size: u64, bytes: usize) -> u64
    ensures { result ≡ shown (size + bytes) }
{
    size.saturating_add(bytes as u64)
}

/// The bytes of a record's text.
fn text_size(given: &Value, name: &str) -> usize
    ensures { result ≡ sizes.text_size name.now (view given.now) }
{
    string_field(given, name).map_or(0, str::len)
}
