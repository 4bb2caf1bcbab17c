ghost use Rattle.std.specs.Prelude.{◌≡◌, IfOk, chars};
ghost use Rattle.unicode_normalization.specs.Forms.{nfc};

use crate::Text;
use std::alloc::{AllocError, Global};
use unicode_normalization::{is_nfc, to_nfc};

/// The text in Normalization Form C (Unicode Standard Annex 15).
pub fn nfc(alloc: Global, text: &str) -> Result<Text, AllocError>
    ensures { IfOk result (λ t. t ≡ nfc (chars text.now)) }
{
    if is_nfc(alloc, text)? {
        return Text::of(alloc, text);
    }
    let normal = to_nfc(alloc, text)?;
    Ok(Text::from(normal))
}
