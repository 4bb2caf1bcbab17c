//! The option text of a value: a file of its own, since what it promises names the type.

ghost use Rattle.std.specs.Prelude.{◌≡◌, IfOk};
ghost use Rattle.mf_value.specs.Values as values;

use crate::content::Content;
use mf_text::Text;
use std::alloc::{AllocError, Global};

impl Content {
    /// What the value is where it is given to an option or to a function that takes a text: a text
    /// itself, the exact text of a number. A fallback has none.
    pub fn option_text(&self, alloc: Global) -> Result<Option<Text>, AllocError>
        ensures { IfOk result (λ text. text ≡ values.option_text self.now) }
    {
        match self {
            Content::Text(text) => Ok(Some(text.clone()?)),
            Content::Number { amount, .. } => Ok(Some(Text::from(amount.exact_text(alloc)?))),
            Content::Fallback(_) => Ok(None),
        }
    }
}
