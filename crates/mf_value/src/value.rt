//! The value of an expression.

ghost use Rattle.std.specs.Prelude.{◌≡◌, true};
ghost use Rattle.mf_value.specs.Values.{selects_so};

use crate::content::{Content, Selects};
use mf_text::{Direction, Text};
use std::alloc::AllocError;

/// What an expression or a variable comes to.
#[derive(Debug, PartialEq, Eq, Drop)]
pub struct Value {
    pub content: Content,
    pub dir: Direction,
    /// Whether it is isolated in any case, as `u:dir` asks.
    pub forced: bool,
    /// The id that `u:id` gives its part.
    pub id: Option<Text>,
    /// Stands before what is shown.
    pub prefix: Text,
    /// Stands behind what is shown.
    pub suffix: Text,
    /// How it selects: a fallback by nothing, a text by nothing or as a text, a number never as a
    /// text.
    pub selects: Selects,
    pub ghost selects_fits: { selects_so content selects ≡ true },
}

impl Clone for Value {
    ghost is_clone = { λ value copy. copy ≡ value };

    fn clone(&self) -> Result<Value, AllocError> {
        let content = self.content.clone()?;
        let id = self.id.clone()?;
        let prefix = self.prefix.clone()?;
        let suffix = self.suffix.clone()?;
        Ok(Value {
            content,
            dir: self.dir,
            forced: self.forced,
            id,
            prefix,
            suffix,
            selects: self.selects,
        })
    }
}
