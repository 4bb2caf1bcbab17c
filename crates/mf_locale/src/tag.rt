ghost use Rattle.std.specs.Prelude.{◌≡◌, ◌↔◌, ◌∷◌, ◌<◌, IfErr, IfOk, IfSome, IsErrOf, IsTrue, chars, false, length};
ghost use Rattle.mf_locale.specs.Chain.{each_truncation, truncations, und};
ghost use Rattle.mf_locale.specs.Tag.{is_tag, lower_case, IsLowerTag};
ghost use Rattle.mf_locale.specs.Refusals.{IsOfTag};
ghost use Rattle.mf_locale.specs.declared.error.LocaleError.TheVariants.{BadTag};

use crate::LocaleError;
use crate::shape::has_tag_shape;
use mf_text::Text;
use std::alloc::{AllocError, Global};
use std::marker::Model;

/// A language tag with its letters in lower case, seen as the list of its characters.
#[derive(Debug, PartialEq, Eq, PartialOrd, Ord, Drop)]
pub struct Tag {
    text: Text,
}

impl Model for Tag {
    ghost use Rattle.std.specs.Prelude.{ℕ, List};
    ghost use Rattle.mf_locale.specs.Tag.{IsLowerTag};

    ghost Value = { List ℕ };

    ghost view = { λ t. t.text };

    ghost invariant = { λ t. IsLowerTag t.text };

    ghost inverse = { λ text. record { text = text } };
}

impl Tag {
    /// The tag `und`, which stands for no language in particular.
    pub fn und(alloc: Global) -> Result<Tag, AllocError>
        ensures { IfOk result (λ tag. tag ≡ und) }
    {
        let text = Text::of(alloc, "und")?;
        Ok(Tag { text })
    }

    /// The tag in lower case.
    pub fn as_text(&self) -> &Text
        ensures text { result.now ≡ self.now }
        ensures tag { IsLowerTag self.now }
    {
        &self.text
    }

    /// The tag with its last subtag dropped, if it has more than one.
    pub(crate) fn shorter(&self, alloc: Global) -> Result<Option<Tag>, AllocError>
        ensures truncated { IfOk result
            (λ tag. truncations self.now ≡ self.now ∷ each_truncation tag) }
        ensures shorter { IfOk result (λ tag. IfSome tag (λ t. length t < length self.now)) }
    {
        let text = self.text.as_str();
        let Some(hyphen) = text.rfind('-') else {
            return Ok(None);
        };
        let text = Text::of(alloc, &text[..hyphen])?;
        Ok(Some(Tag { text }))
    }
}

impl Clone for Tag {
    ghost is_clone = { λ s t. t ≡ s };

    fn clone(&self) -> Result<Tag, AllocError> {
        let text = self.text.clone()?;
        Ok(Tag { text })
    }
}

/// The tag that a text spells, with its letters in lower case.
///
/// A tag has one or more subtags with `-` between them and at most 35 bytes. The first subtag has 2
/// to 8 ASCII letters, each further one 1 to 8 ASCII letters or digits. Every other text is
/// [`LocaleError::BadTag`], and no other error comes but `OutOfMemory`.
pub fn read_tag(alloc: Global, text: &str) -> Result<Tag, LocaleError>
    ensures ok { IfOk result (λ tag. tag ≡ lower_case (chars text.now)) }
    ensures tag { IfOk result (λ _. IsTrue (is_tag (chars text.now))) }
    ensures refused { IfErr result IsOfTag }
    ensures bad { IsErrOf result BadTag ↔ (is_tag (chars text.now) ≡ false) }
{
    if !has_tag_shape(text) {
        return Err(LocaleError::BadTag);
    }
    let mut lower = String::from_str(alloc, text)?;
    lower.make_ascii_lowercase();
    Ok(Tag {
        text: Text::from(lower),
    })
}
