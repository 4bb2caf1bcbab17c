//! The shape of a tag, looked at byte by byte.
ghost use Rattle.std.specs.Prelude.{◌≡◌, chars};
ghost use Rattle.std.specs.Char.{is_ascii_alphabetic, is_ascii_alphanumeric};
ghost use Rattle.std.specs.List.{list_all};
ghost use Rattle.mf_locale.specs.Tag.{are_subtags, is_first_subtag, is_further_subtag, is_tag, subtags};

/// The most bytes that a tag may have.
const LONGEST_TAG: usize = 35;

/// The fewest bytes that a first subtag may have.
const SHORTEST_FIRST: usize = 2;

/// The most bytes that a subtag may have.
const LONGEST_SUBTAG: usize = 8;

pub fn has_tag_shape(text: &str) -> bool
    ensures { result ≡ is_tag (chars text.now) }
{
    text.len() <= LONGEST_TAG && has_subtags(text)
}

fn has_subtags(text: &str) -> bool
    ensures { result ≡ are_subtags (subtags text.now) }
{
    match text.split_once('-') {
        None => is_first(text),
        Some((first, further)) => is_first(first) && are_further(further),
    }
}

fn are_further(parts: &str) -> bool
    ensures { result ≡ list_all is_further_subtag (subtags parts.now) }
{
    parts.split('-').all(is_further)
}

fn is_first(part: &str) -> bool
    ensures { result ≡ is_first_subtag part.now }
{
    part.len() >= SHORTEST_FIRST && part.len() <= LONGEST_SUBTAG && are_letters(part)
}

fn is_further(part: &str) -> bool
    ensures { result ≡ is_further_subtag part.now }
{
    part.len() >= 1 && part.len() <= LONGEST_SUBTAG && are_letters_or_digits(part)
}

fn are_letters(part: &str) -> bool
    ensures { result ≡ list_all is_ascii_alphabetic part.now }
{
    part.bytes().all(|byte| byte.is_ascii_alphabetic())
}

fn are_letters_or_digits(part: &str) -> bool
    ensures { result ≡ list_all is_ascii_alphanumeric part.now }
{
    part.bytes().all(|byte| byte.is_ascii_alphanumeric())
}
