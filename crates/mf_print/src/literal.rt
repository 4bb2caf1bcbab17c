//! Characters, escaped where they must be, and literals, quoted where they must be.
ghost use Rattle.std.specs.Prelude.{◌≡◌, ◌++◌, chars, OnOk};
ghost use Rattle.mf_text.specs.Grammar.{is_unquoted};
ghost use Rattle.mf_tree.specs.Canonical.{escaped, escaped_in_quotes, escaped_in_text, literal_source, quoted_source, text_source};

use mf_text::{Text, is_name_char};
use std::alloc::AllocError;

/// A text of a pattern.
pub fn push_text(out: &mut Text, text: &Text) -> Result<(), AllocError>
    ensures { OnOk result (out.new ≡ out.old ++ text_source text.now) }
{
    for c in text.as_str().chars() {
        push_text_char(out, c)?;
    }
    Ok(())
}

fn push_text_char(out: &mut Text, c: char) -> Result<(), AllocError>
    ensures { OnOk result (out.new ≡ out.old ++ escaped escaped_in_text c) }
{
    if matches!(c, '\\' | '{' | '}') {
        out.push('\\')?;
    }
    out.push(c)
}

/// A literal, unquoted where it can be.
pub fn push_literal(out: &mut Text, value: &Text) -> Result<(), AllocError>
    ensures { OnOk result (out.new ≡ out.old ++ literal_source value.now) }
{
    if is_unquoted(value.as_str()) {
        return out.push_str(value.as_str());
    }
    push_quoted(out, value)
}

/// Whether a literal can stand without quotes.
fn is_unquoted(value: &str) -> bool
    ensures { result ≡ is_unquoted (chars value.now) }
{
    !value.is_empty() && value.chars().all(|c| is_name_char(c))
}

/// A literal in quotes.
pub fn push_quoted(out: &mut Text, value: &Text) -> Result<(), AllocError>
    ensures { OnOk result (out.new ≡ out.old ++ quoted_source value.now) }
{
    out.push('|')?;
    for c in value.as_str().chars() {
        push_quoted_char(out, c)?;
    }
    out.push('|')
}

fn push_quoted_char(out: &mut Text, c: char) -> Result<(), AllocError>
    ensures { OnOk result (out.new ≡ out.old ++ escaped escaped_in_quotes c) }
{
    if matches!(c, '\\' | '|') {
        out.push('\\')?;
    }
    out.push(c)
}
