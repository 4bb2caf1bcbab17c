//! The classes of characters of a message. Source: Unicode TS 35, Part 9, "Message syntax"; the
//! table of
//! `name-start` is this project's own and follows it.
ghost use Rattle.std.specs.Prelude.{◌≡◌};
ghost use Rattle.mf_text.specs.Characters.{is_in, name_rest, name_start_above, name_start_below, is_ws, is_bidi, is_name_start, is_name_char, is_text, is_quoted, is_escapable, is_simple_start};

/// Whether a character is white space (`ws`): U+0009, U+000A, U+000D, U+0020 or U+3000.
pub fn is_ws(c: char) -> bool
    ensures { result ≡ is_ws c }
{
    matches!(c, '\t'..='\n' | '\r' | ' ' | '\u{3000}')
}

/// Whether a character is a mark of direction (`bidi`): U+061C, U+200E, U+200F or U+2066 to U+2069.
pub fn is_bidi(c: char) -> bool
    ensures { result ≡ is_bidi c }
{
    matches!(c, '\u{61c}' | '\u{200e}'..='\u{200f}' | '\u{2066}'..='\u{2069}')
}

/// Whether a name may begin with a character (`name-start`).
pub fn is_name_start(c: char) -> bool
    ensures { result ≡ is_name_start c }
{
    is_name_start_below(c) || is_name_start_above(c)
}

fn is_name_start_below(c: char) -> bool
    ensures { result ≡ is_in name_start_below c }
{
    matches!(c,
        '+'
        | 'A'..='Z'
        | '_'
        | 'a'..='z'
        | '\u{a1}'..='\u{61b}'
        | '\u{61d}'..='\u{167f}'
        | '\u{1681}'..='\u{1fff}'
        | '\u{200b}'..='\u{200d}'
        | '\u{2010}'..='\u{2027}'
        | '\u{2030}'..='\u{205e}'
        | '\u{2060}'..='\u{2065}'
        | '\u{206a}'..='\u{2fff}'
        | '\u{3001}'..='\u{d7ff}'
        | '\u{e000}'..='\u{fdcf}'
        | '\u{fdf0}'..='\u{fffd}')
}

fn is_name_start_above(c: char) -> bool
    ensures { result ≡ is_in name_start_above c }
{
    matches!(c,
        '\u{10000}'..='\u{1fffd}'
        | '\u{20000}'..='\u{2fffd}'
        | '\u{30000}'..='\u{3fffd}'
        | '\u{40000}'..='\u{4fffd}'
        | '\u{50000}'..='\u{5fffd}'
        | '\u{60000}'..='\u{6fffd}'
        | '\u{70000}'..='\u{7fffd}'
        | '\u{80000}'..='\u{8fffd}'
        | '\u{90000}'..='\u{9fffd}'
        | '\u{a0000}'..='\u{afffd}'
        | '\u{b0000}'..='\u{bfffd}'
        | '\u{c0000}'..='\u{cfffd}'
        | '\u{d0000}'..='\u{dfffd}'
        | '\u{e0000}'..='\u{efffd}'
        | '\u{f0000}'..='\u{ffffd}'
        | '\u{100000}'..='\u{10fffd}')
}

/// Whether a name may go on with a character (`name-char`).
pub fn is_name_char(c: char) -> bool
    ensures { result ≡ is_name_char c }
{
    is_name_start(c) || is_name_rest(c)
}

fn is_name_rest(c: char) -> bool
    ensures { result ≡ is_in name_rest c }
{
    matches!(c, '-'..='.' | '0'..='9')
}

/// Whether a character stands for itself in a text (`text-char`): every one but U+0000, `\`, `{`
/// and `}`.
pub fn is_text(c: char) -> bool
    ensures { result ≡ is_text c }
{
    !matches!(c, '\0' | '\\' | '{' | '}')
}

/// Whether a character stands for itself in a quoted literal (`quoted-char`): every one but U+0000,
/// `\` and `|`.
pub fn is_quoted(c: char) -> bool
    ensures { result ≡ is_quoted c }
{
    !matches!(c, '\0' | '\\' | '|')
}

/// Whether a character may follow a backslash (`escaped-char`): `\`, `{`, `|` or `}`.
pub fn is_escapable(c: char) -> bool
    ensures { result ≡ is_escapable c }
{
    matches!(c, '\\' | '{'..='}')
}

/// Whether a simple message may begin with a character (`simple-start-char`): every `text-char` but
/// white space and `.`.
pub fn is_simple_start(c: char) -> bool
    ensures { result ≡ is_simple_start c }
{
    is_text(c) && !is_ws(c) && c != '.'
}
