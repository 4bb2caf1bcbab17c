ghost use Rattle.std.specs.Prelude.{◌≡◌, ◌++◌, IfOk};
ghost use Rattle.mf_parts.specs.Isolation.{between, isolated, isolated_part, opening, part_opening};

use crate::{Part, Parts};
use mf_text::Direction;
use std::alloc::{AllocError, Global};

/// The most parts that a part and its marks are.
const MOST_PARTS: usize = 3;

/// The parts of a message of this direction, each between the marks that it gets. No part is
/// copied.
/// See DECISIONS 8.
pub fn isolate(alloc: Global, parts: Parts, message: Direction) -> Result<Parts, AllocError>
    ensures { IfOk result (λ done. done ≡ isolated message parts) }
{
    let room = parts.len().saturating_mul(MOST_PARTS);
    let mut done = Parts::with_capacity(alloc, room)?;
    for part in parts.into_members() {
        done = push_isolated(done, part, message)?;
    }
    Ok(done)
}

/// The parts with one more at the end, between the marks that it gets in a message of this
/// direction.
/// See DECISIONS 8.
pub fn push_isolated(parts: Parts, part: Part, message: Direction) -> Result<Parts, AllocError>
    ensures { IfOk result (λ longer. longer ≡ parts ++ isolated_part message part) }
{
    let mark = part_opening(&part, message);
    push_between(parts, mark, part)
}

/// The mark before a part, if it gets marks: a fallback has unknown direction, and what is no value
/// gets none.
fn part_opening(part: &Part, message: Direction) -> Option<char>
    ensures { result ≡ part_opening message part.now }
{
    match part {
        Part::String { dir, forced, .. } | Part::Number { dir, forced, .. } => {
            opening(message, *dir, *forced)
        }
        Part::Fallback { .. } => opening(message, Direction::Unknown, false),
        Part::Text(_) | Part::Isolate(_) | Part::Markup { .. } => None,
    }
}

/// The mark before a value of direction `dir`, if it gets marks.
fn opening(message: Direction, dir: Direction, forced: bool) -> Option<char>
    ensures { result ≡ opening message dir forced }
{
    match (message, dir) {
        (Direction::Ltr, Direction::Ltr) if !forced => None,
        (_, Direction::Ltr) => Some('\u{2066}'),
        (_, Direction::Rtl) => Some('\u{2067}'),
        (_, Direction::Unknown) => Some('\u{2068}'),
    }
}

/// The parts with one more at the end, after a mark and before the mark that ends its isolation, if
/// there is one.
fn push_between(parts: Parts, mark: Option<char>, part: Part) -> Result<Parts, AllocError>
    ensures { IfOk result (λ longer. longer ≡ parts ++ between mark part) }
{
    let mut parts = parts;
    match mark {
        None => parts.push(part)?,
        Some(mark) => {
            parts.push(Part::Isolate(mark))?;
            parts.push(part)?;
            parts.push(Part::Isolate('\u{2069}'))?;
        }
    }
    Ok(parts)
}
