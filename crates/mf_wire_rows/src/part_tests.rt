//! The calls of mf_parts: what is isolated, and how.
use mf_parts::{Part, Parts, isolate, joined, joined_len, push_isolated};
use mf_text::{Direction, Pairs, Text};
use mf_tree::Form;
use std::alloc::{AllocError, Global};
use std::test::Fail;

const DIRECTIONS: [Direction; 3] = [Direction::Ltr, Direction::Rtl, Direction::Unknown];

/// A string.
fn string(alloc: Global, dir: Direction, forced: bool) -> Result<Part, AllocError> {
    Ok(Part::String {
        value: Text::of(alloc, "x")?,
        dir,
        forced,
        id: None,
    })
}

/// A number.
fn number(alloc: Global, dir: Direction, forced: bool) -> Result<Part, AllocError> {
    Ok(Part::Number {
        value: Text::of(alloc, "x")?,
        dir,
        forced,
        id: None,
    })
}

// What `x` of this direction is in messages that go left to right, right to left and in no known
// direction: first where its isolation isn't forced, then where it is.
#[test]
fn a_value_is_isolated_by_its_direction(rt: HostRuntime) -> Result<(), Fail> {
    let alloc = rt.alloc();
    let ltr = "\u{2066}x\u{2069}";
    let rtl = "\u{2067}x\u{2069}";
    let unknown = "\u{2068}x\u{2069}";
    for (dir, plain, forced) in [
        (Direction::Ltr, ["x", ltr, ltr], [ltr, ltr, ltr]),
        (Direction::Rtl, [rtl, rtl, rtl], [rtl, rtl, rtl]),
        (
            Direction::Unknown,
            [unknown, unknown, unknown],
            [unknown, unknown, unknown],
        ),
    ] {
        for (is_forced, rows) in [(false, plain), (true, forced)] {
            for (message, expected) in DIRECTIONS.into_iter().zip(rows) {
                for part in [
                    string(alloc, dir, is_forced)?,
                    number(alloc, dir, is_forced)?,
                ] {
                    let parts = push_isolated(Parts::new(alloc), part, message)?;
                    assert_eq!(rt;
                        joined(alloc, &parts)?.as_str(),
                        expected,
                        "{dir:?} in {message:?}, forced: {is_forced}"
                    );
                    assert_eq!(rt; joined_len(&parts), expected.len() as u64);
                }
            }
        }
    }
    Ok(())
}

// A text and markup stand as they are, and markup shows nothing; a fallback is shown in braces,
// between marks of its own.
#[test]
fn what_is_no_value_has_its_own_rules(rt: HostRuntime) -> Result<(), Fail> {
    let alloc = rt.alloc();
    for message in DIRECTIONS {
        let mut parts = Parts::new(alloc);
        parts.push(Part::Text(Text::of(alloc, "a")?))?;
        parts.push(Part::Markup {
            form: Form::Start,
            name: Text::of(alloc, "b")?,
            options: Pairs::new(alloc),
            id: None,
        })?;
        parts.push(Part::Fallback {
            source: Text::of(alloc, "$c")?,
        })?;
        let parts = isolate(alloc, parts, message)?;
        let expected = "a\u{2068}{$c}\u{2069}";
        assert_eq!(rt; parts.len(), 5, "{message:?}");
        assert_eq!(rt; joined(alloc, &parts)?.as_str(), expected, "{message:?}");
        assert_eq!(rt; joined_len(&parts), expected.len() as u64);
    }
    Ok(())
}
