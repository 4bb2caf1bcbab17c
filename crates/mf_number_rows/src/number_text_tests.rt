//! Each call of mf_numfmt once, with memory enough.
use mf_decimal::{Digits, read};
use mf_numfmt::{Grouping, Layout, Sign, text};
use mf_text::Text;
use std::test::Fail;

#[test]
fn a_number_is_written_in_a_layout(rt: HostRuntime) -> Result<(), Fail> {
    let layout = Layout {
        decimal: Text::of(rt.alloc(), ",")?,
        group: Text::of(rt.alloc(), ".")?,
        minus: Text::of(rt.alloc(), "-")?,
        plus: Text::of(rt.alloc(), "+")?,
        primary: 3,
        secondary: 2,
        min_group: 1,
    };
    let copy = layout.clone()?;
    assert!(rt; copy == layout);
    let shown = read("-1234.5")?.round(Digits::Fraction { min: 2, max: 2 });
    let text = text(rt.alloc(), &shown, &copy, Sign::Auto, Grouping::Auto, 1)?;
    assert_eq!(rt; text.as_str(), "-1.234,50");
    Ok(())
}
