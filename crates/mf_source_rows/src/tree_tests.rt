//! Names, classes of errors and forms of markup.
use mf_text::Text;
use mf_tree::{Form, Kind, Name};
use std::test::Fail;

// A name keeps what is written, and is compared by its normal form.
#[test]
fn a_name_has_a_spelling_and_a_value(rt: HostRuntime) -> Result<(), Fail> {
    for (spelled, value) in [
        ("count", "count"),
        ("\u{e9}", "\u{e9}"),
        ("e\u{301}", "\u{e9}"),
        ("\u{1100}\u{1161}", "\u{ac00}"),
        ("\u{37e}", ";"),
    ] {
        let name = Name::new(rt.alloc(), Text::of(rt.alloc(), spelled)?)?;
        assert_eq!(rt; name.spelled.as_str(), spelled);
        assert_eq!(rt; name.value.as_str(), value);
    }
    Ok(())
}

#[test]
fn a_class_has_a_name(rt: HostRuntime) -> Result<(), Fail> {
    assert_eq!(rt; Kind::Syntax.as_str(), "syntax-error");
    assert_eq!(rt; Kind::BadVariantKey.as_str(), "bad-variant-key");
    assert!(rt; Kind::BadOption == Kind::BadOption && Kind::BadOption != Kind::BadOperand);
    assert!(rt; Form::Start != Form::End);
    Ok(())
}
