//! Each call of mf_check once, with memory enough.
use mf_check::faults;
use mf_text::Text;
use mf_tree::{Body, Declarations, Kind, Message, Name, Names, Variants};
use std::test::Fail;

#[test]
fn a_matcher_needs_a_variant_and_annotations(rt: HostRuntime) -> Result<(), Fail> {
    let mut selectors = Names::new(rt.alloc());
    selectors.push(Name::new(rt.alloc(), Text::of(rt.alloc(), "a")?)?)?;
    let message = Message {
        declarations: Declarations::new(rt.alloc()),
        body: Body::Match {
            selectors,
            variants: Variants::new(rt.alloc()),
        },
    };
    let found = faults(rt.alloc(), &message)?;
    assert_eq!(rt; found.len(), 2);
    let [first, second] = found.as_slice() else {
        return Err(Fail::new("there are not two errors"));
    };
    assert!(rt; first.kind == Kind::MissingFallbackVariant && first.of.as_str() == "");
    assert!(rt; second.kind == Kind::MissingSelectorAnnotation && second.of.as_str() == "$a");
    Ok(())
}
