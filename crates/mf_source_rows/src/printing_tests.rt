//! Each call of mf_print once, with memory enough.
use mf_print::{print, push_quoted};
use mf_text::Text;
use mf_tree::{Body, Declarations, Message, Pattern};
use std::test::Fail;

#[test]
fn a_message_and_a_literal_are_printed(rt: HostRuntime) -> Result<(), Fail> {
    let message = Message {
        declarations: Declarations::new(rt.alloc()),
        body: Body::Pattern(Pattern::new(rt.alloc())),
    };
    let mut source = print(rt.alloc(), &message)?;
    push_quoted(&mut source, &Text::of(rt.alloc(), "a|b")?)?;
    assert_eq!(rt; source.as_str(), "|a\\|b|");
    Ok(())
}
