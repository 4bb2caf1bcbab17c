//! Each call of mf_parse once, with memory enough, and more declarations than a server allows.
use mf_parse::{ParseError, parse};
use mf_tree::Body;
use std::test::Fail;

#[test]
fn a_text_spells_a_message_or_none(rt: HostRuntime) -> Result<(), Fail> {
    let message = parse(rt.alloc(), "Hello {$name}!")?;
    let Body::Pattern(pattern) = &message.body else {
        return Err(Fail::new("the message has no pattern"));
    };
    assert_eq!(rt; pattern.len(), 3);
    assert_eq!(rt; parse(rt.alloc(), "}").err(), Some(ParseError::Syntax));
    Ok(())
}

// There is no limit to the declarations here.
#[test]
fn declarations_may_be_many(rt: HostRuntime) -> Result<(), Fail> {
    let mut text = String::new(rt.alloc());
    for _ in 0..300 {
        text.push_str(".local $a = {1}\n")?;
    }
    text.push_str("{{}}")?;
    let message = parse(rt.alloc(), text.as_str())?;
    assert_eq!(rt; message.declarations.len(), 300);
    Ok(())
}
