//! Each public call of mf_wire once, with ample memory: a publication is read and answered.
use mf_wire::{Accepted, Op, Reply, Request, first_line, read_request, reply_line};
use std::test::Fail;

#[test]
fn a_publication_is_read_and_answered(rt: HostRuntime) -> Result<(), Fail> {
    let input = br#"{"op":"publish","locale":"en","messages":{"a":"A"}}"#;
    let (line, rest) = first_line(input);
    assert!(rt; rest.is_empty());
    let Request::Publish(change) = read_request(rt.alloc(), line)? else {
        return Err(Fail::new("a publication was read otherwise"));
    };
    let accepted = Accepted::new(rt.alloc(), &change)?;
    let expected = r#"{"edition":18446744073709551615,"ok":"publish"}"#;
    assert_eq!(rt; accepted.line(u64::MAX).as_str(), expected);
    let reply = Reply::Accepted {
        edition: u64::MAX,
        op: Op::of(&change),
    };
    assert_eq!(rt; reply_line(rt.alloc(), &reply)?.as_str(), expected);
    Ok(())
}
