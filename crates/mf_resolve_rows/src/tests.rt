//! Resolution and selection with ample memory.
use crate::asking::answer_of;
use mf_locale::root;
use std::test::Fail;

#[test]
fn a_message_is_resolved(rt: HostRuntime) -> Result<(), Fail> {
    let record = root(rt.alloc())?;
    let row = ".input {$n :number} .match $n x {{}} 1 {{{$n}{#b/}{$m}}} * {{}} ?? n=1";
    assert_eq!(rt;
        answer_of(rt.alloc(), &record, row)?.as_str(),
        "[1] | 1 | <> | {$m}; bad-variant-key x; unresolved-variable $m"
    );
    Ok(())
}
