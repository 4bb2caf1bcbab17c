//! Each call of mf_lint once, with memory enough.
use mf_lint::{Linted, lint};
use std::test::Fail;

#[test]
fn a_source_is_canonical_or_has_errors(rt: HostRuntime) -> Result<(), Fail> {
    let Linted::Valid(canonical) = lint(rt.alloc(), "{|a|}")? else {
        return Err(Fail::new("a valid source has errors"));
    };
    assert_eq!(rt; canonical.as_str(), "{a}");
    let Linted::Invalid(faults) = lint(rt.alloc(), "}")? else {
        return Err(Fail::new("an invalid source has a canonical form"));
    };
    assert_eq!(rt; faults.len(), 1);
    Ok(())
}
