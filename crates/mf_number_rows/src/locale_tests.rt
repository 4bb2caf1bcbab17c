//! Each call of mf_locale once, with memory enough.
use mf_locale::{
    LocaleError, SharedRecord, Tag, chain, next_in_chain, read_record, read_tag, root,
};
use serde_json::Value;
use std::test::Fail;

#[test]
fn a_tag_has_a_chain_and_an_order(rt: HostRuntime) -> Result<(), Fail> {
    let tag = read_tag(rt.alloc(), "EN-gb")?;
    assert_eq!(rt; tag.as_text().as_str(), "en-gb");
    assert_eq!(rt; chain(rt.alloc(), &tag)?.len(), 3);
    assert_eq!(rt; next_in_chain("en"), Some("und"));
    let und = Tag::und(rt.alloc())?;
    assert!(rt; tag < und && tag.clone()? == tag);
    Ok(())
}

#[test]
fn a_record_is_read_and_shared(rt: HostRuntime) -> Result<(), Fail> {
    let json =
        r#"{"version":1,"dir":"ltr","decimal":".","group":",","minus":"-","plus":"+","primary":3,"secondary":3,"minGroup":1,"plural":"","ordinal":""}"#;
    let record = read_record(rt.alloc(), &Value::from_str(rt.alloc(), json)?)?;
    assert!(rt; record == root(rt.alloc())?);
    let shared = SharedRecord::new(rt.alloc(), record)?;
    let other = shared.clone()?;
    assert!(rt; other == shared);
    for owner in [&shared, &other] {
        assert_eq!(rt; owner.as_record().layout.primary, 3);
    }
    Ok(())
}

#[test]
fn want_of_memory_has_a_text(rt: HostRuntime) -> Result<(), Fail> {
    let text = format!(in rt.alloc(); "{}", LocaleError::OutOfMemory)?;
    assert_eq!(rt; text.as_str(), "out of memory");
    Ok(())
}
