//! Each call of mf_text once, with memory enough, and each generic one at a type.
use mf_text::{Argued, Arguments, OrderedPairs, Pair, Text, Texts, nfc};
use std::cmp::Ordering;
use std::test::Fail;

#[test]
fn a_text_grows_and_is_compared(rt: HostRuntime) -> Result<(), Fail> {
    let mut text = Text::new(rt.alloc());
    text.push_str("caf")?;
    text.push('\u{e9}')?;
    let other = Text::from(String::from_str(rt.alloc(), "cafe")?);
    assert!(rt; text != other && text.clone()? == text);
    assert_eq!(rt; text.cmp(&other), Ordering::Greater);
    assert_eq!(rt; text.partial_cmp(&other), Some(Ordering::Greater));
    assert_eq!(rt; nfc(rt.alloc(), "cafe\u{301}")?.as_str(), text.as_str());
    assert_eq!(rt; text.into_string().as_str(), "caf\u{e9}");
    Ok(())
}

#[test]
fn a_list_grows_at_its_end(rt: HostRuntime) -> Result<(), Fail> {
    let mut texts = Texts::with_capacity(rt.alloc(), 1)?;
    let mut others = Texts::new(rt.alloc());
    assert!(rt; texts.is_empty() && others.len() == 0);
    texts.push(Text::of(rt.alloc(), "a")?)?;
    assert!(rt; texts != others);
    others.push(Text::of(rt.alloc(), "a")?)?;
    assert!(rt; texts == others && texts.as_slice().len() == 1);
    assert_eq!(rt; texts.get(0).map(|text| text.as_str()), Some("a"));
    assert_eq!(rt; texts.into_members()[0].as_str(), "a");
    Ok(())
}

#[test]
fn an_argument_is_given_once(rt: HostRuntime) -> Result<(), Fail> {
    let mut arguments = Arguments::new(rt.alloc());
    assert!(rt; arguments.is_empty());
    assert!(rt; arguments.insert(rt.alloc(), "e\u{301}", Argued::Signed(-1))?);
    assert!(rt; !arguments.insert(rt.alloc(), "\u{e9}", Argued::Unsigned(2))?);
    assert_eq!(rt; arguments.len(), 1);
    let name = nfc(rt.alloc(), "\u{e9}")?;
    assert!(rt; arguments.find(&name) == Some(&Argued::Signed(-1)));
    Ok(())
}

#[test]
fn pairs_have_each_name_once(rt: HostRuntime) -> Result<(), Fail> {
    let mut pairs = OrderedPairs::new(rt.alloc());
    for value in ["1", "2"] {
        let name = Text::of(rt.alloc(), "a")?;
        let value = Text::of(rt.alloc(), value)?;
        pairs.put(Pair { name, value })?;
    }
    assert_eq!(rt; pairs.as_slice().len(), 1);
    assert_eq!(rt; pairs.into_pairs().as_slice()[0].value.as_str(), "2");
    Ok(())
}
