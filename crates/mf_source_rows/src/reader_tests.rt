//! Each call of mf_lex once, with memory enough, and the way back.
use mf_lex::{
    Cursor, identifiers_are_spelled_once, literals_are_spelled_once, names_are_spelled_once,
};
use std::test::Fail;

#[test]
fn each_reader_takes_its_text(rt: HostRuntime) -> Result<(), Fail> {
    let mut cursor = Cursor::new("a \u{200e}n:b|c|\\{d");
    assert!(rt;
        cursor
            .name(rt.alloc())?
            .is_some_and(|name| name.as_str() == "a")
    );
    assert!(rt; cursor.s());
    cursor.o();
    let identifier = cursor.identifier(rt.alloc())?;
    assert!(rt; identifier.is_some_and(|ident| ident.name.as_str() == "b"));
    assert!(rt;
        cursor
            .literal(rt.alloc())?
            .is_some_and(|value| value.as_str() == "c")
    );
    assert_eq!(rt; cursor.escape(), Some('{'));
    assert_eq!(rt; cursor.text_run(), "d");
    Ok(())
}

#[test]
fn one_character_and_the_way_back(rt: HostRuntime) {
    let mut cursor = Cursor::new("\u{e9}{x");
    assert!(rt; !cursor.one('{') && cursor.at() == 0);
    assert_eq!(rt; cursor.peek(), Some('\u{e9}'));
    assert!(rt; cursor.one('\u{e9}') && cursor.at() == 2);
    let place = cursor.save();
    assert!(rt; cursor.next().is_some() && cursor.next().is_some());
    assert!(rt; cursor.next().is_none() && cursor.rest().is_empty());
    cursor = place;
    assert!(rt; cursor.at() == 2 && cursor.one('{') && cursor.rest() == "x");
}

#[test]
fn the_laws_can_be_cited(_rt: HostRuntime) {
    names_are_spelled_once();
    identifiers_are_spelled_once();
    literals_are_spelled_once();
}
