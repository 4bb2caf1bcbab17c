//! Each call of mf_plural once, with memory enough, and a fraction that no text of a number has.
use mf_decimal::Shown;
use mf_plural::{Category, category, read_rules};
use std::test::Fail;

#[test]
fn a_long_fraction_is_no_whole_number(rt: HostRuntime) -> Result<(), Fail> {
    let rules = read_rules(
        rt.alloc(),
        "one: n = 0; two: v = 56 and w = 56; few: v = 56",
    )?;
    let most = Shown {
        negative: false,
        whole: 0,
        fraction: 1,
        fraction_len: 56,
    };
    assert_eq!(rt; category(&rules, &most), Category::Two);
    Ok(())
}
