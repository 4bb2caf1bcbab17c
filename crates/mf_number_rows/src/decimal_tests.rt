//! Each call of mf_decimal once, with memory enough.
use mf_decimal::{Digits, of_i64, of_u64, read};
use std::test::Fail;

#[test]
fn a_number_is_read_rounded_cut_and_written(rt: HostRuntime) -> Result<(), Fail> {
    let number = read("-12.5")?;
    let digits = Digits::Fraction { min: 0, max: 0 };
    assert!(rt; number.cut() == of_i64(-12));
    assert!(rt; number.round(digits) == of_i64(-12).round(digits));
    assert_eq!(rt; number.exact_text(rt.alloc())?.as_str(), "-12.5");
    assert_eq!(rt; of_u64(12).exact_text(rt.alloc())?.as_str(), "12");
    Ok(())
}
