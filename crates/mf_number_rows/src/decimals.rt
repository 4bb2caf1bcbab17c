//! Values of number literals.
use mf_decimal::{Decimal, NumberError, of_i64, of_u64, read};
use std::alloc::{AllocError, Global};

/// The coefficient and the scale of a number, its exact text and its whole part, or why a text is
/// no number.
pub fn answer(alloc: Global, asked: &str) -> Result<String, AllocError> {
    match decimal_of(asked) {
        Ok(number) => told(alloc, &number),
        Err(error) => format!(in alloc; "{error}"),
    }
}

/// The value of a number literal, or of a whole number behind `u64` or `i64`.
fn decimal_of(asked: &str) -> Result<Decimal, NumberError> {
    if let Some(digits) = asked.strip_prefix("u64 ") {
        let number = digits.parse::<u64>().map_err(|_| NumberError::NotANumber)?;
        return Ok(of_u64(number));
    }
    if let Some(digits) = asked.strip_prefix("i64 ") {
        let number = digits.parse::<i64>().map_err(|_| NumberError::NotANumber)?;
        return Ok(of_i64(number));
    }
    read(asked)
}

fn told(alloc: Global, number: &Decimal) -> Result<String, AllocError> {
    let sign = if number.negative { "-" } else { "" };
    let exact = number.exact_text(alloc)?;
    let whole = number.cut().exact_text(alloc)?;
    format!(in alloc;
        "{sign}{} {} | {exact} | {whole}",
        number.coefficient, number.scale
    )
}
