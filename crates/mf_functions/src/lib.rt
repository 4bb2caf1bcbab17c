//! The functions that every message may call, `:string`, `:number` and `:integer`; what their
//! values show; and how well a key matches one.
//!
//! Source: Unicode TS 35, Part 9, "Default Functions" and "Pattern Selection". Fractions are exact:
//! no floating point is read or written.
#![tactic(auto)]

mod base;
mod built_ins;
mod number;
mod option_values;
mod options;
mod reading;
mod selecting;
mod shown;
mod string;
mod written;

pub use base::{allows_preset, base_called};
pub use built_ins::BuiltIns;
pub use number::{integer_fn, number_fn};
pub use selecting::{Selecting, select_rank};
pub use shown::shown_text;
pub use string::{bad_operand, operand_text, refused_options, string_fn, text_value};
