//! The options of a call, and those of them that are refused.

ghost use Rattle.std.specs.Prelude.{◌≡◌, ◌<◌, ◌^◌, length, IfOk};
ghost use Rattle.mf_meaning.specs.Functions.{refused_options};
ghost use Rattle.mf_meaning.specs.Options.{is_allowed};
ghost use Rattle.mf_functions.specs.Written.{nothing_written, preset_from, written_from};

use crate::written::Written;
use mf_text::{List, Pair};
use mf_tree::Kind;
use mf_value::{CallFault, CallFaults, NumberFunction, Options};
use std::alloc::{AllocError, Global};

/// The values that the options and presets of a call give, and the options that are refused.
#[derive(Drop)]
pub struct Reading {
    pub written: Written,
    pub refused: CallFaults,
}

/// Reads each option and each preset once.
pub fn read_options(
    alloc: Global,
    function: NumberFunction,
    presets: &[Pair],
    options: &Options,
) -> Result<Reading, AllocError>
    requires few { length options.now < 2 ^ 32 }
    ensures written { IfOk result (λ reading. reading.written ≡ preset_from function
        (written_from function nothing_written options.now) presets.now) }
    ensures refused { IfOk result (λ reading. reading.refused ≡ refused_options
        (is_allowed function) options.now) }
{
    let mut written = Written::nothing();
    let mut refused = List::new(alloc);
    for (place, given) in options.as_slice().iter().enumerate() {
        if !written.take(function, given) {
            refused.push(CallFault {
                kind: Kind::BadOption,
                option: place as u32,
            })?;
        }
    }
    Ok(Reading {
        written: written.with_presets(function, presets),
        refused,
    })
}
