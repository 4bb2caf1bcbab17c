//! A script that is read whole.
ghost use Rattle.std.specs.Prelude.{◌≡◌, ◌≤◌, ◌++◌, [], false, IfErr, IfOk, OnOk};
ghost use Rattle.mf_io.specs.Faults.{Rose};
ghost use Rattle.mf_io.specs.declared.statuses.Status.TheVariants.{ReadFault};
ghost use Rattle.mf_lines.specs.Served.{ended};
ghost use Rattle.mf_rehearse.specs.Rehearsals.{rehearse_caps, ReadsLines, StopsAt};

use mf_io::{Caps, Failed, Sink, Source, Status};
use mf_lines::{Clerk, answer_input};
use mf_text::Text;
use std::alloc::{AllocError, Global};

/// The most bytes of a line, and the bytes at which the input stops.
pub(crate) const CAPS: Caps = Caps {
    line: 1_048_576,
    input: 16_777_216,
};

/// Lines that were read, each with its line feed, unless one was lost for want of memory.
#[derive(Drop)]
struct Copied {
    lines: Vec<u8>,
    is_lost: bool,
}

impl Copied {
    /// Puts a line at the end.
    fn push(&mut self, line: &[u8]) -> Result<(), AllocError>
        ensures lines { OnOk result (self.new.lines.items ≡ self.old.lines.items ++ ended line.now) }
        ensures lost { self.new.is_lost ≡ self.old.is_lost }
    {
        self.lines.extend_from_slice(line)?;
        self.lines.push(b'\n')?;
        Ok(())
    }
}

/// Who copies lines and says nothing.
#[derive(Drop)]
struct Copyist {}

impl Clerk for Copyist {
    type Desk = Copied;

    ghost use Rattle.mf_rehearse.specs.Copies.{Copies};

    ghost answers = { Copies };

    fn answer(
        &mut self,
        alloc: Global,
        desk: &mut Copied,
        line: &[u8],
    ) -> Result<Text, AllocError> {
        if desk.push(line).is_err() {
            desk.is_lost = true;
        }
        Ok(Text::new(alloc))
    }
}

/// A sink that takes everything and keeps nothing.
#[derive(Drop)]
struct Nowhere {}

impl Sink for Nowhere {
    ghost use Rattle.std.specs.Prelude.{None};

    ghost taken = { λ s. None };

    ghost faults = { λ s. 0 };

    fn write(&mut self, piece: &[u8]) -> Result<usize, Failed> {
        Ok(piece.len())
    }

    fn flush(&mut self) -> Result<(), Failed> {
        Ok(())
    }
}

/// The lines of an input, each with its line feed, or the status at which reading it stopped.
pub(crate) fn read_lines<S: Source>(alloc: Global, source: &mut S) -> Result<Vec<u8>, Status>
    ensures whole { IfOk result (λ lines. ReadsLines rehearse_caps lines.items
        (S.left source.old) (S.left source.new)) }
    ensures stopped { IfErr result (λ status. StopsAt rehearse_caps
        (S.left source.old) (S.left source.new) status) }
    ensures read_fault { IfErr result (λ status. status ≡ ReadFault
        → Rose (S.faults source.old) (S.faults source.new)) }
    ensures source_count { S.faults source.old ≤ S.faults source.new }
{
    let mut copied = Copied {
        lines: Vec::new(alloc),
        is_lost: false,
    };
    match answer_input(
        alloc,
        &mut Copyist {},
        &mut copied,
        source,
        &mut Nowhere {},
        &CAPS,
    ) {
        Status::Ended if copied.is_lost => Err(Status::OutOfMemory),
        Status::Ended => Ok(copied.lines),
        status => Err(status),
    }
}
