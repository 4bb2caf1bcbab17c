//! Sources and sinks that are lent.

use crate::{Failed, Sink, Source};

impl<S: Source> Source for &mut S {
    ghost left = { λ s. S.left s.now };

    ghost faults = { λ s. S.faults s.now };

    fn read(&mut self, buf: &mut [u8]) -> Result<usize, Failed> {
        Source::read(&mut **self, buf)
    }
}

impl<K: Sink> Sink for &mut K {
    ghost taken = { λ s. K.taken s.now };

    ghost faults = { λ s. K.faults s.now };

    fn write(&mut self, piece: &[u8]) -> Result<usize, Failed> {
        Sink::write(&mut **self, piece)
    }

    fn flush(&mut self) -> Result<(), Failed> {
        Sink::flush(&mut **self)
    }
}
