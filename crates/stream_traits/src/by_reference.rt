//! A link behind a reference is a link.

use crate::link::{Failed, Faults, Link, Sink, Source};

impl<F: Faults> Faults for &mut F {
    ghost left = { λ end. F.left end.now };

    ghost written = { λ end. F.written end.now };

    ghost sent = { λ end. F.sent end.now };

    ghost faults = { λ end. F.faults end.now };

    fn faults(&self) -> u64 {
        (**self).faults()
    }
}

impl<S: Source> Source for &mut S {
    fn read(&mut self, room: &mut [u8]) -> Result<usize, Failed> {
        (**self).read(room)
    }
}

impl<K: Sink> Sink for &mut K {
    fn write(&mut self, bytes: &[u8]) -> Result<usize, Failed> {
        (**self).write(bytes)
    }

    fn flush(&mut self) -> Result<(), Failed> {
        (**self).flush()
    }
}

impl<L: Link> Link for &mut L {}
