use std::alloc::Global;
use std::test::Fail;
use stream_traits::{Failed, Faults, Link, MemoryLink, Sink, Source};

/// A link that gives and takes one byte at a time.
#[derive(Drop)]
pub struct SlowLink {
    pub link: MemoryLink,
}

impl Faults for SlowLink {
    ghost use Rattle.std.specs.Prelude.{Some};
    ghost use Rattle.stream_traits.specs.Memory.{bytes_left, bytes_written, bytes_sent, fault_count};

    ghost left = { λ slow. Some (bytes_left slow.link) };

    ghost written = { λ slow. Some (bytes_written slow.link) };

    ghost sent = { λ slow. Some (bytes_sent slow.link) };

    ghost faults = { λ slow. fault_count slow.link };

    fn faults(&self) -> u64 {
        self.link.faults()
    }
}

impl Source for SlowLink {
    fn read(&mut self, room: &mut [u8]) -> Result<usize, Failed> {
        let most = room.len().min(1);
        match self.link.read(&mut room[..most]) {
            Ok(count) => Ok(count),
            Err(Failed) => Err(Failed),
        }
    }
}

impl Sink for SlowLink {
    fn write(&mut self, bytes: &[u8]) -> Result<usize, Failed> {
        let most = bytes.len().min(1);
        match self.link.write(&bytes[..most]) {
            Ok(count) => Ok(count),
            Err(Failed) => Err(Failed),
        }
    }

    fn flush(&mut self) -> Result<(), Failed> {
        match self.link.flush() {
            Ok(()) => Ok(()),
            Err(Failed) => Err(Failed),
        }
    }
}

impl Link for SlowLink {}

/// A link in memory with this input, and room for `room` written bytes.
pub fn link_of(alloc: Global, input: &[u8], room: usize) -> Result<MemoryLink, Fail> {
    let link = MemoryLink::new(alloc, input.to_vec(alloc)?, room, Vec::new(alloc))?;
    Ok(link)
}
