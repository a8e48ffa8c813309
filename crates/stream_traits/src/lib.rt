//! Streams of bytes and clocks, as traits that real and made-up ends share.
#![tactic(auto)]

mod by_reference;
mod clock;
mod gate;
mod link;
mod memory;
mod memory_clock;
mod reading;
mod writing;

pub use clock::{Clock, Moment};
pub use gate::{Gate, OpenGate};
pub use link::{Failed, Faults, Link, Sink, Source};
pub use memory::MemoryLink;
pub use memory_clock::{FixedClock, ListClock};
pub use reading::{ReadFault, read_byte, read_exactly};
pub use writing::write_all;
