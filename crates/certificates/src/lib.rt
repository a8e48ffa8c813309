//! Certificates: what a backup store holds, as bytes that anyone can judge. For each host the ids that its tables and its partial name, and
//! its counts; for each file of the pool the digest of the bytes that were found in it. The crate knows the layout: it reads
//! it without memory, and writes its parts; what is right of a certificate is judged above it.
//!
//! A certificate is sealed, as the files of a store are. [`read_certificate`] takes exactly the bytes of the layout, and tells the first offset
//! at which other bytes break it.
#![tactic(auto)]

mod bytes;
mod laws;
mod order;
mod reading;
mod records;
mod tables;
mod writing;

pub use bytes::{CertificateBytes, HostBytes, Run, TableBytes};
pub use laws::what_is_written_is_read;
pub use reading::{read_certificate, read_host};
pub use tables::read_table;
pub use writing::{put_file, put_head, put_ids, put_item, put_table};
