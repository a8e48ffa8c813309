//! The fields that every file of a store is made of, the grammars that layouts are said by, and the seal at a file's
//! end. It knows bytes and numbers, and nothing of files or of what is stored. Its main clauses: what a reader's method
//! gives is the one value whose print stands there, and a sealed file is read exactly where its seal and all of its body are
//! right (`ReadsField`, `ReadsSealed` of specs/).
//!
//! Numbers are big-endian. A counted text is its length as a number, and then its bytes. A flag is one byte, 0 or 1.
//! A magic is a fixed text. A sealed file is its body, and then the 16 bytes of the body's MD5 (RFC 1321).
//!
//! Each kind of field is written by a `put_` function and read by a method of [`Reader`]. What is read is the layout
//! of the value that is given, and each layout is read back, whatever follows it (`ReadsField`). The clauses `exact` say the
//! same by functions on the bytes, for readers of whole records to be made of; `here` says that a fault tells where the
//! field begins, so that `?` may carry it on.
//!
//! A layout is a `Grammar` (specs/Grammar.antt): which values fit, the print of each, and the first offset at which bytes
//! break it. `XMK1`, an epoch, and at most sixteen numbers above 0, each of which breaks at its first byte, is
//!
//! ```text
//! followed_by (magic XMK1) (λ _. followed_by (number w64 (IsNumber w64)) (λ _.
//!     counted w8 (λ n. n ≤ 16) (λ _. IsMark) (number_bytes w32)))
//! ```
//!
//! and `seen_as` makes it one of a record. Its file is read by
//!
//! ```text
//! let mut reader = Reader::of_sealed(file)?;
//! reader.read_magic(b"XMK1")?;
//! let epoch = reader.read_u64()?;
//! let marks = read_marks(alloc, &mut reader)?;
//! reader.finish()?;
//! ```
//!
//! with the clause `ReadsSealed offset_of view grammar file.now result`; GrammarLaws, ItemLaws and SealedLaws have a law for
//! each exit of such a reader.
#![tactic(auto)]

mod fault;
mod kinds;
mod reader;
mod sealing;
mod writing;

pub use fault::{BadSeal, FieldFault, TrailingBytes};
pub use kinds::no_field_begins_another;
pub use reader::Reader;
pub use sealing::{open_sealed, seal};
pub use writing::{
    put_bytes, put_flag, put_i64, put_text8, put_text16, put_u8, put_u16, put_u32, put_u64,
};
