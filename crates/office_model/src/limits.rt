//! The limits of bytes that come or go in pieces.

/// The most bytes of one content.
pub const CONTENT_LIMIT: u64 = 1_099_511_627_775;

/// The most bytes of a file that one answer holds.
pub const ANSWER_LIMIT: u64 = 67_108_864;

/// The most bytes of a piece of a stage, and those of a part of a reader.
pub const PIECE_LIMIT: usize = 65_536;

const _: () = prove!(CONTENT_LIMIT == 1_099_511_627_775);

const _: () = prove!(ANSWER_LIMIT == 67_108_864);

const _: () = prove!(PIECE_LIMIT == 65_536);
