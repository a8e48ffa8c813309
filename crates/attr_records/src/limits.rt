//! The limits that the rules name: each number has its home here. The definitions state them as numbers.

/// The largest mode: twelve bits (07777).
pub const MAX_MODE: u16 = 4095;

/// The most nanoseconds behind the seconds of a time.
pub const MAX_NANOS: u32 = 999_999_999;

/// The most bytes of a path (PATH_MAX).
pub const MAX_PATH_BYTES: usize = 4096;

/// The most bytes of a component of a path (NAME_MAX).
pub const MAX_COMPONENT_BYTES: usize = 255;

/// The most bytes of a link's target.
pub const MAX_TARGET_BYTES: usize = 4096;

/// The most bytes of the name of a host.
pub const MAX_HOST_NAME_BYTES: usize = 64;

/// The most paths of a tree.
pub const MAX_PATHS: usize = 1_048_576;

/// The most bytes of a file of a tree.
pub const MAX_FILE_BYTES: u64 = 67_108_864;

const _: () = prove!(MAX_MODE == 4095);

const _: () = prove!(MAX_NANOS == 999_999_999);

const _: () = prove!(MAX_PATH_BYTES == 4096);

const _: () = prove!(MAX_COMPONENT_BYTES == 255);

const _: () = prove!(MAX_TARGET_BYTES == 4096);

const _: () = prove!(MAX_HOST_NAME_BYTES == 64);

const _: () = prove!(MAX_PATHS == 1_048_576);

const _: () = prove!(MAX_FILE_BYTES == 67_108_864);
