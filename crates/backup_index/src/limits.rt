//! The numbers that the rules of the files name.

/// How many hosts a store has at most.
pub const MAX_HOSTS: usize = 1_024;

/// The greatest next number of a host, 2^32: the numbers of its backups are below it.
pub const MAX_NEXT: u64 = 4_294_967_296;
