//! How many files of a store may be open.

/// How many handles of written files are kept at most.
const MOST_HANDLES: usize = 1_024;

/// How many files the program has open beside them at most: streams, connections, the folder, its lock, files that are read.
const OTHERS: usize = 40;

/// How many handles of written files may be kept, by the system's limit on open files.
pub fn most_handles() -> usize {
    let mut limit = libc::types::rlimit {
        rlim_cur: 0,
        rlim_max: 0,
    };
    if libc::getrlimit(libc::RLIMIT_NOFILE, &mut limit) != 0 {
        return 1;
    }
    let open = usize::try_from(limit.rlim_cur).unwrap_or(usize::MAX);
    open.saturating_sub(OTHERS).min(MOST_HANDLES)
}
