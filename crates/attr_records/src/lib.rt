//! Paths, the names of hosts, the targets of links, and trees: what stands at a path, and what may be put
//! there. It knows bytes and the order of lists alone. The main clause: a put is refused with the first rule
//! that it breaks, and a put that breaks none leaves a tree, in which the parent of each path is a directory.
//!
//! | Type | What it is |
//! |---|---|
//! | `PathName`, `HostName`, `LinkTarget` | bytes that keep the rules of their kind |
//! | `Attr` | mode, owner, group of users, time to the nanosecond |
//! | `File`, `Dir`, `Link`; `Item` | what stands at a path of a tree; one of the three |
//! | `PutRule` | the first rule that a put breaks |
//!
//! `broken_put(alloc, &tree, &path, &item)?` is `None` if the item may be put at the path.
#![tactic(auto)]

mod limits;
mod names;
mod nodes;
mod paths;
mod trees;

pub use limits::{
    MAX_COMPONENT_BYTES, MAX_FILE_BYTES, MAX_HOST_NAME_BYTES, MAX_MODE, MAX_NANOS, MAX_PATH_BYTES,
    MAX_PATHS, MAX_TARGET_BYTES,
};
pub use names::{BadHostName, BadTarget, HostName, LinkTarget, is_host_name, is_link_target};
pub use nodes::{Attr, Dir, File, Item, Link};
pub use paths::{
    BadPath, PathName, broken_path_rule, compare, compare_components, is_within, parent,
};
pub use trees::{PutRule, broken_put, broken_put_file, remove};
