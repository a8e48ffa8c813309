//! The query of a request's target: its decoded pairs (`application/x-www-form-urlencoded`, as the URL standard has it), the
//! first rule that they break, and the numbers that values write. The crate knows bytes and keys, and no route; its main clause
//! is that `broken_rule` gives the first broken rule, `broken_query_rule keys pairs`.
//!
//! | Item | What it is |
//! |---|---|
//! | `Query` | the decoded pairs, in order |
//! | `Key` | a key that a route takes, and whether it must be there |
//! | `QueryRule` | the rules, in the order in which they are judged |
//! | `read_number`, `read_mode`, `read_seconds` | what the text of a value writes |
//!
//! ```text
//! let query = Query::read(alloc, b"path=a%2Fb&kind=file")?;
//! assert_eq!(query.value("path"), Some("a/b"));
//! ```
#![tactic(auto)]

mod keys;
mod numbers;
mod query;
mod scan;

pub use keys::{Key, QueryRule};
pub use numbers::{read_mode, read_seconds};
pub use query::Query;
pub use scan::{read_number, strip};
