//! Tables: what is stored of a tree, a record for each path, in the order of the paths, and the files of tables. It knows
//! paths, attributes, content ids and bytes, and neither contents nor trees. The main clause: `read_table` gives the table
//! whose file the bytes are and refuses all other bytes with the first offset at which they break the layout, and
//! `write_table` writes the file of each table, by one grammar (`table_grammar` of specs/).
//!
//! | Type | What it is |
//! |---|---|
//! | `Record`, `StoredFile` | what a table says of a path; a file by its content id |
//! | `Row` | a path and its record, with a content exactly where the size isn't 0 |
//! | `Table` | rows in the order of their paths |
//! | `TableLayout`, `TableFile` | `RTB1` or `RTB2`; a table with the layout that it was read in |
//!
//! `let file = read_table(alloc, &bytes)?` reads either layout; `write_table(alloc, &file.table)?` is always the second.
//! A further layout that has rows of a table is read by `next_row` and written by `put_rows`.
#![tactic(auto)]

mod file;
mod layouts;
mod reading;
mod records;
mod rows;
mod table;
mod writing;

pub use file::{TableFault, TableFile, next_row, read_table};
pub use layouts::TableLayout;
pub use records::{Record, StoredFile};
pub use rows::Row;
pub use table::{PushFault, Table, find, is_after};
pub use writing::{put_rows, write_table};
