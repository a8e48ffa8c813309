//! The migration of a store over any `Port`: all tables of backups that are of the first layout are written anew in the second. It knows
//! events and their answers alone, and no store. The main clause is that of [`migrate`], `Works` of specs/Ends: the calls follow the
//! script of a migration, `migration_script` of specs/Script: the hosts are asked for, and each is migrated in order of adding; it ends at
//! the first refusal, and then those before it are migrated.
//!
//! | Function | Gives |
//! |---|---|
//! | `migrate` | `Works`: how it ended, by the calls |
//! | `a_migration_changes_no_office` | laws over legal histories: the office stays, and no host with old tables is left |
//! | `MigrationEnd::text` | `text_of`: `migrated 3` with a line feed, of three hosts |
//!
//! ```text
//! let end = migrate(alloc, &mut port);
//! if let Some(text) = end.text() {
//!     write_all(&mut link, text.as_slice())?;
//! }
//! ```
#![tactic(auto)]

mod ends;
mod laws;
mod work;

pub use ends::MigrationEnd;
pub use laws::a_migration_changes_no_office;
pub use work::migrate;
