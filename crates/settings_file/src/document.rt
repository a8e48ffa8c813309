//! The document of the settings file.

ghost use Rattle.std.specs.Prelude.{◌≡◌, Some, None, IfOk, IfErr, IsUtf8, option_map};
ghost use Rattle.toml.specs.Data.{get_member};
ghost use Rattle.toml.specs.Parse.{parse_document};
ghost use Rattle.toml.specs.View.{view, table_view};
ghost use Rattle.settings_file.specs.Document.{IsNoTable};

use crate::fault::SettingsFault;
use std::alloc::Global;
use toml::{Table, Value};

/// Reads the bytes as a table.
pub fn read_table(alloc: Global, bytes: &[u8]) -> Result<Table, SettingsFault>
    ensures utf8 { IfOk result (λ _. IsUtf8 bytes.now) }
    ensures ok { IfOk result (λ table. parse_document bytes.now ≡ Some (table_view table)) }
    ensures err { IfErr result (IsNoTable bytes.now) }
{
    match toml::table_from_slice(alloc, bytes) {
        Ok(table) => Ok(table),
        Err(fault) => {
            if fault.is_memory() {
                Err(SettingsFault::Memory)
            } else {
                Err(SettingsFault::NotToml)
            }
        }
    }
}

/// The value at a key.
pub fn value_at<'a>(table: &'a Table, key: &str) -> Option<&'a Value>
    ensures { option_map (λ value. view value.now) result ≡ get_member key.now (table_view table.now) }
{
    table.get(key)
}
