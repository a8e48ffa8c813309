//! The lists of hosts and of backups.

ghost use Rattle.std.specs.Prelude.{◌≡◌, ◌++◌, map, OnOk, IfOk};
ghost use Rattle.serde_json.specs.Data.{string};
ghost use Rattle.reply_bodies.specs.Objects.{json_list, json_text, data_tokens};
ghost use Rattle.reply_bodies.specs.Replies.{line_data, dump_data, hosts_data, backups_data};

use crate::json_text::JsonText;
use crate::texts::{host_text, kind_text};
use attr_records::HostName;
use backup_rules::Line;
use disk_trait::Bytes;
use office_model::{HostList, LineList, SessionName};
use std::alloc::{AllocError, Global};

/// Appends the list of these names.
fn push_hosts(text: &mut JsonText, names: &[HostName]) -> Result<(), AllocError>
    ensures { OnOk result (text.new ≡ text.old ++ data_tokens (json_list (map string names.now))) }
{
    text.begin_array()?;
    for name in names {
        text.push_string(host_text(name))?;
    }
    text.end_array()?;
    Ok(())
}

/// Appends a line.
fn push_line(text: &mut JsonText, line: &Line) -> Result<(), AllocError>
    ensures { OnOk result (text.new ≡ text.old ++ data_tokens (line_data line.now)) }
{
    text.begin_object()?;
    text.push_count("end", line.end)?;
    text.push_flag("filled", line.filled)?;
    text.push_flag("keep", line.keep)?;
    text.push_text("kind", kind_text(line.kind))?;
    text.push_count("number", u64::from(line.number))?;
    text.push_count("start", line.start)?;
    text.end_object()?;
    Ok(())
}

/// Appends the list of these lines.
fn push_lines(text: &mut JsonText, lines: &[Line]) -> Result<(), AllocError>
    ensures { OnOk result (text.new ≡ text.old ++ data_tokens (json_list (map line_data lines.now))) }
{
    text.begin_array()?;
    for line in lines {
        push_line(text, line)?;
    }
    text.end_array()?;
    Ok(())
}

/// Appends the name of a session, or null.
fn push_dump(
    alloc: Global,
    text: &mut JsonText,
    dump: Option<SessionName>,
) -> Result<(), AllocError>
    ensures { OnOk result (text.new ≡ text.old ++ data_tokens (dump_data dump)) }
{
    match dump {
        Some(name) => {
            let name = format!(in alloc; "{name}")?;
            text.push_string(&name)
        }
        None => text.push_null(),
    }
}

/// The body that tells the names of all hosts.
pub fn hosts_body(alloc: Global, names: &HostList) -> Result<Bytes, AllocError>
    ensures { IfOk result (λ body. body ≡ json_text (hosts_data names.now)) }
{
    let mut text = JsonText::new(alloc);
    text.begin_object()?;
    text.push_key("hosts")?;
    push_hosts(&mut text, names.as_slice())?;
    text.end_object()?;
    Ok(text.into_bytes())
}

/// The body that tells the backups of a host, the number of the next, and the open dump.
pub fn backups_body(
    alloc: Global,
    lines: &LineList,
    next: u64,
    dump: Option<SessionName>,
) -> Result<Bytes, AllocError>
    ensures { IfOk result (λ body. body ≡ json_text (backups_data lines.now next dump)) }
{
    let mut text = JsonText::new(alloc);
    text.begin_object()?;
    text.push_key("backups")?;
    push_lines(&mut text, lines.as_slice())?;
    text.push_key("dump")?;
    push_dump(alloc, &mut text, dump)?;
    text.push_count("next", next)?;
    text.end_object()?;
    Ok(text.into_bytes())
}
