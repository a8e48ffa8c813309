//! What the program's types hold, as the codec says it.

ghost use Rattle.std.specs.Prelude.{◌≡◌, true};
ghost use Rattle.pull_codec.specs.Codec.{is_session};
ghost use Rattle.push_codec.specs.Ranges.{are_attributes, is_item, is_place, is_path, is_put, is_ranged};

use attr_records::{Attr, Item, PathName};
use office_model::{Event, PutItem, SessionName};

/// Both numbers of a session's name have 64 bits.
fn session_fits(name: SessionName)
    ensures { is_session name ≡ true }
{
    let _epoch = name.epoch;
    let _sequence = name.sequence;
}

/// Attributes have their bits.
fn attributes_fit(attr: &Attr)
    ensures { are_attributes attr.now ≡ true }
{
    let _mode = attr.mode();
    let _uid = attr.uid();
    let _gid = attr.gid();
    let _mtime = attr.mtime();
    let _nanos = attr.nanos();
}

/// So do those of an item, and its group.
fn item_fits(item: &Item)
    ensures { is_item item.now ≡ true }
{
    match item {
        Item::File(file) => {
            let _group = file.group;
            attributes_fit(&file.attr);
        }
        Item::Dir(dir) => attributes_fit(&dir.attr),
        Item::Link(link) => {
            let _target = link.target.as_slice();
            attributes_fit(&link.attr);
        }
    }
}

/// A path breaks no rule.
fn path_fits(path: &PathName)
    ensures { is_path path.now ≡ true }
{
    let _bytes = path.as_slice();
}

/// Nor does that of a directory.
fn place_fits(directory: &Option<PathName>)
    ensures { is_place directory.now ≡ true }
{
    match directory {
        None => {}
        Some(path) => path_fits(path),
    }
}

/// What is put is in its ranges.
fn put_fits(item: &PutItem)
    ensures { is_put item.now ≡ true }
{
    match item {
        PutItem::Whole(item) => item_fits(item),
        PutItem::Staged(_) => {}
    }
}

/// An event is in its ranges.
pub(crate) fn event_fits(event: &Event)
    ensures { is_ranged event.now ≡ true }
{
    match event {
        Event::OpenDump { host, .. } | Event::Backups { host } => {
            let _name = host.as_slice();
        }
        Event::Put {
            dump,
            path,
            item,
            ..
        } => {
            session_fits(*dump);
            path_fits(path);
            put_fits(item);
        }
        Event::Remove { dump, path, .. } => {
            session_fits(*dump);
            path_fits(path);
        }
        Event::Commit { dump, .. } | Event::Abort { dump } => session_fits(*dump),
        Event::List {
            host,
            number,
            directory,
        } => {
            let _name = host.as_slice();
            let _number = *number;
            place_fits(directory);
        }
        _ => {}
    }
}
