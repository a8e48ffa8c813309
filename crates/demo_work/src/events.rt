//! The event of an ask.

ghost use Rattle.std.specs.Prelude.{◌≡◌, None, IfOk};
ghost use Rattle.office_model.specs.declared.event.Event.TheVariants as E;
ghost use Rattle.office_model.specs.declared.event.PutItem.TheVariants.{Whole};
ghost use Rattle.demo_work.specs.Asks.{host_name, dir_path, file_path, word_of, repeated, file_item, dir_item, demo_rules, event_of};

use crate::asks::Ask;
use attr_records::{Attr, Dir, File, HostName, Item, PathName};
use backup_rules::{KeepCounts, Kind, RuleChange, Rules, Setting};
use disk_trait::Bytes;
use office_model::{Event, PutItem, SessionName};
use short_text::ShortText;
use std::alloc::{AllocError, Global};
use stream_traits::Moment;

/// The name of a host.
#[tactic(auto, unfolding(crate::specs::Asks::host_name))]
fn host_name(alloc: Global, host: u64) -> Result<HostName, AllocError>
    ensures { IfOk result (λ name. name ≡ host_name host) }
{
    let mut text = ShortText::new();
    text.push(b"h");
    text.push_number(host);
    match HostName::read(alloc, text.as_slice()) {
        Ok(name) => Ok(name),
        Err(_) => Err(AllocError),
    }
}

/// The path of these bytes.
fn path_of(alloc: Global, text: &ShortText) -> Result<PathName, AllocError>
    ensures { IfOk result (λ path. path ≡ text.now) }
{
    match PathName::read(alloc, text.as_slice()) {
        Ok(path) => Ok(path),
        Err(_) => Err(AllocError),
    }
}

/// The path of a directory.
#[tactic(auto, unfolding(crate::specs::Asks::dir_path))]
fn dir_path(alloc: Global, dir: u64) -> Result<PathName, AllocError>
    ensures { IfOk result (λ path. path ≡ dir_path dir) }
{
    let mut text = ShortText::new();
    text.push(b"d");
    text.push_number(dir);
    path_of(alloc, &text)
}

/// The path of a file in a directory.
#[tactic(auto, unfolding(crate::specs::Asks::file_path))]
fn file_path(alloc: Global, dir: u64, file: u64) -> Result<PathName, AllocError>
    ensures { IfOk result (λ path. path ≡ file_path dir file) }
{
    let mut text = ShortText::new();
    text.push(b"d");
    text.push_number(dir);
    text.push(b"/f");
    text.push_number(file);
    path_of(alloc, &text)
}

/// The letter `v` and a value.
#[tactic(auto, unfolding(crate::specs::Asks::word_of))]
fn word_of(value: u64) -> ShortText
    ensures { result ≡ word_of value }
{
    let mut text = ShortText::new();
    text.push(b"v");
    text.push_number(value);
    text
}

/// A word, so many times.
fn repeated(alloc: Global, times: u64, word: &[u8]) -> Result<Bytes, AllocError>
    ensures { IfOk result (λ bytes. bytes ≡ repeated times word.now) }
{
    let mut bytes = Vec::new(alloc);
    for _time in 0..times {
        bytes.extend_from_slice(word)?;
    }
    Ok(Bytes::from_vec(bytes))
}

/// A file with the default attributes.
fn file_item(alloc: Global, value: u64, times: u64) -> Result<Item, AllocError>
    ensures { IfOk result (λ item. item ≡ file_item value times) }
{
    let word = word_of(value);
    let bytes = repeated(alloc, times, word.as_slice())?;
    Ok(Item::File(File {
        attr: Attr::file_default(),
        group: 0,
        bytes,
    }))
}

/// The default rules, but every seventh backup stays filled, and of the filled ones 4, 2 and 3 are kept at growing distances.
#[tactic(auto, unfolding(crate::specs::Asks::demo_rules))]
fn demo_rules(alloc: Global) -> Result<Rules, AllocError>
    ensures { IfOk result (λ rules. rules ≡ demo_rules) }
{
    let Some(counts) = KeepCounts::from_vec(Vec::from_slice(alloc, &[4, 2, 3])?) else {
        return Err(AllocError);
    };
    let mut change = RuleChange::none();
    let Ok(()) = change.set(Setting::FillCycle, 7) else {
        return Err(AllocError);
    };
    change.set_full_keep_cnt(counts);
    Rules::defaults(alloc)?.changed(alloc, &change)
}

/// A host is added.
fn add_host(alloc: Global, host: u64) -> Result<Event, AllocError>
    ensures { IfOk result (λ event. event ≡ E.AddHost (host_name host) demo_rules) }
{
    let host = host_name(alloc, host)?;
    let rules = demo_rules(alloc)?;
    Ok(Event::AddHost { host, rules })
}

/// A host's dump is opened.
fn open_dump(alloc: Global, host: u64, kind: Kind, now: Moment) -> Result<Event, AllocError>
    ensures { IfOk result (λ event. event ≡ E.OpenDump (host_name host) kind now None) }
{
    let host = host_name(alloc, host)?;
    Ok(Event::OpenDump {
        host,
        kind,
        now,
        token: None,
    })
}

/// A directory with the default attributes is put.
fn put_dir(alloc: Global, dump: SessionName, dir: u64) -> Result<Event, AllocError>
    ensures { IfOk result (λ event. event ≡ E.Put dump (dir_path dir) (Whole dir_item) None) }
{
    let path = dir_path(alloc, dir)?;
    let item = PutItem::Whole(Item::Dir(Dir {
        attr: Attr::dir_default(),
    }));
    Ok(Event::Put {
        dump,
        path,
        item,
        token: None,
    })
}

/// A file is put.
fn put_file(
    alloc: Global,
    dump: SessionName,
    dir: u64,
    file: u64,
    value: u64,
    times: u64,
) -> Result<Event, AllocError>
    ensures { IfOk result (λ event. event ≡ E.Put dump (file_path dir file) (Whole (file_item value times)) None) }
{
    let path = file_path(alloc, dir, file)?;
    let item = PutItem::Whole(file_item(alloc, value, times)?);
    Ok(Event::Put {
        dump,
        path,
        item,
        token: None,
    })
}

/// A file is removed.
fn remove(alloc: Global, dump: SessionName, dir: u64, file: u64) -> Result<Event, AllocError>
    ensures { IfOk result (λ event. event ≡ E.Remove dump (file_path dir file) None) }
{
    let path = file_path(alloc, dir, file)?;
    Ok(Event::Remove {
        dump,
        path,
        token: None,
    })
}

/// A host is expired.
fn expire(alloc: Global, host: u64, now: Moment) -> Result<Event, AllocError>
    ensures { IfOk result (λ event. event ≡ E.Expire (host_name host) now) }
{
    let host = host_name(alloc, host)?;
    Ok(Event::Expire { host, now })
}

/// A host's backups are listed.
fn backups(alloc: Global, host: u64) -> Result<Event, AllocError>
    ensures { IfOk result (λ event. event ≡ E.Backups (host_name host)) }
{
    let host = host_name(alloc, host)?;
    Ok(Event::Backups { host })
}

/// A backup is opened.
fn open_read(alloc: Global, host: u64, number: u32) -> Result<Event, AllocError>
    ensures { IfOk result (λ event. event ≡ E.OpenRead (host_name host) number None) }
{
    let host = host_name(alloc, host)?;
    Ok(Event::OpenRead {
        host,
        number,
        base: None,
    })
}

/// The event of an ask, by the dump that was opened last; or want of memory.
pub(crate) fn event_of(alloc: Global, dump: SessionName, ask: &Ask) -> Result<Event, AllocError>
    ensures { IfOk result (λ event. event ≡ event_of dump ask.now) }
{
    match ask {
        Ask::AddHost { host } => add_host(alloc, *host),
        Ask::OpenDump { host, kind, now } => open_dump(alloc, *host, *kind, *now),
        Ask::PutDir { dir } => put_dir(alloc, dump, *dir),
        Ask::PutFile {
            dir,
            file,
            value,
            times,
        } => put_file(alloc, dump, *dir, *file, *value, *times),
        Ask::Remove { dir, file } => remove(alloc, dump, *dir, *file),
        Ask::Commit { now } => Ok(Event::Commit { dump, now: *now }),
        Ask::Expire { host, now } => expire(alloc, *host, *now),
        Ask::Clean { bucket } => Ok(Event::Clean { bucket: *bucket }),
        Ask::Sweep => Ok(Event::Sweep),
        Ask::Stats => Ok(Event::Stats),
        Ask::Backups { host } => backups(alloc, *host),
        Ask::OpenRead { host, number } => open_read(alloc, *host, *number),
        Ask::ReadNext { restore } => Ok(Event::ReadNext { restore: *restore }),
        Ask::CloseRead { restore } => Ok(Event::CloseRead { restore: *restore }),
    }
}
