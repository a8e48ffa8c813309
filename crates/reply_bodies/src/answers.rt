ghost use Rattle.std.specs.Prelude.{◌≡◌, ◌≤◌, [], ◌∷◌, codes, length, true, IfOk, IfErr};
ghost use Rattle.std.specs.Option.{option_map};
ghost use Rattle.receipts.specs.Session.{session_text};
ghost use Rattle.reply_bodies.specs.Objects.{Text as TextValue, Count, Flag, object_text};
ghost use Rattle.reply_bodies.specs.Replies.{done_fields, stats_fields, kind_text, due_text, short_fields, long_body, takes_memory};

use crate::entries::{entries_body, node_body};
use crate::frames::next_body;
use crate::lists::{backups_body, hosts_body};
use crate::members::{counted, empty, named, push_count, push_flag, push_text};
use backup_rules::Kind;
use disk_trait::Bytes;
use office_model::{Answer, Event, OfficeStats, SessionName};
use short_text::ShortText;
use std::alloc::{AllocError, Global};

/// The body of a short answer, none if the answer isn't short.
pub fn answer_text(event: &Event, answer: &Answer) -> Option<ShortText>
    ensures { result ≡ option_map (λ fields. object_text fields) (short_fields event.now answer.now) }
{
    match answer {
        Answer::Done => Some(done_text(event)),
        Answer::Dump(name) => Some(named(b"dump", session_name(*name).as_slice())),
        Answer::Committed(number) => Some(counted(b"number", u64::from(*number))),
        Answer::Already(number) => Some(counted(b"number", u64::from(*number))),
        Answer::Partial {
            entries,
            kind,
            start,
        } => Some(partial_text(*entries, *kind, *start)),
        Answer::Stage(number) => Some(counted(b"stage", *number)),
        Answer::Opened { reader, size } => Some(opened_text(*reader, *size)),
        Answer::Restore(name) => Some(named(b"restore", session_name(*name).as_slice())),
        Answer::Expired(count) => Some(counted(b"deleted", u64::from(*count))),
        Answer::Contacts { good, bad } => Some(contacts_text(*good, *bad)),
        Answer::Due { blackout, kind } => Some(due_object(*blackout, *kind)),
        Answer::Cleaned {
            marked,
            unmarked,
            removed,
        } => Some(cleaned_text(*marked, *unmarked, *removed)),
        Answer::Stats(stats) => Some(stats_text(stats)),
        Answer::PoolItems(items) => Some(counted(b"files", items.as_slice().len() as u64)),
        Answer::Reopened(epoch) => Some(counted(b"epoch", *epoch)),
        _ => None,
    }
}

/// The body of a longer answer, none if the answer is short or the bytes of a file; or want of memory, for a longer answer alone.
pub fn answer_body(alloc: Global, answer: &Answer) -> Result<Option<Bytes>, AllocError>
    ensures made { IfOk result (λ body. body ≡ long_body answer.now) }
    ensures memory { IfErr result (λ _. takes_memory answer.now ≡ true) }
{
    match answer {
        Answer::Entries(entries) => Ok(Some(entries_body(alloc, entries)?)),
        Answer::Entry(node) => Ok(Some(node_body(alloc, node)?)),
        Answer::Hosts(names) => Ok(Some(hosts_body(alloc, names)?)),
        Answer::Backups { lines, next, dump } => {
            Ok(Some(backups_body(alloc, lines, *next, *dump)?))
        }
        Answer::Next(frame) => Ok(Some(next_body(alloc, frame)?)),
        _ => Ok(None),
    }
}

/// The body of the answer to an event that was done and gives nothing.
fn done_text(event: &Event) -> ShortText
    ensures { result ≡ object_text (done_fields event.now) }
{
    match event {
        Event::AddHost { host, .. } => named(b"host", host.as_slice()),
        _ => empty(),
    }
}

/// How many paths a partial has, its kind, and its start.
#[tactic(auto, unfolding(crate::specs::Objects::object_text))]
fn partial_text(entries: u64, kind: Kind, start: u64) -> ShortText
    ensures { result ≡ object_text ((codes "entries", Count entries) ∷ (codes "kind", TextValue (kind_text kind)) ∷ (codes "start", Count start) ∷ []) }
{
    let kind = due_text(Some(kind));
    let mut text = ShortText::new();
    text.push(b"{");
    push_count(&mut text, false, b"entries", entries);
    push_text(&mut text, true, b"kind", kind.as_bytes());
    push_count(&mut text, true, b"start", start);
    text.push(b"}");
    text
}

/// The number of a reader, and how many bytes it gives.
#[tactic(auto, unfolding(crate::specs::Objects::object_text))]
fn opened_text(reader: u64, size: u64) -> ShortText
    ensures { result ≡ object_text ((codes "reader", Count reader) ∷ (codes "size", Count size) ∷ []) }
{
    let mut text = ShortText::new();
    text.push(b"{");
    push_count(&mut text, false, b"reader", reader);
    push_count(&mut text, true, b"size", size);
    text.push(b"}");
    text
}

/// The counts of a host's contacts.
#[tactic(auto, unfolding(crate::specs::Objects::object_text))]
fn contacts_text(good: u32, bad: u32) -> ShortText
    ensures { result ≡ object_text ((codes "bad", Count bad) ∷ (codes "good", Count good) ∷ []) }
{
    let mut text = ShortText::new();
    text.push(b"{");
    push_count(&mut text, false, b"bad", u64::from(bad));
    push_count(&mut text, true, b"good", u64::from(good));
    text.push(b"}");
    text
}

/// What is due, as a text.
fn due_text(kind: Option<Kind>) -> &'static str
    ensures value { result.now ≡ due_text kind }
    ensures short { length result.now ≤ 64 }
{
    match kind {
        Some(Kind::Full) => "full",
        Some(Kind::Incr) => "incr",
        None => "none",
    }
}

/// Whether a host is blacked out, and what is due.
#[tactic(auto, unfolding(crate::specs::Objects::object_text))]
fn due_object(blackout: bool, kind: Option<Kind>) -> ShortText
    ensures { result ≡ object_text ((codes "blackout", Flag blackout) ∷ (codes "due", TextValue (due_text kind)) ∷ []) }
{
    let due = due_text(kind);
    let mut text = ShortText::new();
    text.push(b"{");
    push_flag(&mut text, false, b"blackout", blackout);
    push_text(&mut text, true, b"due", due.as_bytes());
    text.push(b"}");
    text
}

/// What a cleaning did.
#[tactic(auto, unfolding(crate::specs::Objects::object_text))]
fn cleaned_text(marked: u64, unmarked: u64, removed: u64) -> ShortText
    ensures { result ≡ object_text ((codes "marked", Count marked) ∷ (codes "removed", Count removed) ∷ (codes "unmarked", Count unmarked) ∷ []) }
{
    let mut text = ShortText::new();
    text.push(b"{");
    push_count(&mut text, false, b"marked", marked);
    push_count(&mut text, true, b"removed", removed);
    push_count(&mut text, true, b"unmarked", unmarked);
    text.push(b"}");
    text
}

/// The numbers of an office.
#[tactic(auto, unfolding(crate::specs::Objects::object_text))]
fn stats_text(stats: &OfficeStats) -> ShortText
    ensures { result ≡ object_text (stats_fields stats.now) }
{
    let mut text = ShortText::new();
    text.push(b"{");
    push_count(&mut text, false, b"backups", stats.backups);
    push_count(&mut text, true, b"bytes", stats.bytes);
    push_count(&mut text, true, b"dumps", stats.dumps);
    push_count(&mut text, true, b"files", stats.files);
    push_count(&mut text, true, b"hosts", stats.hosts);
    push_count(&mut text, true, b"marked", stats.marked);
    push_count(&mut text, true, b"restores", stats.restores);
    text.push(b"}");
    text
}

/// The name of a session.
fn session_name(session: SessionName) -> ShortText
    ensures value { result ≡ session_text session }
    ensures short { length result ≤ 64 }
{
    let mut text = ShortText::new();
    text.push_number(session.epoch);
    text.push(b"-");
    text.push_number(session.sequence);
    text
}
