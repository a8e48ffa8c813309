ghost use Rattle.std.specs.Prelude.{◌≡◌, false, OnOk, IfOk};
ghost use Rattle.intent_journal.specs.Changes.{AreChanges};

use attr_records::{Attr, File, HostName, Item, PathName};
use backup_rules::{Kind, RuleChange, Rules, Setting};
use disk_trait::{Bytes, DiskRoom, FileId, MemoryDisk};
use intent_journal::{Change, Changes};
use office_model::{Answer, BrokenRule, Refusal};
use pool_name::Md5Namer;
use std::alloc::{AllocError, Global};
use std::test::Fail;
use store_commits::commit_dump;
use store_deletions::{delete, expire};
use store_dumps::{open_dump, put};
use store_hosts::{add_host, keep, set_rules};
use store_opening::{open, reopen};
use store_parts::StoreParts;
use store_reads::read_file;
use stream_traits::Moment;

type Parts = StoreParts<MemoryDisk, Md5Namer>;

const ROOM: DiskRoom = DiskRoom {
    changes: 400,
    bytes: 100_000,
};

// What is asked of the one host.
#[derive(Clone, Copy)]
enum Ask {
    Add,
    Set(Setting, u32),
    // A dump of one file of these bytes, committed.
    Commit(&'static [u8]),
    Keep(u32, bool),
    Delete(u32),
    Expire,
    // The file of a backup.
    Read(u32),
    Reopen,
    // The table of a backup is taken away.
    Lose(u32),
}

// What is answered.
#[derive(Clone, Copy)]
enum Want {
    Done,
    Number(u32),
    Count(u32),
    Bytes(&'static [u8]),
    Broken(BrokenRule),
    Damaged,
}

// What is asked, and the answer.
struct Step(Ask, Want);

// By the cycle backup 0 stays filled, and those behind it are stored as what differs from the next newer one.
const STEPS: [Step; 33] = [
    Step(Ask::Delete(0), Want::Broken(BrokenRule::NoHost)),
    Step(Ask::Expire, Want::Broken(BrokenRule::NoHost)),
    Step(Ask::Add, Want::Done),
    Step(Ask::Delete(0), Want::Broken(BrokenRule::NoBackup)),
    Step(Ask::Expire, Want::Count(0)),
    Step(Ask::Set(Setting::FillCycle, 7), Want::Done),
    Step(Ask::Commit(b"first"), Want::Number(0)),
    Step(Ask::Commit(b"second"), Want::Number(1)),
    Step(Ask::Commit(b"third"), Want::Number(2)),
    Step(Ask::Commit(b"second"), Want::Number(3)),
    Step(Ask::Read(2), Want::Bytes(b"third")),
    Step(Ask::Delete(2), Want::Done),
    Step(Ask::Delete(2), Want::Broken(BrokenRule::NoBackup)),
    Step(Ask::Read(0), Want::Bytes(b"first")),
    Step(Ask::Read(1), Want::Bytes(b"second")),
    Step(Ask::Read(2), Want::Broken(BrokenRule::NoBackup)),
    Step(Ask::Read(3), Want::Bytes(b"second")),
    Step(Ask::Reopen, Want::Number(2)),
    Step(Ask::Read(0), Want::Bytes(b"first")),
    Step(Ask::Read(1), Want::Bytes(b"second")),
    Step(Ask::Read(3), Want::Bytes(b"second")),
    Step(Ask::Expire, Want::Count(0)),
    Step(Ask::Set(Setting::IncrKeepCnt, 0), Want::Done),
    Step(Ask::Expire, Want::Count(1)),
    Step(Ask::Read(0), Want::Bytes(b"first")),
    Step(Ask::Read(1), Want::Broken(BrokenRule::NoBackup)),
    Step(Ask::Keep(0, true), Want::Done),
    Step(Ask::Delete(0), Want::Broken(BrokenRule::Kept)),
    Step(Ask::Delete(3), Want::Done),
    Step(Ask::Keep(0, false), Want::Done),
    Step(Ask::Reopen, Want::Number(3)),
    Step(Ask::Read(0), Want::Bytes(b"first")),
    Step(Ask::Delete(0), Want::Done),
];

// By the cycle backups 0, 3 and 6 stay filled. Where 2 goes, the tables of 1 to 3 are read, and no other is missed; where 5 goes,
// its older neighbour's is.
const LOSING_STEPS: [Step; 15] = [
    Step(Ask::Add, Want::Done),
    Step(Ask::Set(Setting::FillCycle, 3), Want::Done),
    Step(Ask::Commit(b"first"), Want::Number(0)),
    Step(Ask::Commit(b"second"), Want::Number(1)),
    Step(Ask::Commit(b"third"), Want::Number(2)),
    Step(Ask::Commit(b"fourth"), Want::Number(3)),
    Step(Ask::Commit(b"fifth"), Want::Number(4)),
    Step(Ask::Commit(b"sixth"), Want::Number(5)),
    Step(Ask::Commit(b"seventh"), Want::Number(6)),
    Step(Ask::Lose(0), Want::Done),
    Step(Ask::Lose(4), Want::Done),
    Step(Ask::Delete(2), Want::Done),
    Step(Ask::Read(1), Want::Bytes(b"second")),
    Step(Ask::Read(3), Want::Bytes(b"fourth")),
    Step(Ask::Delete(5), Want::Damaged),
];

fn expect(holds: bool, text: &'static str) -> Result<(), Fail> {
    if holds { Ok(()) } else { Err(Fail::new(text)) }
}

fn expect_ready(parts: &Parts) -> Result<(), Fail>
    ensures store { OnOk result (parts.now.halted ≡ false) }
    ensures journal { OnOk result (parts.now.journal.halted ≡ false) }
{
    if parts.halted || parts.journal.halted() {
        return Err(Fail::new("halted"));
    }
    Ok(())
}

fn moment() -> Moment {
    Moment::new(1_700_000_000).unwrap_or(Moment::first())
}

fn path(alloc: Global) -> Result<PathName, Fail> {
    Ok(PathName::read(alloc, b"a")?)
}

fn file(alloc: Global, bytes: &[u8]) -> Result<Item, Fail> {
    Ok(Item::File(File {
        attr: Attr::file_default(),
        group: 0,
        bytes: Bytes::from_slice(alloc, bytes)?,
    }))
}

fn rule(setting: Setting, number: u32) -> Result<RuleChange, Fail> {
    let mut change = RuleChange::none();
    change.set(setting, number)?;
    Ok(change)
}

// A dump of one file, committed.
fn commit(
    alloc: Global,
    parts: &mut Parts,
    host: &HostName,
    bytes: &[u8],
) -> Result<Result<Answer, Refusal>, Fail> {
    expect_ready(parts)?;
    let dump = match open_dump(parts, alloc, host, Kind::Full, moment(), None) {
        Ok(Answer::Dump(dump)) => dump,
        _ => return Err(Fail::new("no dump")),
    };
    expect_ready(parts)?;
    match put(
        parts,
        alloc,
        dump,
        &path(alloc)?,
        &file(alloc, bytes)?,
        None,
    ) {
        Ok(Answer::Done) => {}
        _ => return Err(Fail::new("not put")),
    }
    expect_ready(parts)?;
    Ok(commit_dump(parts, alloc, dump, moment()))
}

// The change that takes the table of a backup of the one host away.
fn without_table(alloc: Global, number: u32) -> Result<Changes, AllocError>
    ensures { IfOk result AreChanges }
{
    let change = Change {
        file: FileId::Table(0, number),
        bytes: None,
    };
    Ok(Changes::from_vec(Vec::from_array(alloc, [change])?))
}

// The table of a backup is taken away.
fn lose(alloc: Global, parts: &mut Parts, number: u32) -> Result<Result<Answer, Refusal>, Fail> {
    expect_ready(parts)?;
    let changes = without_table(alloc, number)?;
    parts.journal.commit(alloc, &changes)?;
    Ok(Ok(Answer::Done))
}

fn carry_out(
    alloc: Global,
    parts: &mut Parts,
    host: &HostName,
    ask: Ask,
) -> Result<Result<Answer, Refusal>, Fail> {
    expect_ready(parts)?;
    match ask {
        Ask::Add => Ok(add_host(parts, alloc, host, &Rules::defaults(alloc)?)),
        Ask::Set(setting, number) => Ok(set_rules(parts, alloc, host, &rule(setting, number)?)),
        Ask::Commit(bytes) => commit(alloc, parts, host, bytes),
        Ask::Keep(number, on) => Ok(keep(parts, alloc, host, number, on)),
        Ask::Delete(number) => Ok(delete(parts, alloc, host, number)),
        Ask::Expire => Ok(expire(parts, alloc, host, moment())),
        Ask::Read(number) => Ok(read_file(parts, alloc, host, number, &path(alloc)?)),
        Ask::Reopen => Ok(reopen(parts, alloc, Md5Namer)),
        Ask::Lose(number) => lose(alloc, parts, number),
    }
}

// Whether an answer is the one that is wanted.
fn is_wanted(answer: &Result<Answer, Refusal>, want: Want) -> bool {
    match (answer, want) {
        (Ok(Answer::Done), Want::Done) => true,
        (Ok(Answer::Committed(number)), Want::Number(n)) => *number == n,
        (Ok(Answer::Reopened(epoch)), Want::Number(n)) => *epoch == u64::from(n),
        (Ok(Answer::Expired(count)), Want::Count(n)) => *count == n,
        (Ok(Answer::Content(found)), Want::Bytes(bytes)) => found.as_slice() == bytes,
        (Err(Refusal::Broken(rule)), Want::Broken(broken)) => *rule == broken,
        (Err(Refusal::Damaged { .. }), Want::Damaged) => true,
        _ => false,
    }
}

// What is behind all of these steps, from a disk without files on.
fn carry_out_all(alloc: Global, steps: &[Step]) -> Result<Parts, Fail> {
    let host = HostName::read(alloc, b"pc1")?;
    let disk = MemoryDisk::new(alloc, Vec::new(alloc), ROOM)?;
    let Ok(mut parts) = open(alloc, disk, Md5Namer) else {
        return Err(Fail::new("not opened"));
    };
    for step in steps {
        let answer = carry_out(alloc, &mut parts, &host, step.0)?;
        expect(is_wanted(&answer, step.1), "another answer")?;
    }
    Ok(parts)
}

#[test]
fn a_deletion_misses_no_table_outside_of_its_window(rt: HostRuntime) -> Result<(), Fail> {
    let _parts = carry_out_all(rt.alloc(), &LOSING_STEPS)?;
    Ok(())
}

#[test]
fn backups_leave_and_the_others_stay(rt: HostRuntime) -> Result<(), Fail> {
    let parts = carry_out_all(rt.alloc(), &STEPS)?;
    let left = parts.catalog.hosts().first();
    expect(
        left.is_some_and(|index| index.lines().is_empty()),
        "backups are left",
    )
}
