ghost use Rattle.std.specs.Prelude.{◌≡◌, ◌+◌, ◌<◌, ◌^◌, OnOk, IfOk};

use attr_records::{Attr, Dir, PathName};
use attr_tables::{Record, Table};
use backup_rules::Kind;
use dump_session::{PutFault, RemoveFault, Session};
use office_model::SessionName;
use open_sessions::{OpenDump, OpenRestore, Sessions};
use receipts::TokenSet;
use shared_tables::SharedTable;
use std::alloc::{AllocError, Global};
use std::sync::Arc;
use std::test::Fail;

// What a call on a dump answers.
#[derive(Clone, Copy, PartialEq, Eq)]
enum Answer {
    Done,
    Broken,
    NoPath,
    NoSession,
    Memory,
}

// A put of a Dir (`d`) or a removal (`r`) in the dump of this sequence at this path, and its answer.
struct Step(u64, u8, &'static [u8], Answer);

const STEPS: [Step; 7] = [
    Step(0, b'd', b"a", Answer::Done),
    Step(1, b'd', b"a/b", Answer::Broken),
    Step(0, b'd', b"a/b", Answer::Done),
    Step(1, b'r', b"a", Answer::NoPath),
    Step(2, b'd', b"a", Answer::NoSession),
    Step(0, b'r', b"a", Answer::Done),
    Step(0, b'r', b"a/b", Answer::NoPath),
];

// A look-up of a dump (`d`) or a restore (`r`) by epoch and sequence, and the place that it gives.
struct LookUp(u8, u64, u64, Option<usize>);

const LOOK_UPS: [LookUp; 12] = [
    LookUp(b'd', 3, 0, Some(0)),
    LookUp(b'd', 3, 3, Some(2)),
    LookUp(b'd', 3, 8, Some(4)),
    LookUp(b'd', 3, 1, None),
    LookUp(b'd', 3, 9, None),
    LookUp(b'd', 2, 3, None),
    LookUp(b'r', 3, 1, Some(0)),
    LookUp(b'r', 3, 5, Some(2)),
    LookUp(b'r', 3, 7, Some(3)),
    LookUp(b'r', 3, 0, None),
    LookUp(b'r', 3, 8, None),
    LookUp(b'r', 4, 5, None),
];

fn expect(holds: bool, text: &'static str) -> Result<(), Fail> {
    if holds { Ok(()) } else { Err(Fail::new(text)) }
}

fn name_of(sequence: u64) -> SessionName
    ensures { result.sequence ≡ sequence }
{
    SessionName { epoch: 3, sequence }
}

// A full dump of a host.
fn dump_of(alloc: Global, sequence: u64, host: usize) -> Result<OpenDump, AllocError>
    ensures { IfOk result (λ dump. dump.name.sequence ≡ sequence) }
{
    Ok(OpenDump {
        name: name_of(sequence),
        host,
        kind: Kind::Full,
        start: 0,
        base: Arc::new(alloc, Table::new(alloc))?,
        hint: None,
        tree: Session::begin_full(alloc)?,
        token: None,
        kept: TokenSet::new(alloc),
    })
}

fn restore_of(alloc: Global, sequence: u64) -> Result<OpenRestore<u8>, AllocError>
    ensures { IfOk result (λ restore. restore.name.sequence ≡ sequence) }
{
    let rows = SharedTable::new(alloc, Table::new(alloc))?;
    Ok(OpenRestore::new(name_of(sequence), rows.share()?, Table::new(alloc), rows))
}

// Dumps 0 and 1 of the hosts 5 and 4, and restore 2.
fn opened(alloc: Global) -> Result<Sessions<u8>, Fail> {
    let mut sessions = Sessions::new(alloc);
    sessions.open_dump(dump_of(alloc, 0, 5)?)?;
    sessions.open_dump(dump_of(alloc, 1, 4)?)?;
    sessions.open_restore(restore_of(alloc, 2)?)?;
    Ok(sessions)
}

// Opens a dump (`d`) or a restore (`r`).
fn open_next(alloc: Global, sessions: &mut Sessions<u8>, kind: u8) -> Result<(), Fail> {
    let sequence = sessions.sequence;
    if sequence == u64::MAX {
        return Err(Fail::new("no number is left"));
    }
    if kind == b'd' {
        sessions.open_dump(dump_of(alloc, sequence, 5)?)?;
    } else {
        sessions.open_restore(restore_of(alloc, sequence)?)?;
    }
    Ok(())
}

// Dumps 0, 2, 3, 6 and 8, and restores 1, 4, 5 and 7.
fn several_opened(alloc: Global) -> Result<Sessions<u8>, Fail> {
    let mut sessions = Sessions::new(alloc);
    for kind in b"drddrrdrd" {
        open_next(alloc, &mut sessions, *kind)?;
    }
    Ok(sessions)
}

fn place_of(sessions: &Sessions<u8>, kind: u8, name: SessionName) -> Option<usize> {
    if kind == b'd' {
        sessions.dump_at(name)
    } else {
        sessions.restore_at(name)
    }
}

fn put(sessions: &mut Sessions<u8>, at: u64, path: PathName) -> Answer {
    let Some(index) = sessions.dump_at(name_of(at)) else {
        return Answer::NoSession;
    };
    let node = Record::Dir(Dir {
        attr: Attr::dir_default(),
    });
    match sessions.put(index, path, node, None) {
        Ok(()) => Answer::Done,
        Err(PutFault::Broken(_)) => Answer::Broken,
        Err(PutFault::Memory) => Answer::Memory,
    }
}

fn remove(alloc: Global, sessions: &mut Sessions<u8>, at: u64, path: &PathName) -> Answer {
    let Some(index) = sessions.dump_at(name_of(at)) else {
        return Answer::NoSession;
    };
    match sessions.remove(alloc, index, path, None) {
        Ok(()) => Answer::Done,
        Err(RemoveFault::NoPath) => Answer::NoPath,
        Err(RemoveFault::Memory) => Answer::Memory,
    }
}

#[test]
fn an_edit_goes_to_the_dump_of_its_name(rt: HostRuntime) -> Result<(), Fail> {
    let alloc = rt.alloc();
    let mut sessions = opened(alloc)?;
    for Step(at, call, path, wanted) in &STEPS {
        let path = PathName::read(alloc, path)?;
        let answer = match *call {
            b'r' => remove(alloc, &mut sessions, *at, &path),
            _ => put(&mut sessions, *at, path),
        };
        expect(answer == *wanted, "another answer")?;
    }
    Ok(())
}

#[test]
fn a_name_is_found_at_its_place_alone(rt: HostRuntime) -> Result<(), Fail> {
    let sessions = several_opened(rt.alloc())?;
    for LookUp(kind, epoch, sequence, wanted) in &LOOK_UPS {
        let name = SessionName {
            epoch: *epoch,
            sequence: *sequence,
        };
        let place = place_of(&sessions, *kind, name);
        expect(place == *wanted, "another place")?;
    }
    Ok(())
}

#[test]
fn what_is_behind_a_taken_one_moves_up(rt: HostRuntime) -> Result<(), Fail> {
    let alloc = rt.alloc();
    let mut sessions = opened(alloc)?;
    expect(sessions.sequence == 3, "another next number")?;
    expect(
        sessions.dump_of_host(4) == Some(1),
        "another dump of host 4",
    )?;
    let path = PathName::read(alloc, b"a")?;
    let answer = put(&mut sessions, 1, path.copy(alloc)?);
    expect(answer == Answer::Done, "no put")?;
    let Some(index) = sessions.dump_of_host(5) else {
        return Err(Fail::new("no dump of host 5"));
    };
    expect(sessions.take_dump(index).host == 5, "another dump")?;
    expect(sessions.dump_at(name_of(0)).is_none(), "a taken dump")?;
    let Some(index) = sessions.dump_at(name_of(1)) else {
        return Err(Fail::new("no dump 1"));
    };
    expect(index == 0, "another place")?;
    expect(sessions.find(index, &path).is_some(), "another tree")
}

#[test]
fn a_restore_is_found_until_it_is_taken(rt: HostRuntime) -> Result<(), Fail> {
    let mut sessions = opened(rt.alloc())?;
    let Some(index) = sessions.restore_at(name_of(2)) else {
        return Err(Fail::new("no restore"));
    };
    let restore = sessions.take_restore(index);
    expect(restore.name.sequence == 2, "another restore")?;
    expect(sessions.restore_at(name_of(2)).is_none(), "a taken restore")
}
