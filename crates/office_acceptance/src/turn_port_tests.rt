ghost use Rattle.std.specs.Prelude.{◌≡◌};

use disk_trait::{DiskRoom, MemoryDisk};
use office_model::Port;
use office_talks::{NOW, Row, event_at, expect_rows, moment_at};
use pool_name::Md5Namer;
use std::alloc::Global;
use std::sync::Wait;
use std::test::Fail;
use tree_office::TreeOffice;
use turn_port::{DirectPort, Store, StorePass, StoreTurn, TurnPort, close_store, lock_store};

type TestTurn = StoreTurn<MemoryDisk, Md5Namer>;

type TestPass = StorePass<MemoryDisk, Md5Namer>;

type TestPort<'a, R> = TurnPort<'a, MemoryDisk, Md5Namer, R>;

const ROOM: DiskRoom = DiskRoom {
    changes: 200,
    bytes: 20_000,
};

const OPEN: &str = "POST /hosts/pc1/dumps?kind=full";

const OTHER_OPEN: &str = "POST /hosts/pc2/dumps?kind=full";

const PUT: &str = "PUT /dumps/1-0/entry?path=a&kind=file";

const OTHER_PUT: &str = "PUT /dumps/1-1/entry?path=a&kind=file";

const READ: &str = "GET /hosts/pc1/backups/0/file?path=a";

const OTHER_READ: &str = "GET /hosts/pc2/backups/0/file?path=a";

fn blank_store(alloc: Global) -> Result<Store<MemoryDisk, Md5Namer>, Fail> {
    match Store::open(
        alloc,
        MemoryDisk::new(alloc, Vec::new(alloc), ROOM)?,
        Md5Namer,
    ) {
        Ok(store) => Ok(store),
        Err(_) => Err(Fail::new("not opened")),
    }
}

/// Asks one port and the office in memory, which answer alike.
fn ask_alike<R: Wait>(
    alloc: Global,
    office: &mut TreeOffice<Md5Namer>,
    port: &mut TestPort<'_, R>,
    ask: &str,
    body: &str,
) -> Result<(), Fail>
    ensures own { port.new.pass.seat.table_id ≡ port.old.pass.seat.table_id }
{
    let event = event_at(alloc, moment_at(NOW), ask, body)?;
    let got = format!(in alloc; "{:?}", port.call(alloc, &event))?;
    let want = format!(in alloc; "{:?}", office.call(alloc, &event))?;
    if got.as_str() == want.as_str() {
        return Ok(());
    }
    Err(Fail::new("other replies than in memory"))
}

/// Two callers ask by turns, each of a host of its own, and then of the other's.
fn ask_by_turns<R: Wait>(
    alloc: Global,
    office: &mut TreeOffice<Md5Namer>,
    left: &mut TestPort<'_, R>,
    right: &mut TestPort<'_, R>,
) -> Result<(), Fail>
    ensures left { left.new.pass.seat.table_id ≡ left.old.pass.seat.table_id }
    ensures right { right.new.pass.seat.table_id ≡ right.old.pass.seat.table_id }
{
    ask_alike(alloc, office, left, "PUT /hosts/pc1", "")?;
    ask_alike(alloc, office, right, "PUT /hosts/pc1", "")?;
    ask_alike(alloc, office, right, "PUT /hosts/pc2", "")?;
    ask_alike(alloc, office, left, OPEN, "")?;
    ask_alike(alloc, office, right, OTHER_OPEN, "")?;
    ask_alike(alloc, office, right, OTHER_PUT, "right")?;
    ask_alike(alloc, office, left, PUT, "left")?;
    ask_alike(alloc, office, right, "POST /dumps/1-1/commit", "")?;
    ask_alike(alloc, office, left, READ, "")?;
    ask_alike(alloc, office, left, "POST /dumps/1-0/commit", "")?;
    ask_alike(alloc, office, right, READ, "")?;
    ask_alike(alloc, office, left, OTHER_READ, "")?;
    ask_alike(alloc, office, left, "GET /stats", "")?;
    ask_alike(alloc, office, right, "GET /hosts", "")
}

/// Two passes ask by turns, and come back.
fn serve_by_turns<R: Wait>(
    rt: &R,
    alloc: Global,
    turn: &TestTurn,
    first: TestPass,
    second: TestPass,
) -> (Result<(), Fail>, TestPass, TestPass)
    requires first { first.seat.table_id ≡ turn.now.table.shared.table_id }
    requires second { second.seat.table_id ≡ turn.now.table.shared.table_id }
    ensures first { result.1.seat.table_id ≡ turn.now.table.shared.table_id }
    ensures second { result.2.seat.table_id ≡ turn.now.table.shared.table_id }
{
    let mut office = TreeOffice::new(alloc, Md5Namer);
    let mut left = TurnPort::new(rt, turn, first);
    let mut right = TurnPort::new(rt, turn, second);
    let seen = ask_by_turns(alloc, &mut office, &mut left, &mut right);
    (seen, left.into_pass(), right.into_pass())
}

/// The store that came back has both hosts' backups, also after a reopening.
const BOTH: [Row; 4] = [
    Row("POST /reopen", "", "{\"epoch\":2}"),
    Row(READ, "", "left"),
    Row(OTHER_READ, "", "right"),
    Row(
        "GET /stats",
        "",
        "{\"backups\":2,\"bytes\":9,\"dumps\":0,\"files\":2,\"hosts\":2,\"marked\":0,\"restores\":0}",
    ),
];

#[test]
fn two_callers_are_answered_as_by_one_office(rt: HostRuntime) -> Result<(), Fail> {
    let alloc = rt.alloc();
    let mut others = Vec::with_capacity(alloc, 1)?;
    let Ok((turn, mut first)) = lock_store(alloc, blank_store(alloc)?) else {
        return Err(Fail::new("no memory"));
    };
    let second = turn.pass(&mut first);
    let (seen, first, second) = serve_by_turns(&rt, alloc, &turn, first, second);
    others.push_reserved(second);
    let store = close_store(&rt, turn, first, others);
    seen?;
    expect_rows(alloc, &mut DirectPort::new(store), moment_at(NOW), &BOTH)
}
