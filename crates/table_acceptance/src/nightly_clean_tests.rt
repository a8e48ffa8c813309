use attr_records::{Attr, PathName};
use attr_tables::{Record, Row, StoredFile, Table};
use disk_trait::{DiskRoom, MemoryDisk, PoolId};
use intent_journal::Journal;
use nightly_clean::clean;
use pool_changes::Slot;
use pool_name::Md5Namer;
use pool_store::Pool;
use ref_counts::{Counts, count_tables};
use std::alloc::Global;
use std::test::Fail;

const ROOM: DiskRoom = DiskRoom {
    changes: 1_000,
    bytes: 100_000,
};

// The bucket of `hello`, whose MD5 begins with 5d (RFC 1321).
const BUCKET: u8 = 5;

#[derive(Drop)]
struct Office {
    journal: Journal<MemoryDisk>,
    pool: Pool<Md5Namer>,
}

fn open(alloc: Global) -> Result<Office, Fail> {
    let disk = MemoryDisk::new(alloc, Vec::new(alloc), ROOM)?;
    let Ok(mut journal) = Journal::open(alloc, disk) else {
        return Err(Fail::new("the journal doesn't open"));
    };
    if journal.halted() {
        return Err(Fail::new("halted"));
    }
    let pool = Pool::open(alloc, &mut journal, Md5Namer)?;
    Ok(Office { journal, pool })
}

impl Office {
    // Puts `hello`, and claims it.
    fn put(&mut self, alloc: Global) -> Result<PoolId, Fail> {
        if self.journal.halted() {
            return Err(Fail::new("halted"));
        }
        let id = self
            .pool
            .match_or_stage(alloc, &mut self.journal, b"hello")?;
        Ok(id)
    }

    // Commits that the index lists it.
    fn list(&mut self, alloc: Global, id: PoolId) -> Result<(), Fail> {
        match self.pool.slot(id) {
            Some(Slot::Staged { .. }) => {}
            _ => return Err(Fail::new("not staged")),
        }
        let change = self.pool.settle(alloc, &[id])?;
        self.journal.commit(alloc, change.changes())?;
        self.pool.accept(change);
        Ok(())
    }

    // Lets go of its one claim.
    fn release(&mut self, id: PoolId) -> Result<(), Fail> {
        match self.pool.slot(id) {
            Some(Slot::Live { claims: 1, .. }) => {}
            _ => return Err(Fail::new("not claimed once")),
        }
        self.pool.release(id);
        Ok(())
    }

    // Cleans its bucket: how many gain the mark, lose it and leave.
    fn expect_cleaned(
        &mut self,
        alloc: Global,
        counts: &[Counts],
        wanted: (u64, u64, u64),
    ) -> Result<(), Fail> {
        let cleaning = clean(alloc, &self.pool, counts, BUCKET)?;
        if (cleaning.marked, cleaning.unmarked, cleaning.removed) != wanted {
            return Err(Fail::new("other numbers"));
        }
        self.journal.commit(alloc, cleaning.change.changes())?;
        self.pool.accept(cleaning.change);
        Ok(())
    }
}

// The counts of a host with one backup of one file.
fn counts_of(alloc: Global, id: PoolId) -> Result<Counts, Fail> {
    let mut table = Table::new(alloc);
    let file = StoredFile {
        attr: Attr::file_default(),
        group: 0,
        size: 5,
        content: Some(id),
    };
    table.push(Row::new(PathName::read(alloc, b"a.txt")?, Record::File(file)))?;
    Ok(count_tables(alloc, &[table])?)
}

#[test]
fn a_content_leaves_when_a_second_cleaning_finds_it_uncalled_for(
    rt: HostRuntime,
) -> Result<(), Fail> {
    let alloc = rt.alloc();
    let mut office = open(alloc)?;
    let id = office.put(alloc)?;
    office.list(alloc, id)?;
    office.expect_cleaned(alloc, &[], (0, 0, 0))?;
    office.release(id)?;
    let counts = [counts_of(alloc, id)?];
    office.expect_cleaned(alloc, &counts, (0, 0, 0))?;
    office.expect_cleaned(alloc, &[], (1, 0, 0))?;
    office.expect_cleaned(alloc, &counts, (0, 1, 0))?;
    office.expect_cleaned(alloc, &[], (1, 0, 0))?;
    let again = office.put(alloc)?;
    office.expect_cleaned(alloc, &[], (0, 1, 0))?;
    office.release(again)?;
    office.expect_cleaned(alloc, &[], (1, 0, 0))?;
    office.expect_cleaned(alloc, &[], (0, 0, 1))?;
    office.expect_cleaned(alloc, &[], (0, 0, 0))?;
    if office.pool.stats().files != 0 {
        return Err(Fail::new("it is there still"));
    }
    Ok(())
}
