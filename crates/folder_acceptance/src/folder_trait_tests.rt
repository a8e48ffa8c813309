use crate::folders::{What, expect, folder, item, mixed, path};
use crate::told::told_nothing;
use attr_records::{Attr, Dir};
use folder_trait::{Count, Folder, FolderFault, MemoryFolder};
use std::alloc::Global;
use std::test::Fail;

#[test]
fn counts_stand_still_at_the_largest_number(_rt: HostRuntime) -> Result<(), Fail> {
    let mut told = told_nothing();
    let mut count = Count::new(&mut told);
    count.add(2, u64::MAX);
    count.add(1, 1);
    expect(told.entries == 3, "other entries")?;
    expect(told.bytes == u64::MAX, "other bytes")
}

/// What is asked of a folder of mixed entries, and fails.
enum Ask {
    List(&'static str),
    Read(&'static str),
    Make(&'static str),
    Append(&'static str),
    Link(&'static str, &'static str),
    Finish(&'static str),
}

const FAILING: &[Ask] = &[
    Ask::List("no"),
    Ask::List("g"),
    Ask::Read("no"),
    Ask::Read("d"),
    Ask::Read("l"),
    Ask::Make("g"),
    Ask::Make("no/x"),
    Ask::Make("g/x"),
    Ask::Make("l/x"),
    Ask::Append("no"),
    Ask::Append("d"),
    Ask::Append("l"),
    Ask::Append("g"),
    Ask::Link("no/x", "g"),
    Ask::Link("x", "d"),
    Ask::Link("g", "h"),
    Ask::Finish("no"),
    Ask::Finish("g"),
];

fn make(alloc: Global, folder: &mut MemoryFolder, name: &str) -> Result<Option<FolderFault>, Fail> {
    let path = path(alloc, name)?;
    let item = item(alloc, &What::File("x"))?;
    Ok(folder.make(alloc, &path, &item).err())
}

fn link(
    alloc: Global,
    folder: &mut MemoryFolder,
    name: &str,
    earlier: &str,
) -> Result<Option<FolderFault>, Fail> {
    let place = path(alloc, name)?;
    let earlier = path(alloc, earlier)?;
    Ok(folder.link(alloc, &place, &earlier).err())
}

/// How a folder fails.
fn fault(alloc: Global, folder: &mut MemoryFolder, ask: &Ask) -> Result<Option<FolderFault>, Fail> {
    match ask {
        Ask::List(name) => Ok(folder.list(alloc, Some(&path(alloc, name)?)).err()),
        Ask::Read(name) => Ok(folder.read(alloc, &path(alloc, name)?).err()),
        Ask::Make(name) => make(alloc, folder, name),
        Ask::Append(name) => Ok(folder.append(alloc, &path(alloc, name)?, b"x").err()),
        Ask::Link(name, earlier) => link(alloc, folder, name, earlier),
        Ask::Finish(name) => {
            let attr = Attr::dir_default();
            Ok(
                folder
                    .finish(alloc, &path(alloc, name)?, &Dir { attr })
                    .err(),
            )
        }
    }
}

#[test]
fn folder_in_memory_fails_what_isnt_there_or_is_taken(rt: HostRuntime) -> Result<(), Fail> {
    let alloc = rt.alloc();
    let mut folder = folder(alloc, mixed())?;
    let mut faults = 0u64;
    for ask in FAILING {
        faults = faults.saturating_add(1);
        expect(
            fault(alloc, &mut folder, ask)? == Some(FolderFault::Failed),
            "no fault",
        )?;
        expect(folder.faults() == faults, "another count")?;
    }
    Ok(())
}
