ghost use Rattle.std.specs.Prelude.{◌≡◌, IfOk};
ghost use Rattle.std.specs.List.{list_any};
ghost use Rattle.std.specs.Option.{option_copied};
ghost use Rattle.office_model.specs.Pool.{holds, cleaned, fated, with_kept};
ghost use Rattle.office_model.specs.Office.{partial_holds, host_holds, in_hosts, in_dumps, in_bases, in_restores};
ghost use Rattle.office_model.specs.events.Clean.{is_protected, in_bucket};

use crate::readers::{Reader, in_readers};
use office_model::{Fate, fate_of};
use pool_name::Namer;
use std::alloc::{AllocError, Global};
use std::collections::BTreeMap;
use tree_parts::{Backup, Content, Dump, Host, Partial, counted, holds};
use tree_restores::Restore;

/// Whether the tree of a partial, if there is one, has a File of these bytes.
pub fn partial_holds(partial: Option<&Partial>, content: &[u8]) -> bool
    ensures { result ≡ partial_holds (option_copied partial.entry) content.now }
{
    match partial {
        None => false,
        Some(partial) => holds(partial.tree(), content),
    }
}

/// Whether the tree of a backup has a File of these bytes.
fn in_backups(backups: &[Backup], content: &[u8]) -> bool
    ensures { result ≡ list_any (λ backup. holds backup.tree content.now) backups.now }
{
    backups.iter().any(|backup| holds(backup.tree(), content))
}

/// Whether a tree of a host's backups or of its partial has a File of these bytes.
pub fn host_holds(host: &Host, content: &[u8]) -> bool
    ensures { result ≡ host_holds host.now content.now }
{
    in_backups(host.backups(), content) || partial_holds(host.partial(), content)
}

pub fn in_hosts(hosts: &[Host], content: &[u8]) -> bool
    ensures { result ≡ in_hosts hosts.now content.now }
{
    hosts.iter().any(|host| host_holds(host, content))
}

pub fn in_dumps(dumps: &[Dump], content: &[u8]) -> bool
    ensures { result ≡ in_dumps dumps.now content.now }
{
    dumps.iter().any(|dump| holds(dump.tree(), content))
}

pub fn in_bases(dumps: &[Dump], content: &[u8]) -> bool
    ensures { result ≡ in_bases dumps.now content.now }
{
    dumps.iter().any(|dump| holds(dump.base(), content))
}

pub fn in_restores(restores: &[Restore], content: &[u8]) -> bool
    ensures { result ≡ in_restores restores.now content.now }
{
    restores
        .iter()
        .any(|restore| holds(restore.tree(), content))
}

/// Whether a backup, a partial, an open dump or an open restore holds a content, or an open reader gives it.
pub fn is_protected(
    hosts: &[Host],
    dumps: &[Dump],
    restores: &[Restore],
    readers: &[Reader],
    content: &[u8],
) -> bool
    ensures { result ≡ is_protected hosts.now dumps.now restores.now readers.now content.now }
{
    in_hosts(hosts, content)
        || in_dumps(dumps, content)
        || in_bases(dumps, content)
        || in_restores(restores, content)
        || in_readers(readers, content)
}

/// Whether the bucket is that of a content.
pub fn in_bucket<N: Namer>(namer: N, bucket: u8, content: &[u8]) -> bool
    ensures { result ≡ in_bucket N.digest_of bucket content.now }
{
    let digest = namer.name(content);
    digest[0] / 16 == bucket
}

/// Puts a content that stays into a pool, or want of memory.
pub fn add_kept(
    alloc: Global,
    pool: &mut BTreeMap<Content, bool>,
    content: &Content,
    kept: Option<bool>,
) -> Result<(), AllocError>
    ensures { IfOk result (λ _. pool.new.entries ≡ with_kept pool.old.entries content.now kept) }
{
    let Some(mark) = kept else {
        return Ok(());
    };
    let content = Content::from_slice(alloc, content.as_slice())?;
    pool.insert(content, mark)?;
    Ok(())
}

/// The pool after a bucket was cleaned, or want of memory.
pub fn cleaned<N: Namer>(
    alloc: Global,
    namer: N,
    bucket: u8,
    pool: &BTreeMap<Content, bool>,
    hosts: &[Host],
    dumps: &[Dump],
    restores: &[Restore],
    readers: &[Reader],
) -> Result<BTreeMap<Content, bool>, AllocError>
    ensures { IfOk result (λ new. new.entries ≡ cleaned (in_bucket N.digest_of bucket) (is_protected hosts.now dumps.now restores.now readers.now) pool.now.entries) }
{
    let mut new = BTreeMap::new(alloc);
    for (content, mark) in pool.iter() {
        let inside = in_bucket(namer, bucket, content.as_slice());
        let protected = is_protected(hosts, dumps, restores, readers, content.as_slice());
        let kept = fate_of(inside, protected, *mark).mark_after(*mark);
        add_kept(alloc, &mut new, content, kept)?;
    }
    Ok(new)
}

/// How many contents have this fate where a bucket is cleaned.
pub fn fated<N: Namer>(
    namer: N,
    bucket: u8,
    wanted: Fate,
    pool: &BTreeMap<Content, bool>,
    hosts: &[Host],
    dumps: &[Dump],
    restores: &[Restore],
    readers: &[Reader],
) -> u64
    ensures { result ≡ fated (in_bucket N.digest_of bucket) (is_protected hosts.now dumps.now restores.now readers.now) wanted pool.now.entries }
{
    let mut count = 0;
    for (content, mark) in pool.iter() {
        let inside = in_bucket(namer, bucket, content.as_slice());
        let protected = is_protected(hosts, dumps, restores, readers, content.as_slice());
        let fate = fate_of(inside, protected, *mark);
        count = counted(count, fate.is_same(wanted));
    }
    count
}
