//! The pool is listed part by part, and its contents are given piece by piece, also where a file was altered.

use crate::altered::{
    Parts, alter, expect_ready, expect_replies, is_damaged, parts_with_stage, pool_file,
};
use crate::contents::content_of;
use crate::ports::{Steps, expect};
use disk_trait::{FileId, PoolId};
use office_asks::Ask;
use office_model::{Answer, BrokenRule, PIECE_LIMIT, Refusal};
use pool_index::IndexItem;
use std::alloc::Global;
use std::test::Fail;
use store_checks::{pool_list, pool_piece};

/// The stage is a content of the dump's tree, and staged in the pool.
const PUT: Steps = &[(Ask::PutStage(0, "a", 0), "done")];

/// Then it is one of a backup.
const COMMITTED: Steps = &[(Ask::Commit(0), "0")];

/// The reply of a piece.
fn piece_at(
    alloc: Global,
    parts: &mut Parts,
    id: PoolId,
    from: u64,
) -> Result<Result<Answer, Refusal>, Fail> {
    expect_ready(parts)?;
    Ok(pool_piece(parts, alloc, id, from))
}

/// Whether a reply is a piece with these bytes.
fn is_piece(reply: &Result<Answer, Refusal>, bytes: &[u8]) -> bool {
    match reply {
        Ok(Answer::Part(piece)) => piece.as_slice() == bytes,
        _ => false,
    }
}

/// Whether a reply says that no pooled content has the name.
fn is_no_content(reply: &Result<Answer, Refusal>) -> bool {
    matches!(reply, Err(Refusal::Broken(BrokenRule::NoContent)))
}

/// Whether a reply lists just this, or nothing.
fn is_listed(reply: &Result<Answer, Refusal>, listed: Option<IndexItem>) -> bool {
    match reply {
        Ok(Answer::PoolItems(items)) => match (items.as_slice().first(), listed) {
            (Some(item), Some(listed)) => items.as_slice().len() == 1 && *item == listed,
            (None, None) => true,
            _ => false,
        },
        _ => false,
    }
}

/// Fails where a part of the pool isn't just this.
fn expect_part(
    alloc: Global,
    parts: &Parts,
    part: u8,
    listed: Option<IndexItem>,
) -> Result<(), Fail> {
    expect(
        is_listed(&pool_list(parts, alloc, part), listed),
        "another listing",
    )
}

/// Fails where no piece of the name is refused as one of none.
fn expect_no_content(alloc: Global, parts: &mut Parts, id: PoolId) -> Result<(), Fail> {
    let reply = piece_at(alloc, parts, id, 0)?;
    expect(is_no_content(&reply), "a content is there")
}

/// Fails where the pieces of a content are others than its bytes, or there are more.
fn expect_pieces(alloc: Global, parts: &mut Parts, id: PoolId, bytes: &[u8]) -> Result<(), Fail> {
    let mut from = 0u64;
    for piece in bytes.chunks(PIECE_LIMIT) {
        let reply = piece_at(alloc, parts, id, from)?;
        expect(is_piece(&reply, piece), "another piece")?;
        from = from.saturating_add(piece.len() as u64);
    }
    for past in [from, u64::MAX] {
        let reply = piece_at(alloc, parts, id, past)?;
        expect(is_piece(&reply, b""), "a piece past the end")?;
    }
    Ok(())
}

/// A content that is put is staged, and not one of the pool; behind the commit it is listed in its part alone, and given.
#[test]
fn a_content_is_listed_and_given(rt: HostRuntime) -> Result<(), Fail> {
    let alloc = rt.alloc();
    let bytes = content_of(alloc, PIECE_LIMIT + 5)?;
    let id = pool_file(bytes.as_slice());
    let part = id.digest[0];
    let mut parts = parts_with_stage(alloc, bytes.as_slice())?;
    expect_replies(alloc, &mut parts, PUT)?;
    expect_part(alloc, &parts, part, None)?;
    expect_no_content(alloc, &mut parts, id)?;
    expect_replies(alloc, &mut parts, COMMITTED)?;
    let item = IndexItem {
        id,
        size: bytes.len() as u64,
        mark: false,
    };
    expect_part(alloc, &parts, part, Some(item))?;
    expect_part(alloc, &parts, part ^ 1, None)?;
    expect_part(alloc, &parts, part ^ 128, None)?;
    expect_pieces(alloc, &mut parts, id, bytes.as_slice())?;
    let other = PoolId {
        digest: id.digest,
        extension: 1,
    };
    expect_no_content(alloc, &mut parts, other)
}

/// Fails where the second piece of a content whose file is altered so isn't told, with these bytes that are left of it.
fn expect_told(alloc: Global, altered: Option<&[u8]>, left: Option<&[u8]>) -> Result<(), Fail> {
    let bytes = content_of(alloc, PIECE_LIMIT + 5)?;
    let id = pool_file(bytes.as_slice());
    let mut parts = parts_with_stage(alloc, bytes.as_slice())?;
    expect_replies(alloc, &mut parts, PUT)?;
    expect_replies(alloc, &mut parts, COMMITTED)?;
    alter(&mut parts, FileId::Pool(id), altered)?;
    let reply = piece_at(alloc, &mut parts, id, PIECE_LIMIT as u64)?;
    expect(
        is_damaged(&reply, FileId::Pool(id), left),
        "the content isn't named",
    )
}

#[test]
fn an_altered_content_is_told(rt: HostRuntime) -> Result<(), Fail> {
    expect_told(rt.alloc(), None, None)?;
    expect_told(rt.alloc(), Some(b"hello"), Some(b""))
}
