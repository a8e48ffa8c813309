//! Reads the stream of a tree.

ghost use Rattle.std.specs.Prelude.{◌≡◌, ◌≤◌, ◌+◌, ◌-◌, ◌⊎◌, min, length, IfOk, IfErr, IfSome, IsErrOf, IsTrue, ◌↔◌, ◌++◌, List, ℕ, Some, MatchResult};
ghost use Rattle.std.specs.Option.{option_map};
ghost use Rattle.fault_counts.specs.Counts.{Counted};
ghost use Rattle.stream_traits.specs.Told.{before};
ghost use Rattle.attr_records.specs.declared.nodes.Item.{Item as ItemValue};
ghost use Rattle.attr_records.specs.Items.{Tree};
ghost use Rattle.tree_frames.specs.Frames.{pieces};
ghost use Rattle.restore_stream.specs.Layouts.{entry_bytes, tail_length, magic, stream_bytes};
ghost use Rattle.restore_stream.specs.Reading.{Reads, ReadsExactly, IsOther};
ghost use Rattle.restore_stream.specs.Streams.{u8_field, bytes_field_of, pieces_layout, size_of, item_of, row_layout, row_step, rows_layout, stream_layout};
ghost use Rattle.restore_stream.specs.Trees.{IsMadeTree};

use crate::entries::{read_entry, read_piece, read_this_u32};
use crate::faults::ReadStreamFault;
use crate::fields::{fill, read_u8};
use crate::frames::MAX_PIECE_BYTES;
use crate::made::{Made, MadeList};
use attr_records::{File, Item, PathName};
use disk_trait::Bytes;
use std::alloc::Global;
use stream_traits::{Faults, Source};
use tree_frames::Node;

/// An offset this much further on. There is no memory for what would lie behind the largest one.
fn further(offset: usize, count: usize) -> Result<usize, ReadStreamFault>
    ensures sum { IfOk result (λ sum. sum ≡ offset + count) }
    ensures err { IfErr result (λ fault. fault ≡ ReadStreamFault.Memory) }
{
    match offset.checked_add(count) {
        Some(sum) => Ok(sum),
        None => Err(ReadStreamFault::Memory),
    }
}

/// How many bytes the next piece has, of a file of which so many are left.
fn piece_len(left: u64) -> usize
    ensures value { result ≡ min 65536 left }
    ensures few { result ≤ 65536 }
{
    left.min(MAX_PIECE_BYTES as u64) as usize
}

/// Reads the pieces of a file of a size, of which the first begins at `start`, and gives the offset behind them, too.
fn read_pieces<S: Source>(
    alloc: Global,
    source: &mut S,
    start: usize,
    size: u64,
) -> Result<(Bytes, usize), ReadStreamFault>
    requires sent { S.sent source.old ≡ S.written source.old }
    ensures read { Reads (pieces_layout size) start (λ got. pieces got.0) (S.left source.old) result (S.left source.new) }
    ensures behind { IfOk result (λ got. got.1 ≡ start + length ((pieces_layout size).print (pieces got.0))) }
    ensures len { IfOk result (λ got. length got.0 ≡ size) }
    ensures written { S.written source.new ≡ S.written source.old }
    ensures sent { S.sent source.new ≡ S.sent source.old }
    ensures counted { Counted (S.faults source.old) (S.faults source.new) (IsErrOf result ReadStreamFault.ReadFault) }
{
    let mut bytes = Vec::new(alloc);
    let mut offset = start;
    while (bytes.len() as u64) < size {
        let count = piece_len(size - bytes.len() as u64);
        let piece = read_piece(alloc, source, offset, count)?;
        bytes.extend_from_slice(piece.as_slice())?;
        offset = further(offset, count + 5)?;
    }
    Ok((Bytes::from_vec(bytes), offset))
}

/// How many bytes a path has.
#[tactic(auto, using(attr_records::specs::PathRuleLaws::short_path))]
fn path_len(path: &PathName) -> usize
    ensures value { result ≡ length path.now }
    ensures few { result ≤ 4096 }
{
    path.as_slice().len()
}

/// How many bytes stand behind the attributes of a node.
#[tactic(auto, using(attr_records::specs::NameLaws::short_target))]
fn tail_len(node: &Node) -> usize
    ensures value { result ≡ tail_length node.now }
    ensures few { result ≤ 4098 }
{
    match node {
        Node::File(_) => 12,
        Node::Dir(_) => 0,
        Node::Link(link) => 2 + link.target.as_slice().len(),
    }
}

/// How many bytes an entry has, with its first byte.
#[tactic(auto, using(crate::proofs::RowReading::entry_length))]
fn entry_len(path: &PathName, node: &Node) -> usize
    ensures { result ≡ length (entry_bytes (path.now, node.now)) + 1 }
{
    28 + path_len(path) + tail_len(node)
}

/// How many bytes stand in pieces behind an entry.
fn size_of(node: &Node) -> u64
    ensures { result ≡ size_of node.now }
{
    match node {
        Node::File(file) => file.size,
        Node::Dir(_) | Node::Link(_) => 0,
    }
}

/// What stands at a path, by its node and the bytes of its file.
fn item_of(node: Node, bytes: Bytes) -> Item
    ensures { result ≡ item_of node bytes }
{
    match node {
        Node::File(file) => Item::File(File {
            attr: file.attr,
            group: file.group,
            bytes,
        }),
        Node::Dir(dir) => Item::Dir(dir),
        Node::Link(link) => Item::Link(link),
    }
}

/// Reads a path with what stands at it, behind the first byte of its entry, which is at `start`; and gives the offset behind
/// it, too.
fn read_row<S: Source>(
    alloc: Global,
    source: &mut S,
    start: usize,
    tree: &MadeList,
) -> Result<(Made, usize), ReadStreamFault>
    requires sent { S.sent source.old ≡ S.written source.old }
    ensures read { Reads (row_layout tree.now) start (λ got. got.0) (S.left source.old) result (S.left source.new) }
    ensures behind { IfOk result (λ got. got.1 ≡ start + (length ((row_layout tree.now).print got.0) + 1)) }
    ensures written { S.written source.new ≡ S.written source.old }
    ensures sent { S.sent source.new ≡ S.sent source.old }
    ensures counted { Counted (S.faults source.old) (S.faults source.new) (IsErrOf result ReadStreamFault.ReadFault) }
{
    let (path, node) = read_entry(alloc, source, start, tree)?;
    let first_piece = further(start, entry_len(&path, &node))?;
    let (bytes, behind) = read_pieces(alloc, source, first_piece, size_of(&node))?;
    Ok((Made::new(path, item_of(node, bytes)), behind))
}

/// Reads the first byte of an entry, or of the end.
fn read_tag<S: Source>(source: &mut S, start: usize) -> Result<u8, ReadStreamFault>
    requires sent { S.sent source.old ≡ S.written source.old }
    ensures read { Reads (u8_field (λ tag. (tag ≡ 69) ⊎ (tag ≡ 90))) start (λ tag. tag) (S.left source.old) result (S.left source.new) }
    ensures written { S.written source.new ≡ S.written source.old }
    ensures sent { S.sent source.new ≡ S.sent source.old }
    ensures counted { Counted (S.faults source.old) (S.faults source.new) (IsErrOf result ReadStreamFault.ReadFault) }
{
    let tag = read_u8(source)?;
    if tag == b'E' {
        return Ok(tag);
    }
    if tag == b'Z' {
        return Ok(tag);
    }
    Err(ReadStreamFault::BadStream(start))
}

/// Reads a path that comes next, and gives the offset behind it, or the end.
fn read_next<S: Source>(
    alloc: Global,
    source: &mut S,
    start: usize,
    tree: &MadeList,
) -> Result<Option<(Made, usize)>, ReadStreamFault>
    requires sent { S.sent source.old ≡ S.written source.old }
    ensures read { Reads (row_step tree.now) start (λ next. option_map (λ (m : (List ℕ × ItemValue) × ℕ). m.0) next) (S.left source.old) result (S.left source.new) }
    ensures behind { IfOk result (λ next. IfSome next (λ m. m.1 ≡ start + length ((row_step tree.now).print (Some m.0)))) }
    ensures written { S.written source.new ≡ S.written source.old }
    ensures sent { S.sent source.new ≡ S.sent source.old }
    ensures counted { Counted (S.faults source.old) (S.faults source.new) (IsErrOf result ReadStreamFault.ReadFault) }
{
    let tag = read_tag(source, start)?;
    if tag == b'E' {
        let next = read_row(alloc, source, start, tree)?;
        return Ok(Some(next));
    }
    read_this_u32(source, start, tree.len() as u32)?;
    Ok(None)
}

/// Reads the paths of a tree, of which the first entry begins at `start`, and the end.
fn read_rows<S: Source>(
    alloc: Global,
    source: &mut S,
    start: usize,
) -> Result<MadeList, ReadStreamFault>
    requires sent { S.sent source.old ≡ S.written source.old }
    ensures read { Reads rows_layout start (λ tree. tree) (S.left source.old) result (S.left source.new) }
    ensures made { IfOk result IsMadeTree }
    ensures written { S.written source.new ≡ S.written source.old }
    ensures sent { S.sent source.new ≡ S.sent source.old }
    ensures counted { Counted (S.faults source.old) (S.faults source.new) (IsErrOf result ReadStreamFault.ReadFault) }
{
    let mut tree = MadeList::new(alloc);
    let mut offset = start;
    while let Some((made, behind)) = read_next(alloc, source, offset, &tree)? {
        if tree.push(made).is_err() {
            return Err(ReadStreamFault::Memory);
        }
        offset = behind;
    }
    let _rows = tree.rows();
    Ok(tree)
}

/// Whether these bytes begin a stream.
fn is_magic(front: &[u8]) -> bool
    ensures { IsTrue result ↔ (front.now ≡ magic) }
{
    front == b"RST2".as_slice()
}

/// Reads the four bytes that begin a stream.
fn read_magic<S: Source>(source: &mut S) -> Result<(), ReadStreamFault>
    requires sent { S.sent source.old ≡ S.written source.old }
    ensures read { Reads (bytes_field_of 4 (λ front. front ≡ magic)) 0 (λ _. magic) (S.left source.old) result (S.left source.new) }
    ensures written { S.written source.new ≡ S.written source.old }
    ensures sent { S.sent source.new ≡ S.sent source.old }
    ensures counted { Counted (S.faults source.old) (S.faults source.new) (IsErrOf result ReadStreamFault.ReadFault) }
{
    let mut room = [0u8; 4];
    fill(source, &mut room)?;
    if !is_magic(&room) {
        return Err(ReadStreamFault::BadStream(0));
    }
    Ok(())
}

/// Reads the four bytes that begin a stream, the paths of its tree, and the end.
fn read_parts<S: Source>(alloc: Global, source: &mut S) -> Result<MadeList, ReadStreamFault>
    requires sent { S.sent source.old ≡ S.written source.old }
    ensures read { Reads stream_layout 0 (λ tree. tree) (S.left source.old) result (S.left source.new) }
    ensures made { IfOk result IsMadeTree }
    ensures written { S.written source.new ≡ S.written source.old }
    ensures sent { S.sent source.new ≡ S.sent source.old }
    ensures counted { Counted (S.faults source.old) (S.faults source.new) (IsErrOf result ReadStreamFault.ReadFault) }
{
    read_magic(source)?;
    let tree = read_rows(alloc, source, 4)?;
    Ok(tree)
}

/// Reads the tree whose stream the source has next, and leaves what follows it unread. `BadStream` comes exactly if a field that is
/// there whole breaks the layout, with the offset of its frame; `Ended` exactly if the source ended in or before a field and
/// all before it holds; `ReadFault` only if a read failed, and `Memory` for want of memory. What `write_stream` wrote of a tree
/// is read as that tree (`back`), and what was read is the tree whose stream it was (`tree`).
pub fn read_stream<S: Source>(alloc: Global, source: &mut S) -> Result<MadeList, ReadStreamFault>
    requires sent { S.sent source.old ≡ S.written source.old }
    ensures read { Reads stream_layout 0 (λ tree. tree) (S.left source.old) result (S.left source.new) }
    ensures exact { ReadsExactly stream_layout (λ tree. tree) (S.left source.old) result (S.left source.new) }
    ensures tree { IfOk result (λ tree. IsMadeTree tree × (S.left source.old ≡ before (stream_bytes tree) (S.left source.new))) }
    ensures back { (tree : Tree) (rest : List ℕ) → IsMadeTree tree → S.left source.old ≡ Some (stream_bytes tree ++ rest)
        → MatchResult result (λ read. (read ≡ tree) × (S.left source.new ≡ Some rest)) IsOther }
    ensures written { S.written source.new ≡ S.written source.old }
    ensures sent { S.sent source.new ≡ S.sent source.old }
    ensures counted { Counted (S.faults source.old) (S.faults source.new) (IsErrOf result ReadStreamFault.ReadFault) }
{
    read_parts(alloc, source)
}
