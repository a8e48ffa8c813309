//! Reads the receipts of a host.

ghost use Rattle.std.specs.Prelude.{◌≡◌, ◌≤◌, []};
ghost use Rattle.std.specs.Int.{w16};
ghost use Rattle.wire_bytes.specs.Kind.{Reads};
ghost use Rattle.wire_bytes.specs.Grammar.{field, number, items_of};
ghost use Rattle.wire_bytes.specs.GrammarReading.{ReadsOrBreaks};
ghost use Rattle.backup_index.specs.Faults.{offset_of};
ghost use Rattle.backup_index.specs.declared.layouts.IndexLayout.TheVariants.{Third};
ghost use Rattle.backup_index.specs.Index.{IsReceipt, IsFreshReceipt, IsReceiptCount, receipt_bytes, receipts_grammar};

use crate::fault::IndexFault;
use crate::layouts::IndexLayout;
use receipts::{MAX_RECEIPTS, Receipt, ReceiptList, SessionName, Token};
use std::alloc::Global;
use wire_bytes::{FieldFault, Reader};

/// Reads the fields of a receipt.
#[tactic(auto, unfolding(crate::specs::Index::receipt_bytes))]
fn read_receipt(reader: &mut Reader) -> Result<Receipt, FieldFault>
    ensures { Reads (λ receipt. receipt) IsReceipt receipt_bytes reader.old result reader.new }
{
    let bytes = reader.read_digest()?;
    let epoch = reader.read_u64()?;
    let sequence = reader.read_u64()?;
    let number = reader.read_u32()?;
    Ok(Receipt {
        token: Token { bytes },
        name: SessionName { epoch, sequence },
        number,
    })
}

/// Reads a receipt whose token none of those before it has.
fn read_next_receipt(reader: &mut Reader, before: &ReceiptList) -> Result<Receipt, IndexFault>
    ensures { ReadsOrBreaks offset_of (λ receipt. receipt) (field (IsFreshReceipt before.now) receipt_bytes) reader.old result reader.new }
{
    let start = reader.offset();
    let receipt = match read_receipt(reader) {
        Ok(receipt) => receipt,
        Err(_) => return Err(IndexFault::BadIndex(start)),
    };
    if before.has_token(receipt.token) {
        return Err(IndexFault::BadIndex(start));
    }
    Ok(receipt)
}

/// Reads the number of receipts.
#[tactic(auto, unfolding(wire_bytes::specs::Grammar::field))]
fn read_receipt_count(reader: &mut Reader) -> Result<u16, IndexFault>
    ensures { ReadsOrBreaks offset_of (λ n. n) (number w16 IsReceiptCount) reader.old result reader.new }
{
    let start = reader.offset();
    match reader.read_u16() {
        Ok(count) if count as usize <= MAX_RECEIPTS => Ok(count),
        _ => Err(IndexFault::BadIndex(start)),
    }
}

/// Reads so many receipts.
fn read_items(alloc: Global, reader: &mut Reader, count: u16) -> Result<ReceiptList, IndexFault>
    requires { count ≤ 256 }
    ensures { ReadsOrBreaks offset_of (λ receipts. receipts) (items_of IsFreshReceipt receipt_bytes count) reader.old result reader.new }
{
    let mut receipts = ReceiptList::new(alloc);
    for _i in 0..count {
        let receipt = read_next_receipt(reader, &receipts)?;
        receipts.add(receipt)?;
    }
    Ok(receipts)
}

/// Reads the receipts behind their number.
fn read_counted(alloc: Global, reader: &mut Reader) -> Result<ReceiptList, IndexFault>
    ensures { ReadsOrBreaks offset_of (λ receipts. receipts) (receipts_grammar Third) reader.old result reader.new }
{
    let count = read_receipt_count(reader)?;
    let receipts = read_items(alloc, reader, count)?;
    Ok(receipts)
}

/// Reads the receipts of an index that stands so: the first two layouts have none.
pub fn read_receipts(
    alloc: Global,
    reader: &mut Reader,
    layout: IndexLayout,
) -> Result<ReceiptList, IndexFault>
    ensures { ReadsOrBreaks offset_of (λ receipts. receipts) (receipts_grammar layout) reader.old result reader.new }
{
    match layout {
        IndexLayout::First => Ok(ReceiptList::new(alloc)),
        IndexLayout::Second => Ok(ReceiptList::new(alloc)),
        IndexLayout::Third => read_counted(alloc, reader),
    }
}
