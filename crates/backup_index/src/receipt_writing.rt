//! Writes the receipts of a host.

ghost use Rattle.std.specs.Prelude.{◌≡◌, ◌++◌, length, OnOk};
ghost use Rattle.std.specs.Int.{w16};
ghost use Rattle.std.specs.List.{AllByRecursion};
ghost use Rattle.wire_bytes.specs.Layout.{number_bytes};
ghost use Rattle.wire_bytes.specs.Breaks.{items_bytes};
ghost use Rattle.receipts.specs.Receipts.{AreReceipts};
ghost use Rattle.backup_index.specs.Index.{IsReceipt, receipt_bytes};

use receipts::{Receipt, ReceiptList};
use std::alloc::AllocError;
use wire_bytes::{put_bytes, put_u16, put_u32, put_u64};

/// Writes a receipt: token, epoch, sequence, number.
#[tactic(auto, unfolding(crate::specs::Index::receipt_bytes))]
fn put_receipt(out: &mut Vec<u8>, receipt: Receipt) -> Result<(), AllocError>
    ensures ok { OnOk result (out.new.items ≡ out.old.items ++ receipt_bytes receipt) }
    ensures fits { OnOk result (IsReceipt receipt) }
{
    put_bytes(out, &receipt.token.bytes)?;
    put_u64(out, receipt.name.epoch)?;
    put_u64(out, receipt.name.sequence)?;
    put_u32(out, receipt.number)?;
    Ok(())
}

/// Writes receipts, one behind the other.
fn put_items(out: &mut Vec<u8>, receipts: &[Receipt]) -> Result<(), AllocError>
    ensures ok { OnOk result (out.new.items ≡ out.old.items ++ items_bytes receipt_bytes receipts.now) }
    ensures fits { OnOk result (AllByRecursion IsReceipt receipts.now) }
{
    for receipt in receipts {
        put_receipt(out, *receipt)?;
    }
    Ok(())
}

/// Writes receipts behind their number.
pub fn put_receipts(out: &mut Vec<u8>, receipts: &ReceiptList) -> Result<(), AllocError>
    ensures ok { OnOk result (out.new.items ≡ out.old.items ++ (number_bytes w16 (length receipts.now) ++ items_bytes receipt_bytes receipts.now)) }
    ensures fits { OnOk result (AllByRecursion IsReceipt receipts.now) }
    ensures are { OnOk result (AreReceipts receipts.now) }
{
    let count = receipts.len() as u16;
    put_u16(out, count)?;
    put_items(out, receipts.receipts())?;
    Ok(())
}
