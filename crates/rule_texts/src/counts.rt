//! The text of `FullKeepCnt`.

ghost use Rattle.std.specs.Prelude.{◌≡◌, map, Some, None, IfOk, IsErrOf};
ghost use Rattle.http_query.specs.Numbers.{number_of};
ghost use Rattle.rule_texts.specs.declared.fault.TextFault.TheVariants.{BadText};
ghost use Rattle.rule_texts.specs.Counts.{counts_of};
ghost use Rattle.rule_texts.specs.Periods.{each_of};

use crate::fault::TextFault;
use crate::pieces::pieces;
use backup_rules::{KeepCounts, MAX_COUNT};
use http_query::read_number;
use std::alloc::Global;

/// The numbers of pieces.
fn read_numbers(alloc: Global, pieces: &[&[u8]]) -> Result<Vec<u32>, TextFault>
    ensures ok { IfOk result (λ numbers. each_of (number_of 1000) (map (λ piece. piece.now) pieces.now) ≡ Some numbers.items) }
    ensures bad { IsErrOf result BadText → each_of (number_of 1000) (map (λ piece. piece.now) pieces.now) ≡ None }
{
    let mut numbers = Vec::new(alloc);
    for piece in pieces {
        let Some(number) = read_number(piece, MAX_COUNT as u64) else {
            return Err(TextFault::BadText);
        };
        numbers.push(number as u32)?;
    }
    Ok(numbers)
}

/// The numbers of a text: one to sixteen of at most 1,000 in decimal, with a `,` between each two.
#[tactic(auto, unfolding(crate::specs::Counts::counts_of))]
pub fn read_counts(alloc: Global, text: &[u8]) -> Result<KeepCounts, TextFault>
    ensures ok { IfOk result (λ counts. counts_of text.now ≡ Some counts) }
    ensures bad { IsErrOf result BadText → counts_of text.now ≡ None }
{
    let pieces = pieces(alloc, text, b',')?;
    let numbers = read_numbers(alloc, pieces.as_slice())?;
    match KeepCounts::from_vec(numbers) {
        Some(counts) => Ok(counts),
        None => Err(TextFault::BadText),
    }
}
