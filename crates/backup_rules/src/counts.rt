ghost use Rattle.std.specs.Prelude.{◌≡◌, ◌↔◌, [], ◌∷◌, nat_le, IsTrue, IfOk, IfSome, IfNone};
ghost use Rattle.std.specs.List.{list_all};
ghost use Rattle.backup_rules.specs.Ranges.{IsKeepCounts, are_keep_counts, if_keep_counts};

use std::alloc::{AllocError, Global};
use std::marker::Model;

/// How many numbers there may be.
pub const MAX_COUNTS: usize = 16;
/// The greatest of them.
pub const MAX_COUNT: u32 = 1_000;

/// The numbers of filled backups that are kept at growing distances: 1 to 16 numbers of 0 to 1,000.
#[derive(Debug, Drop)]
pub struct KeepCounts {
    counts: Vec<u32>,
}

impl Model for KeepCounts {
    ghost use Rattle.std.specs.Prelude.{List, ℕ};
    ghost use Rattle.backup_rules.specs.Ranges.{IsKeepCounts};

    ghost Value = { List ℕ };

    ghost view = { λ c. c.counts.items };

    ghost invariant = { λ c. IsKeepCounts c.counts.items };
}

/// Whether each number is at most 1,000.
fn are_small(counts: &[u32]) -> bool
    ensures { result ≡ list_all (λ n. nat_le n 1000) counts.now }
{
    counts.iter().all(|&count| count <= MAX_COUNT)
}

/// Whether there are 1 to 16 numbers, each of them small.
fn are_keep_counts(counts: &[u32]) -> bool
    ensures { result ≡ are_keep_counts counts.now }
{
    !counts.is_empty() && counts.len() <= MAX_COUNTS && are_small(counts)
}

impl KeepCounts {
    /// These numbers, which takes no memory; None where there are none or too many, or one is too great.
    #[tactic(auto, using(crate::proofs::RangeLaws::in_range_where_true, crate::proofs::RangeLaws::true_in_range))]
    pub fn from_vec(counts: Vec<u32>) -> Option<KeepCounts>
        ensures some { IfSome result (λ kept. kept ≡ counts.items) }
        ensures in_range { IfSome result IsKeepCounts }
        ensures none { IfNone result (IsKeepCounts counts.items → ⊥) }
        ensures value { result ≡ if_keep_counts counts.items }
    {
        if are_keep_counts(counts.as_slice()) {
            Some(KeepCounts { counts })
        } else {
            None
        }
    }

    /// Numbers that are known to be in range.
    pub(crate) fn from_valid(counts: Vec<u32>) -> KeepCounts
        requires { IsKeepCounts counts.items }
        ensures { result ≡ counts.items }
    {
        KeepCounts { counts }
    }

    /// One backup at the least distance, or want of memory.
    pub fn one(alloc: Global) -> Result<KeepCounts, AllocError>
        ensures { IfOk result (λ kept. kept ≡ 1 ∷ []) }
    {
        let counts = Vec::from_slice(alloc, &[1])?;
        Ok(KeepCounts { counts })
    }

    pub fn as_slice(&self) -> &[u32]
        ensures value { result.now ≡ self.now }
        ensures in_range { IsKeepCounts self.now }
    {
        self.counts.as_slice()
    }

    /// Equal numbers, or want of memory.
    pub fn copy(&self, alloc: Global) -> Result<KeepCounts, AllocError>
        ensures value { IfOk result (λ copy. copy ≡ self.now) }
        ensures in_range { IsKeepCounts self.now }
    {
        let counts = Vec::from_slice(alloc, self.counts.as_slice())?;
        Ok(KeepCounts { counts })
    }
}
