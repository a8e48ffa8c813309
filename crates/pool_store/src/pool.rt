//! The pool.

ghost use Rattle.std.specs.Prelude.{◌≡◌, ◌⊎◌, ◌+◌, ◌<◌, ◌≤◌, ◌^◌, ◌↔◌, ℕ, List, Option, false, true, Some, None, IfOk, IfErr, OnOk, OnErr, IsErr, IsErrOf, length, []};
ghost use Rattle.fault_counts.specs.Counts.{Counted};
ghost use Rattle.disk_trait.specs.declared.ids.PoolId.{PoolId};
ghost use Rattle.disk_trait.specs.declared.ids.FileId.TheVariants.{Pool as PoolFile};
ghost use Rattle.disk_trait.specs.Files.{Files};
ghost use Rattle.disk_trait.specs.Images.{LeavesOnly};
ghost use Rattle.intent_journal.specs.Overlay.{ComesTo};
ghost use Rattle.intent_journal.specs.Calls.{Reads};
ghost use Rattle.pool_changes.specs.Kept.{slots_of, IsSet, IsSame};
ghost use Rattle.pool_changes.specs.Slots.{is_live, is_staged, is_given, claims_of, claimed, let_go, unlisted};
ghost use Rattle.pool_store.specs.Chains.{SaysDamaged, SaysGiven};
ghost use Rattle.pool_store.specs.Chains.{OfReading};
ghost use Rattle.pool_changes.specs.Listed.{index_of, IsBucketOf, IsStatsOf};
ghost use Rattle.pool_store.specs.Sources.{length_of, is_in_memory, IsStaged, IsSource, SaysLost, SaysStageLost};
ghost use Rattle.pool_store.specs.Opened.{Opens};
ghost use Rattle.pool_store.specs.Opening.{OfOpening, SaysForeign, AreFresh};
ghost use Rattle.pool_store.specs.Complete.{NeverForeign};
ghost use Rattle.pool_changes.specs.Written.{LeadsIndex};
ghost use Rattle.pool_changes.specs.Indexed.{after, IsOf, AreGiven, AreLive, AreUnclaimed};
ghost use Rattle.pool_store.specs.Sweeps.{IsPruned, Sweeps, AreAllUsed, AreAllGiven};
ghost use Rattle.pool_changes.specs.Named.{NoneDoomed};

use crate::chain::{Met, holds, is_given, read_file};
use crate::fault::PoolFault;
use crate::opening::{doomed_names, list_index};
use crate::source::Source;
use crate::stage::{find_place, stage_new};
use crate::sweep::sweep_names;
use disk_trait::{Bytes, Disk, FileId, PoolId};
use intent_journal::Journal;
use pool_changes::{BucketItemList, IndexChange, Names, PoolStats, Slot, bucket_items, stats};
use pool_name::Namer;
use std::alloc::{AllocError, Global};

/// The contents of a store by their names.
#[derive(Drop)]
pub struct Pool<N: Namer> {
    names: Names,
    namer: N,
    // whether the files tell the index in the one file of older stores
    in_one_file: bool,
    // how many claims there ever were
    made: u64,
    // how many more are made sure of
    spare: u64,
    // a staged name has a claim
    ghost held: { (id : PoolId) → is_staged (slots_of names id) ≡ true → 0 < claims_of (slots_of names id) },
    ghost counted: { (id : PoolId) → claims_of (slots_of names id) ≤ made },
    ghost room: { made + spare < 2 ^ 64 },
}

impl<N: Namer> Pool<N> {
    ghost use Rattle.pool_store.specs.Pools.{Takes, Misses, IsCertain, IsNotForeign};

    /// The pool of a store's files: the contents that the index lists are live, all other Pool files are doomed.
    /// Nothing is written. A file of the index that no pool has is `Foreign`, and so is a listed content without a
    /// file. If the index is in the one file of older stores, the next change of it leads to the files of today:
    /// `settle` with no ids is just that.
    pub fn open<D: Disk>(
        alloc: Global,
        journal: &mut Journal<D>,
        namer: N,
    ) -> Result<Pool<N>, PoolFault>
        requires { journal.old.halted ≡ false }
        ensures opened { IfOk result (λ pool. (all : Files) → D.files journal.old.disk ≡ Some all → Opens pool.in_one_file (slots_of pool.names) all) }
        ensures fresh { IfOk result (λ pool. AreFresh (slots_of pool.names)) }
        ensures spare { IfOk result (λ pool. pool.spare ≡ 0) }
        ensures kind { IfErr result OfOpening }
        ensures foreign { IfErr result (SaysForeign (D.files journal.old.disk)) }
        ensures complete { IfErr result (NeverForeign (D.files journal.old.disk)) }
        ensures reads { Reads journal.old journal.new }
        ensures counted { Counted (D.fault_count journal.old.disk) (D.fault_count journal.new.disk) (IsErrOf result PoolFault.Disk) }
    {
        let mut names = match doomed_names(alloc, journal) {
            Ok(names) => names,
            Err(fault) => return Err(fault),
        };
        let in_one_file = match list_index(alloc, journal, &mut names) {
            Ok(in_one_file) => in_one_file,
            Err(fault) => return Err(fault),
        };
        Ok(Pool {
            names,
            namer,
            in_one_file,
            made: 0,
            spare: 0,
        })
    }

    /// What gives a content its digest.
    pub fn namer(&self) -> N
        ensures { result ≡ self.now.namer }
    {
        self.namer
    }

    /// What is known of a name, or `None` if it is unused.
    pub fn slot(&self, id: PoolId) -> Option<Slot>
        ensures { result ≡ slots_of self.now.names id }
    {
        self.names.get(id)
    }

    /// Whether a name is live or staged.
    pub fn has(&self, id: PoolId) -> bool
        ensures { result ≡ is_given (slots_of self.now.names id) }
    {
        is_given(&self.names, id)
    }

    /// Makes sure of n claims, which then take no memory. It never lowers how many were made sure of before.
    pub fn reserve(&mut self, n: usize) -> Result<(), AllocError>
        ensures ok { OnOk result (n ≤ self.new.spare) }
        ensures kept { self.old.spare ≤ self.new.spare }
        ensures same { IsSame (slots_of self.old.names) (slots_of self.new.names) }
        ensures err { OnErr result (self.new.spare ≡ self.old.spare) }
        ensures form { self.new.in_one_file ≡ self.old.in_one_file }
    {
        let n = n as u64;
        if n <= self.spare {
            return Ok(());
        }
        if n > u64::MAX - self.made {
            return Err(AllocError);
        }
        self.spare = n;
        Ok(())
    }

    /// Claims a live or staged content.
    pub fn claim(&mut self, id: PoolId)
        requires given { is_given (slots_of self.old.names id) ≡ true }
        requires spare { 0 < self.old.spare }
        ensures claimed { IsSet (slots_of self.old.names) (slots_of self.new.names) id (claimed (slots_of self.old.names id)) }
        ensures spare { self.new.spare + 1 ≡ self.old.spare }
        ensures form { self.new.in_one_file ≡ self.old.in_one_file }
    {
        match self.names.get(id) {
            Some(slot) => {
                self.spare -= 1;
                self.made += 1;
                self.names.set(id, slot.claimed());
            }
            None => {}
        }
    }

    /// Lets go a claim: a staged content that has no other is doomed.
    pub fn release(&mut self, id: PoolId)
        requires { 0 < claims_of (slots_of self.old.names id) }
        ensures let_go { IsSet (slots_of self.old.names) (slots_of self.new.names) id (let_go (slots_of self.old.names id)) }
        ensures spare { self.new.spare ≡ self.old.spare }
        ensures form { self.new.in_one_file ≡ self.old.in_one_file }
    {
        match self.names.get(id) {
            Some(slot) => self.names.set(id, slot.let_go()),
            None => {}
        }
    }

    /// The bytes of a live or staged content.
    pub fn read<D: Disk>(
        &self,
        alloc: Global,
        journal: &mut Journal<D>,
        id: PoolId,
    ) -> Result<Bytes, PoolFault>
        requires { journal.old.halted ≡ false }
        ensures found { IfOk result (λ bytes. (all : Files) → D.files journal.old.disk ≡ Some all → all (PoolFile id) ≡ Some bytes) }
        ensures digest { IfOk result (λ bytes. N.digest_of bytes ≡ id.digest) }
        ensures damaged { IfErr result (SaysDamaged N.digest_of (D.files journal.old.disk)) }
        ensures named { IfErr result (λ fault. (other : PoolId) (found : Option (List ℕ)) → fault ≡ PoolFault.Damaged other found → other ≡ id) }
        ensures fault { IfErr result OfReading }
        ensures reads { Reads journal.old journal.new }
        ensures counted { Counted (D.fault_count journal.old.disk) (D.fault_count journal.new.disk) (IsErrOf result PoolFault.Disk) }
    {
        match read_file(alloc, journal, FileId::Pool(id)) {
            Ok(None) => Err(PoolFault::Damaged { id, found: None }),
            Ok(Some(found)) => {
                if self.namer.name(found.as_slice()) != id.digest {
                    return Err(PoolFault::Damaged {
                        id,
                        found: Some(found),
                    });
                }
                Ok(found)
            }
            Err(fault) => Err(fault),
        }
    }

    /// Whether a name is live or staged and its file holds exactly this content. The two are compared, piece by piece, and no
    /// digest is made: a file that is absent or damaged holds another content.
    pub fn holds<D: Disk>(
        &self,
        alloc: Global,
        journal: &mut Journal<D>,
        id: PoolId,
        content: &[u8],
    ) -> Result<bool, PoolFault>
        requires { journal.old.halted ≡ false }
        ensures same { IfOk result (λ same. same ≡ true → (is_given (slots_of self.now.names id) ≡ true)
            × ((all : Files) → D.files journal.old.disk ≡ Some all → all (PoolFile id) ≡ Some content.now)) }
        ensures other { IfOk result (λ same. same ≡ false → is_given (slots_of self.now.names id) ≡ true → (all : Files) → D.files journal.old.disk ≡ Some all
            → all (PoolFile id) ≡ Some content.now → ⊥) }
        ensures fault { IfErr result (λ fault. (fault ≡ PoolFault.Disk) ⊎ (fault ≡ PoolFault.Memory)) }
        ensures reads { Reads journal.old journal.new }
        ensures counted { Counted (D.fault_count journal.old.disk) (D.fault_count journal.new.disk) (IsErrOf result PoolFault.Disk) }
    {
        match holds(alloc, journal, &self.names, id, &Source::Bytes(content)) {
            Ok(same) => Ok(same),
            Err(fault) => Err(fault),
        }
    }

    /// Claims the name of what a source holds: that of the live or staged file that holds it, or else a new one, with the
    /// least unused extension, whose file is staged. Its digest is given.
    fn take_in<D: Disk>(
        &mut self,
        alloc: Global,
        journal: &mut Journal<D>,
        content: &Source,
        digest: [u8; 16],
    ) -> Result<PoolId, PoolFault>
        requires some { 0 < length_of content.now }
        requires ready { journal.old.halted ≡ false }
        ensures takes { IfOk result (λ id. (bytes : List ℕ) → IsSource content.now (D.files journal.old.disk) bytes → digest ≡ N.digest_of bytes
            → Takes N.digest_of (slots_of self.old.names) (slots_of self.new.names) (D.files journal.old.disk) (D.files journal.new.disk) id bytes) }
        ensures misses { IfErr result (λ fault. (bytes : List ℕ) → IsSource content.now (D.files journal.old.disk) bytes → digest ≡ N.digest_of bytes
            → Misses N.digest_of (slots_of self.old.names) (slots_of self.new.names) (D.files journal.old.disk) (D.files journal.new.disk) bytes fault) }
        ensures memory { IsErrOf result PoolFault.Memory → is_in_memory content.now ≡ true
            → IsSame (slots_of self.old.names) (slots_of self.new.names) × (D.files journal.new.disk ≡ D.files journal.old.disk) }
        ensures lost { IfErr result (SaysLost content.now (D.files journal.old.disk)) }
        ensures undamaged { IfErr result (λ fault. (other : PoolId) (found : Option (List ℕ)) → fault ≡ PoolFault.Damaged other found → ⊥) }
        ensures certain { IsCertain (slots_of self.old.names) (D.uncertain journal.old.disk) → IsCertain (slots_of self.old.names) (D.uncertain journal.new.disk) }
        ensures any_moment { (all : Files) → D.files journal.old.disk ≡ Some all → IsCertain (slots_of self.old.names) (D.uncertain journal.old.disk)
            → LeavesOnly D.moment D.left_since journal.old.disk journal.new.disk (ComesTo all (unlisted (slots_of self.old.names))) }
        ensures spare { self.new.spare ≡ self.old.spare }
        ensures form { self.new.in_one_file ≡ self.old.in_one_file }
        ensures stays { journal.new.halted ≡ journal.old.halted }
        ensures counted { Counted (D.fault_count journal.old.disk) (D.fault_count journal.new.disk) (IsErrOf result PoolFault.Disk) }
    {
        if self.made >= u64::MAX - self.spare {
            return Err(PoolFault::Memory);
        }
        let extension = match find_place(alloc, journal, &self.names, digest, content) {
            Ok(Met::Same(extension)) => {
                let id = PoolId { digest, extension };
                match self.names.get(id) {
                    Some(slot) => {
                        self.made += 1;
                        self.names.set(id, slot.claimed());
                        return Ok(id);
                    }
                    None => return Err(PoolFault::Memory),
                }
            }
            Ok(Met::Free(extension)) => extension,
            Ok(Met::Full) => return Err(PoolFault::ChainFull),
            Err(fault) => return Err(fault),
        };
        let id = PoolId { digest, extension };
        self.made += 1;
        match stage_new(alloc, &mut self.names, journal, id, content) {
            Ok(()) => {}
            Err(fault) => return Err(fault),
        }
        Ok(id)
    }

    /// Claims the content's name, which is that of the live or staged file that holds it, or else a new one, with the
    /// least unused extension, whose file is staged. A file that holds anything else is passed over, damaged or not.
    pub fn match_or_stage<D: Disk>(
        &mut self,
        alloc: Global,
        journal: &mut Journal<D>,
        content: &[u8],
    ) -> Result<PoolId, PoolFault>
        requires some { 0 < length content.now }
        requires ready { journal.old.halted ≡ false }
        ensures takes { IfOk result (λ id. Takes N.digest_of (slots_of self.old.names) (slots_of self.new.names) (D.files journal.old.disk) (D.files journal.new.disk) id content.now) }
        ensures misses { IfErr result (λ fault. Misses N.digest_of (slots_of self.old.names) (slots_of self.new.names) (D.files journal.old.disk) (D.files journal.new.disk) content.now fault) }
        ensures memory { IsErrOf result PoolFault.Memory
            → IsSame (slots_of self.old.names) (slots_of self.new.names) × (D.files journal.new.disk ≡ D.files journal.old.disk) }
        ensures damaged { IfErr result (SaysDamaged N.digest_of (D.files journal.old.disk)) }
        ensures given { IfErr result (SaysGiven (slots_of self.old.names)) }
        ensures kind { IfErr result IsNotForeign }
        ensures undamaged { IfErr result (λ fault. (other : PoolId) (found : Option (List ℕ)) → fault ≡ PoolFault.Damaged other found → ⊥) }
        ensures certain { IsCertain (slots_of self.old.names) (D.uncertain journal.old.disk) → IsCertain (slots_of self.old.names) (D.uncertain journal.new.disk) }
        ensures any_moment { (all : Files) → D.files journal.old.disk ≡ Some all → IsCertain (slots_of self.old.names) (D.uncertain journal.old.disk)
            → LeavesOnly D.moment D.left_since journal.old.disk journal.new.disk (ComesTo all (unlisted (slots_of self.old.names))) }
        ensures spare { self.new.spare ≡ self.old.spare }
        ensures form { self.new.in_one_file ≡ self.old.in_one_file }
        ensures stays { journal.new.halted ≡ journal.old.halted }
        ensures counted { Counted (D.fault_count journal.old.disk) (D.fault_count journal.new.disk) (IsErrOf result PoolFault.Disk) }
    {
        let digest = self.namer.name(content);
        match self.take_in(alloc, journal, &Source::Bytes(content), digest) {
            Ok(id) => Ok(id),
            Err(fault) => Err(fault),
        }
    }

    /// Claims the name of the content that the file of a stage holds, as `match_or_stage` does. The content is compared and
    /// copied piece by piece, so it may be larger than the memory. Its size and its digest are those of all that was put into
    /// the stage, which has some bytes: a file that isn't as long is `Foreign`. After a fault the new name may have a part of
    /// the content, and is doomed.
    pub fn match_or_stage_file<D: Disk>(
        &mut self,
        alloc: Global,
        journal: &mut Journal<D>,
        stage: u64,
        size: u64,
        digest: [u8; 16],
    ) -> Result<PoolId, PoolFault>
        requires some { 0 < size }
        requires ready { journal.old.halted ≡ false }
        ensures takes { IfOk result (λ id. (content : List ℕ) → IsStaged (D.files journal.old.disk) stage size content → digest ≡ N.digest_of content
            → Takes N.digest_of (slots_of self.old.names) (slots_of self.new.names) (D.files journal.old.disk) (D.files journal.new.disk) id content) }
        ensures misses { IfErr result (λ fault. (content : List ℕ) → IsStaged (D.files journal.old.disk) stage size content → digest ≡ N.digest_of content
            → Misses N.digest_of (slots_of self.old.names) (slots_of self.new.names) (D.files journal.old.disk) (D.files journal.new.disk) content fault) }
        ensures lost { IfErr result (SaysStageLost stage size (D.files journal.old.disk)) }
        ensures undamaged { IfErr result (λ fault. (other : PoolId) (found : Option (List ℕ)) → fault ≡ PoolFault.Damaged other found → ⊥) }
        ensures certain { IsCertain (slots_of self.old.names) (D.uncertain journal.old.disk) → IsCertain (slots_of self.old.names) (D.uncertain journal.new.disk) }
        ensures any_moment { (all : Files) → D.files journal.old.disk ≡ Some all → IsCertain (slots_of self.old.names) (D.uncertain journal.old.disk)
            → LeavesOnly D.moment D.left_since journal.old.disk journal.new.disk (ComesTo all (unlisted (slots_of self.old.names))) }
        ensures spare { self.new.spare ≡ self.old.spare }
        ensures form { self.new.in_one_file ≡ self.old.in_one_file }
        ensures stays { journal.new.halted ≡ journal.old.halted }
        ensures counted { Counted (D.fault_count journal.old.disk) (D.fault_count journal.new.disk) (IsErrOf result PoolFault.Disk) }
    {
        let content = Source::Stage {
            number: stage,
            size,
        };
        match self.take_in(alloc, journal, &content, digest) {
            Ok(id) => Ok(id),
            Err(fault) => Err(fault),
        }
    }

    /// Removes the doomed files, one by one.
    pub fn sweep<D: Disk>(&mut self, journal: &mut Journal<D>) -> Result<(), PoolFault>
        requires { journal.old.halted ≡ false }
        ensures done { OnOk result (NoneDoomed (slots_of self.new.names)) }
        ensures pruned { IsPruned (slots_of self.old.names) (slots_of self.new.names) }
        ensures sweeps { (all : Files) → D.files journal.old.disk ≡ Some all → Sweeps (slots_of self.old.names) (slots_of self.new.names) (D.files journal.new.disk) all }
        ensures swept { OnOk result ((all : Files) → D.files journal.old.disk ≡ Some all → AreAllUsed (slots_of self.old.names) all → AreAllGiven (slots_of self.new.names) (D.files journal.new.disk)) }
        ensures fault { IfErr result (λ fault. fault ≡ PoolFault.Disk) }
        ensures certain { IsCertain (slots_of self.old.names) (D.uncertain journal.old.disk) → IsCertain (slots_of self.old.names) (D.uncertain journal.new.disk) }
        ensures any_moment { (all : Files) → D.files journal.old.disk ≡ Some all → IsCertain (slots_of self.old.names) (D.uncertain journal.old.disk)
            → LeavesOnly D.moment D.left_since journal.old.disk journal.new.disk (ComesTo all (unlisted (slots_of self.old.names))) }
        ensures spare { self.new.spare ≡ self.old.spare }
        ensures form { self.new.in_one_file ≡ self.old.in_one_file }
        ensures stays { journal.new.halted ≡ journal.old.halted }
        ensures counted { Counted (D.fault_count journal.old.disk) (D.fault_count journal.new.disk) (IsErrOf result PoolFault.Disk) }
    {
        sweep_names(&mut self.names, journal)
    }

    /// The change of the index that adds these names, unmarked.
    pub fn settle(&self, alloc: Global, ids: &[PoolId]) -> Result<IndexChange, AllocError>
        requires { AreGiven (slots_of self.now.names) ids.now }
        ensures added { IfOk result (λ change. IsOf change ids.now [] [] []) }
        ensures leads { IfOk result (λ change. LeadsIndex self.now.in_one_file (index_of (slots_of self.now.names)) (index_of (after change (slots_of self.now.names))) change.changes) }
    {
        IndexChange::new(alloc, &self.names, self.in_one_file, ids, &[], &[], &[])
    }

    /// The change of the index that marks, unmarks and removes these names.
    pub fn propose(
        &self,
        alloc: Global,
        marked: &[PoolId],
        unmarked: &[PoolId],
        removed: &[PoolId],
    ) -> Result<IndexChange, AllocError>
        requires marked { AreLive (slots_of self.now.names) marked.now }
        requires unmarked { AreLive (slots_of self.now.names) unmarked.now }
        requires removed { AreUnclaimed (slots_of self.now.names) removed.now }
        ensures of { IfOk result (λ change. IsOf change [] marked.now unmarked.now removed.now) }
        ensures leads { IfOk result (λ change. LeadsIndex self.now.in_one_file (index_of (slots_of self.now.names)) (index_of (after change (slots_of self.now.names))) change.changes) }
    {
        IndexChange::new(
            alloc,
            &self.names,
            self.in_one_file,
            &[],
            marked,
            unmarked,
            removed,
        )
    }

    /// Makes the change, after the journal's commit; takes no memory.
    pub fn accept(&mut self, change: IndexChange)
        ensures after { IsSame (after change (slots_of self.old.names)) (slots_of self.new.names) }
        ensures in_buckets { self.new.in_one_file ≡ false }
        ensures spare { self.new.spare ≡ self.old.spare }
    {
        change.make(&mut self.names);
        self.in_one_file = false;
    }

    /// The live contents of a bucket, the first byte of their digests divided by 16, in the order of their names.
    pub fn bucket_items(&self, alloc: Global, bucket: u8) -> Result<BucketItemList, AllocError>
        ensures { IfOk result (IsBucketOf (slots_of self.now.names) bucket) }
    {
        bucket_items(alloc, &self.names, bucket)
    }

    /// How many contents are live, the sum of their lengths, and how many are marked.
    pub fn stats(&self) -> PoolStats
        ensures { IsStatsOf (slots_of self.now.names) result }
    {
        stats(&self.names)
    }
}
