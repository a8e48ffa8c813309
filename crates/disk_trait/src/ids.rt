//! The names of a store's files.

ghost use Rattle.std.specs.Prelude.{◌≡◌, Some, slice_index};
ghost use Rattle.std.specs.Str.{IsUtf8};
ghost use Rattle.hex.specs.Hex.{encode_lower};
ghost use Rattle.disk_trait.specs.Names.{content_name, real_name};

use std::cmp::Ordering;
use std::fmt;

/// The name of a content in the pool: its digest, and a number that tells contents of one digest apart.
#[derive(Clone, Copy, Debug, PartialEq, Eq, PartialOrd, Ord)]
pub struct PoolId {
    pub digest: [u8; 16],
    pub extension: u16,
}

/// The name of a file of the store. Names are in the order of this list, those of one kind in the order of their numbers,
/// and those of contents in that of their extensions first.
#[derive(Clone, Copy, Debug)]
pub enum FileId {
    /// The epoch and the hosts.
    Head,
    /// The changes of a commit.
    Intent,
    /// Whether the changes of Intent count.
    Gate,
    /// The settings and the backups of a host, by its place in order of adding.
    Host(u32),
    /// The table of a backup: the host's place and the backup's number.
    Table(u32, u32),
    /// How often a host's tables name each content of the pool.
    Counts(u32),
    /// The contents of the pool, in one file.
    PoolIndex,
    /// The contents of the pool whose digest begins with this byte.
    PoolBucket(u8),
    /// The partial dump of a host.
    Partial(u32),
    /// A content of the pool.
    Pool(PoolId),
    /// The bytes of a file that is being put.
    Stage(u64),
}

#[tactic(auto, unfolding(crate::specs::Names::is_same_file))]
impl FileId {
    ghost use Rattle.disk_trait.specs.Names.{file_key, is_same_file, is_data, is_metadata};

    /// Whether both name one file.
    pub fn is_same(self, other: FileId) -> bool
        ensures { result ≡ is_same_file self other }
    {
        match (self, other) {
            (FileId::Head, FileId::Head) => true,
            (FileId::Intent, FileId::Intent) => true,
            (FileId::Gate, FileId::Gate) => true,
            (FileId::Host(a), FileId::Host(b)) => a == b,
            (FileId::Table(host, number), FileId::Table(other_host, other_number)) => {
                host == other_host && number == other_number
            }
            (FileId::Counts(a), FileId::Counts(b)) => a == b,
            (FileId::PoolIndex, FileId::PoolIndex) => true,
            (FileId::PoolBucket(a), FileId::PoolBucket(b)) => a == b,
            (FileId::Partial(a), FileId::Partial(b)) => a == b,
            (FileId::Pool(a), FileId::Pool(b)) => {
                a.extension == b.extension && a.digest == b.digest
            }
            (FileId::Stage(a), FileId::Stage(b)) => a == b,
            _ => false,
        }
    }

    /// The place of its kind in the order.
    fn kind(&self) -> u8
        ensures { result ≡ slice_index (file_key self.now) 0 }
    {
        match self {
            FileId::Head => 1,
            FileId::Intent => 2,
            FileId::Gate => 3,
            FileId::Host(_) => 4,
            FileId::Table(_, _) => 5,
            FileId::Counts(_) => 6,
            FileId::PoolIndex => 7,
            FileId::PoolBucket(_) => 8,
            FileId::Partial(_) => 9,
            FileId::Pool(_) => 10,
            FileId::Stage(_) => 11,
        }
    }

    /// Whether it is a content of the pool or a stage.
    pub fn is_data(self) -> bool
        ensures { result ≡ is_data self }
    {
        matches!(self, FileId::Pool(_) | FileId::Stage(_))
    }

    /// Whether a commit may write it.
    pub fn is_metadata(self) -> bool
        ensures { result ≡ is_metadata self }
    {
        match self {
            FileId::Intent | FileId::Gate | FileId::Pool(_) | FileId::Stage(_) => false,
            _ => true,
        }
    }
}

impl PartialEq for FileId {
    ghost use Rattle.std.specs.Cmp.{partial_equiv_from_equiv};
    ghost use Rattle.disk_trait.specs.Order.{file_eq};
    ghost use Rattle.disk_trait.specs.OrderLaws.{file_eq_equiv};

    ghost eq = { file_eq };

    ghost laws = { partial_equiv_from_equiv file_eq_equiv };

    fn eq(&self, other: &FileId) -> bool {
        self.cmp(other).is_eq()
    }
}

impl Eq for FileId {
    ghost use Rattle.disk_trait.specs.OrderLaws.{file_eq_equiv};

    ghost laws = { file_eq_equiv };
}

impl PartialOrd for FileId {
    ghost use Rattle.std.specs.Cmp.{partial_order_from_total};
    ghost use Rattle.std.specs.Ordering.{as_partial_cmp};
    ghost use Rattle.disk_trait.specs.Order.{file_cmp};
    ghost use Rattle.disk_trait.specs.OrderLaws.{file_cmp_total};

    ghost partial_cmp = { as_partial_cmp file_cmp };

    ghost laws = { partial_order_from_total file_cmp_total };

    fn partial_cmp(&self, other: &FileId) -> Option<Ordering> {
        Some(self.cmp(other))
    }
}

impl Ord for FileId {
    ghost use Rattle.std.specs.Prelude.{refl};
    ghost use Rattle.disk_trait.specs.Order.{file_cmp};
    ghost use Rattle.disk_trait.specs.OrderLaws.{file_cmp_total};

    ghost cmp = { file_cmp };

    ghost total = { file_cmp_total };

    ghost matches_partial_cmp = { λ x y. refl };

    ghost matches_eq = { λ x y. refl };

    fn cmp(&self, other: &FileId) -> Ordering {
        match (self, other) {
            (FileId::Host(a), FileId::Host(b)) => a.cmp(b),
            (FileId::Table(host, number), FileId::Table(other_host, other_number)) => {
                host.cmp(other_host).then(number.cmp(other_number))
            }
            (FileId::Counts(a), FileId::Counts(b)) => a.cmp(b),
            (FileId::PoolBucket(a), FileId::PoolBucket(b)) => a.cmp(b),
            (FileId::Partial(a), FileId::Partial(b)) => a.cmp(b),
            (FileId::Pool(a), FileId::Pool(b)) => {
                a.extension.cmp(&b.extension).then(a.digest.cmp(&b.digest))
            }
            (FileId::Stage(a), FileId::Stage(b)) => a.cmp(b),
            _ => self.kind().cmp(&other.kind()),
        }
    }
}

/// A digest in lower-case hexadecimal digits.
fn hex_digits(digest: &[u8; 16]) -> [u8; 32]
    ensures digits { result ≡ encode_lower digest.now }
    ensures text { IsUtf8 result }
{
    let mut digits = [0u8; 32];
    match hex::encode_to_slice(digest, &mut digits) {
        Ok(()) => digits,
        Err(_) => unreachable!(),
    }
}

/// The digest in 32 lower-case hexadecimal digits, `-`, and the extension in decimal.
impl fmt::Display for PoolId {
    ghost output = { λ id. Some (content_name id) };

    fn fmt<W: fmt::Write>(&self, f: &mut fmt::Formatter<W>) -> fmt::Result {
        let extension = self.extension;
        match str::from_utf8(&hex_digits(&self.digest)) {
            Ok(digits) => write!(f, "{digits}-{extension}"),
            Err(_) => unreachable!(),
        }
    }
}

/// The file's real name, under which a folder has it. Numbers are in decimal.
impl fmt::Display for FileId {
    ghost output = { λ file. Some (real_name file) };

    fn fmt<W: fmt::Write>(&self, f: &mut fmt::Formatter<W>) -> fmt::Result {
        match self {
            FileId::Head => write!(f, "head"),
            FileId::Intent => write!(f, "intent"),
            FileId::Gate => write!(f, "gate"),
            FileId::Host(host) => write!(f, "host-{host}"),
            FileId::Table(host, number) => write!(f, "table-{host}-{number}"),
            FileId::Counts(host) => write!(f, "counts-{host}"),
            FileId::PoolIndex => write!(f, "pool-index"),
            FileId::PoolBucket(byte) => write!(f, "pool-index-{byte}"),
            FileId::Partial(host) => write!(f, "partial-{host}"),
            FileId::Pool(id) => write!(f, "pool-{id}"),
            FileId::Stage(number) => write!(f, "stage-{number}"),
        }
    }
}
