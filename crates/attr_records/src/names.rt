ghost use Rattle.std.specs.Prelude.{◌≡◌, ◌≢◌, List, ℕ, IfOk, IfErr, true, false, bytes_eq, refl};
ghost use Rattle.std.specs.List.{list_all};
ghost use Rattle.std.specs.Cmp.{partial_equiv_from_equiv, eq_by_cmp_equiv, partial_order_from_total};
ghost use Rattle.std.specs.Cmp.Lexicographic.{slice_cmp, nat_list_cmp_total, nat_list_eq_equiv};
ghost use Rattle.std.specs.Ordering.{nat_cmp, eq_by_cmp, as_partial_cmp};
ghost use Rattle.attr_records.specs.Names.{is_host_byte, is_letter_or_digit, begins_with_letter_or_digit, is_host_name, is_link_target};

use crate::limits::{MAX_HOST_NAME_BYTES, MAX_TARGET_BYTES};
use crate::paths::is_text;
use std::alloc::{AllocError, Global};
use std::cmp::Ordering;
use std::marker::Model;

/// Why a text names no host, or want of memory.
#[derive(Clone, Copy, Debug, PartialEq, Eq)]
pub enum BadHostName {
    /// It isn't 1 to 64 bytes of `a` to `z`, `0` to `9`, `.`, `_` and `-`, the first a letter or digit.
    BadName,
    /// There was no memory for the name.
    Memory,
}

impl From<AllocError> for BadHostName {
    ghost use Rattle.attr_records.specs.declared.names.BadHostName.TheVariants.{Memory};

    ghost from_gives = { λ _ fault. fault ≡ Memory };

    fn from(_error: AllocError) -> BadHostName {
        BadHostName::Memory
    }
}

/// The name of a host: 1 to 64 bytes of `a` to `z`, `0` to `9`, `.`, `_` and `-`, the first a letter or
/// a digit.
#[derive(Debug)]
pub struct HostName {
    bytes: Vec<u8>,
}

impl Model for HostName {
    ghost Value = { List ℕ };

    ghost view = { λ h. h.bytes.items };

    ghost invariant = { λ h. is_host_name h.bytes.items ≡ true };
}

/// Written out: what is in it is then dropped here, for the prover too, and not in each crate above.
impl Drop for HostName {
    fn drop(self) {
        let HostName { bytes: _ } = self;
    }
}

impl HostName {
    /// The name that a text is; refused exactly where it is none, or for want of memory.
    pub fn read(alloc: Global, text: &[u8]) -> Result<HostName, BadHostName>
        ensures ok { IfOk result (λ name. (name ≡ text.now) × (is_host_name text.now ≡ true)) }
        ensures bad { IfErr result (λ fault. fault ≢ BadHostName.Memory → is_host_name text.now ≡ false) }
    {
        if !is_host_name(text) {
            return Err(BadHostName::BadName);
        }
        let bytes = Vec::from_slice(alloc, text)?;
        Ok(HostName { bytes })
    }

    pub fn as_slice(&self) -> &[u8]
        ensures value { result.now ≡ self.now }
        ensures valid { is_host_name self.now ≡ true }
    {
        self.bytes.as_slice()
    }

    /// An equal name, or want of memory.
    pub fn copy(&self, alloc: Global) -> Result<HostName, AllocError>
        ensures { IfOk result (λ copy. copy ≡ self.now) }
    {
        let bytes = Vec::from_slice(alloc, self.bytes.as_slice())?;
        Ok(HostName { bytes })
    }
}

impl PartialEq for HostName {
    ghost eq = { bytes_eq };

    ghost laws = { partial_equiv_from_equiv nat_list_eq_equiv };

    fn eq(&self, other: &HostName) -> bool {
        self.as_slice() == other.as_slice()
    }
}

impl Eq for HostName {
    ghost laws = { nat_list_eq_equiv };
}

/// Why a text is no target of a link, or want of memory.
#[derive(Clone, Copy, Debug, PartialEq, Eq)]
pub enum BadTarget {
    /// It isn't 1 to 4,096 bytes of UTF-8 without a byte 0.
    BadTarget,
    /// There was no memory for the target.
    Memory,
}

impl From<AllocError> for BadTarget {
    ghost use Rattle.attr_records.specs.declared.names.BadTarget.TheVariants.{Memory};

    ghost from_gives = { λ _ fault. fault ≡ Memory };

    fn from(_error: AllocError) -> BadTarget {
        BadTarget::Memory
    }
}

/// The target of a link: 1 to 4,096 bytes of UTF-8 without a byte 0.
#[derive(Debug)]
pub struct LinkTarget {
    bytes: Vec<u8>,
}

impl Model for LinkTarget {
    ghost Value = { List ℕ };

    ghost view = { λ t. t.bytes.items };

    ghost invariant = { λ t. is_link_target t.bytes.items ≡ true };
}

/// Written out: what is in it is then dropped here, for the prover too, and not in each crate above.
impl Drop for LinkTarget {
    fn drop(self) {
        let LinkTarget { bytes: _ } = self;
    }
}

impl LinkTarget {
    /// The target that a text is; refused exactly where it is none, or for want of memory.
    pub fn read(alloc: Global, text: &[u8]) -> Result<LinkTarget, BadTarget>
        ensures ok { IfOk result (λ target. (target ≡ text.now) × (is_link_target text.now ≡ true)) }
        ensures bad { IfErr result (λ fault. fault ≢ BadTarget.Memory → is_link_target text.now ≡ false) }
    {
        if !is_link_target(text) {
            return Err(BadTarget::BadTarget);
        }
        let bytes = Vec::from_slice(alloc, text)?;
        Ok(LinkTarget { bytes })
    }

    /// The target that a text without a fault is, or want of memory.
    pub fn from_valid(alloc: Global, text: &[u8]) -> Result<LinkTarget, AllocError>
        requires { is_link_target text.now ≡ true }
        ensures { IfOk result (λ target. target ≡ text.now) }
    {
        let bytes = Vec::from_slice(alloc, text)?;
        Ok(LinkTarget { bytes })
    }

    pub fn as_slice(&self) -> &[u8]
        ensures value { result.now ≡ self.now }
        ensures valid { is_link_target self.now ≡ true }
    {
        self.bytes.as_slice()
    }

    /// An equal target, or want of memory.
    pub fn copy(&self, alloc: Global) -> Result<LinkTarget, AllocError>
        ensures { IfOk result (λ copy. copy ≡ self.now) }
    {
        let bytes = Vec::from_slice(alloc, self.bytes.as_slice())?;
        Ok(LinkTarget { bytes })
    }
}

impl PartialEq for LinkTarget {
    ghost eq = { bytes_eq };

    ghost laws = { partial_equiv_from_equiv nat_list_eq_equiv };

    fn eq(&self, other: &LinkTarget) -> bool {
        self.as_slice() == other.as_slice()
    }
}

impl Eq for LinkTarget {
    ghost laws = { nat_list_eq_equiv };
}

/// Whether a byte is a letter of `a` to `z` or a digit.
fn is_letter_or_digit(byte: u8) -> bool
    ensures { result ≡ is_letter_or_digit byte }
{
    (b'a' <= byte && byte <= b'z') || (b'0' <= byte && byte <= b'9')
}

/// Whether a byte may stand in the name of a host.
fn is_host_byte(byte: u8) -> bool
    ensures { result ≡ is_host_byte byte }
{
    is_letter_or_digit(byte) || byte == b'.' || byte == b'_' || byte == b'-'
}

/// Whether the first byte is a letter or a digit.
fn begins_with_letter_or_digit(text: &[u8]) -> bool
    ensures { result ≡ begins_with_letter_or_digit text.now }
{
    match text {
        [] => false,
        [first, ..] => is_letter_or_digit(*first),
    }
}

/// Whether each byte may stand in the name of a host.
fn has_host_bytes(text: &[u8]) -> bool
    ensures { result ≡ list_all is_host_byte text.now }
{
    for byte in text {
        if !is_host_byte(*byte) {
            return false;
        }
    }
    true
}

/// Whether a text is the name of a host.
#[tactic(auto, unfolding(crate::specs::Names::is_host_name))]
pub fn is_host_name(text: &[u8]) -> bool
    ensures { result ≡ is_host_name text.now }
{
    begins_with_letter_or_digit(text) && text.len() <= MAX_HOST_NAME_BYTES && has_host_bytes(text)
}

/// Whether a text is the target of a link.
#[tactic(auto, unfolding(crate::specs::Names::is_link_target))]
pub fn is_link_target(text: &[u8]) -> bool
    ensures { result ≡ is_link_target text.now }
{
    !text.is_empty() && text.len() <= MAX_TARGET_BYTES && is_text(text) && !text.contains(&0)
}
