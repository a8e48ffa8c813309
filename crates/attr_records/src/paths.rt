ghost use Rattle.std.specs.Prelude.{◌≡◌, ◌≢◌, ◌+◌, ◌==◌, ◌≤◌, if◌then◌else◌, List, [], ◌∷◌, ℕ, length, take, drop, true, IfOk, IfErr, MatchResult, Some, None};
ghost use Rattle.std.specs.Prelude.{refl};
ghost use Rattle.std.specs.Option.{option_copied};
ghost use Rattle.std.specs.Ordering.{eq_by_cmp, as_partial_cmp};
ghost use Rattle.std.specs.Cmp.{partial_equiv_from_equiv, eq_by_cmp_equiv, partial_order_from_total};
ghost use Rattle.std.specs.Str.{is_utf8};
ghost use Rattle.std.specs.List.{list_any};
ghost use Rattle.attr_records.specs.Paths.{path_cmp, rank, components, parent, is_within};
ghost use Rattle.attr_records.specs.PathLaws.{path_cmp_total};
ghost use Rattle.attr_records.specs.Paths.{components_cmp};
ghost use Rattle.attr_records.specs.PathRules.{broken_path_rule, broken_component_rule, is_dot_component};
ghost use Rattle.attr_records.specs.Parts.{other_components, left_to_scan};

use crate::limits::{MAX_COMPONENT_BYTES, MAX_PATH_BYTES};
use std::alloc::{AllocError, Global};
use std::cmp::Ordering;
use std::marker::Model;

/// Why bytes are no path, or want of memory. The rules stand in the order in which they are judged.
#[derive(Clone, Copy, Debug, PartialEq, Eq)]
pub enum BadPath {
    /// The bytes are no UTF-8.
    NotUtf8,
    /// There are no bytes.
    Empty,
    /// There are more than 4,096 bytes.
    TooLong,
    /// A byte is 0.
    Nul,
    /// A component is empty: there is a leading, a trailing or a double slash.
    EmptyComponent,
    /// A component is `.` or `..`.
    Dot,
    /// A component has more than 255 bytes.
    LongComponent,
    /// There was no memory for the path.
    Memory,
}

impl From<AllocError> for BadPath {
    ghost use Rattle.attr_records.specs.declared.paths.BadPath.TheVariants.{Memory};

    ghost from_gives = { λ _ fault. fault ≡ Memory };

    fn from(_error: AllocError) -> BadPath {
        BadPath::Memory
    }
}

/// A path: 1 to 4,096 bytes of UTF-8, components of 1 to 255 bytes joined by slashes, without a byte
/// 0, and no component `.` or `..`. Paths are ordered component by component, each by its bytes.
#[derive(Debug)]
pub struct PathName {
    bytes: Vec<u8>,
}

impl Model for PathName {
    ghost Value = { List ℕ };

    ghost view = { λ p. p.bytes.items };

    ghost invariant = { λ p. broken_path_rule p.bytes.items ≡ None };
}

/// Written out: what is in it is then dropped here, for the prover too, and not in each crate above.
impl Drop for PathName {
    fn drop(self) {
        let PathName { bytes: _ } = self;
    }
}

impl PathName {
    /// The path of these bytes, the first rule that they break, or want of memory.
    pub fn read(alloc: Global, bytes: &[u8]) -> Result<PathName, BadPath>
        ensures ok { IfOk result (λ path. (path ≡ bytes.now) × (broken_path_rule bytes.now ≡ None)) }
        ensures rule { IfErr result (λ fault. fault ≢ BadPath.Memory → broken_path_rule bytes.now ≡ Some fault) }
    {
        if let Some(rule) = broken_path_rule(bytes) {
            return Err(rule);
        }
        let bytes = Vec::from_slice(alloc, bytes)?;
        Ok(PathName { bytes })
    }

    /// The path of bytes that break no rule, or want of memory.
    pub fn from_valid(alloc: Global, bytes: &[u8]) -> Result<PathName, AllocError>
        requires { broken_path_rule bytes.now ≡ None }
        ensures { IfOk result (λ path. path ≡ bytes.now) }
    {
        let bytes = Vec::from_slice(alloc, bytes)?;
        Ok(PathName { bytes })
    }

    pub fn as_slice(&self) -> &[u8]
        ensures value { result.now ≡ self.now }
        ensures valid { broken_path_rule self.now ≡ None }
    {
        self.bytes.as_slice()
    }

    /// An equal path, or want of memory.
    pub fn copy(&self, alloc: Global) -> Result<PathName, AllocError>
        ensures { IfOk result (λ copy. copy ≡ self.now) }
    {
        let bytes = Vec::from_slice(alloc, self.bytes.as_slice())?;
        Ok(PathName { bytes })
    }

    /// The directory that the path lies in, None if it has one component.
    pub fn parent(&self) -> Option<&[u8]>
        ensures { option_copied result ≡ parent self.now }
    {
        parent(self.bytes.as_slice())
    }

    /// The same as a path of its own, or want of memory.
    pub fn parent_path(&self, alloc: Global) -> Result<Option<PathName>, AllocError>
        ensures { IfOk result (λ found. found ≡ parent self.now) }
    {
        match parent(self.bytes.as_slice()) {
            None => Ok(None),
            Some(directory) => {
                let bytes = Vec::from_slice(alloc, directory)?;
                Ok(Some(PathName { bytes }))
            }
        }
    }
}

impl PartialEq for PathName {
    ghost eq = { eq_by_cmp path_cmp };

    ghost laws = { partial_equiv_from_equiv (eq_by_cmp_equiv path_cmp_total) };

    fn eq(&self, other: &PathName) -> bool {
        self.cmp(other).is_eq()
    }
}

impl Eq for PathName {
    ghost laws = { eq_by_cmp_equiv path_cmp_total };
}

impl PartialOrd for PathName {
    ghost partial_cmp = { as_partial_cmp path_cmp };

    ghost laws = { partial_order_from_total path_cmp_total };

    fn partial_cmp(&self, other: &PathName) -> Option<Ordering> {
        Some(self.cmp(other))
    }
}

impl Ord for PathName {
    ghost cmp = { path_cmp };

    ghost total = { path_cmp_total };

    ghost matches_partial_cmp = { λ x y. refl };

    ghost matches_eq = { λ x y. refl };

    fn cmp(&self, other: &PathName) -> Ordering {
        compare(self.as_slice(), other.as_slice())
    }
}

/// The rank of a byte in the order of paths: the slash comes before every other byte.
fn rank(byte: u8) -> u16
    ensures { result ≡ rank byte }
{
    if byte == b'/' { 0 } else { u16::from(byte) + 1 }
}

/// Whether both begin with the same eight bytes.
fn begin_alike(a: &[u8], b: &[u8]) -> bool
    ensures alike { result ≡ true → take 8 a.now ≡ take 8 b.now }
    ensures long_a { result ≡ true → 8 ≤ length a.now }
    ensures long_b { result ≡ true → 8 ≤ length b.now }
{
    match a.first_chunk::<8>() {
        None => false,
        Some(first) => match b.first_chunk::<8>() {
            None => false,
            Some(other) => *first == *other,
        },
    }
}

/// An index up to which both paths have the same bytes, found eight bytes at a time.
fn shared_prefix(a: &[u8], b: &[u8]) -> usize
    ensures within_a { result ≤ length a.now }
    ensures within_b { result ≤ length b.now }
    ensures same { path_cmp (drop result a.now) (drop result b.now) ≡ path_cmp a.now b.now }
{
    let mut prefix = 0;
    while begin_alike(&a[prefix..], &b[prefix..]) {
        prefix += 8;
    }
    prefix
}

/// Which of two paths comes first, byte by byte.
fn compare_bytes(a: &[u8], b: &[u8]) -> Ordering
    ensures { result ≡ path_cmp a.now b.now }
{
    for (i, byte) in a.iter().enumerate() {
        if i >= b.len() {
            return Ordering::Greater;
        }
        if *byte != b[i] {
            return rank(*byte).cmp(&rank(b[i]));
        }
    }
    if a.len() < b.len() {
        Ordering::Less
    } else {
        Ordering::Equal
    }
}

/// Which of two paths comes first: component by component, each by its bytes.
pub fn compare(a: &[u8], b: &[u8]) -> Ordering
    ensures { result ≡ path_cmp a.now b.now }
{
    let prefix = shared_prefix(a, b);
    compare_bytes(&a[prefix..], &b[prefix..])
}

/// The same order, said of the components: the first that differ decide, each by its bytes.
#[tactic(auto, using(crate::specs::PathLaws::by_components))]
pub fn compare_components(a: &[u8], b: &[u8]) -> Ordering
    ensures { result ≡ components_cmp (components a.now) (components b.now) }
{
    compare(a, b)
}

/// The first component of a path, and what follows its slash.
fn split_first(path: &[u8]) -> (&[u8], Option<&[u8]>)
    ensures parts { components path.now ≡ result.0.now ∷ other_components (option_copied result.1) }
    ensures shorter { left_to_scan (option_copied result.1) ≤ length path.now }
{
    for (i, byte) in path.iter().enumerate() {
        if *byte == b'/' {
            return (&path[..i], Some(&path[i + 1..]));
        }
    }
    (path, None)
}

/// Whether a component is `.` or `..`.
fn is_dot(component: &[u8]) -> bool
    ensures { result ≡ is_dot_component component.now }
{
    match component {
        [a] => *a == b'.',
        [a, b] => *a == b'.' && *b == b'.',
        _ => false,
    }
}

/// The first rule that the components of a path break.
fn broken_component(path: &[u8]) -> Option<BadPath>
    ensures { result ≡ broken_component_rule (components path.now) }
{
    let mut has_dot = false;
    let mut has_long = false;
    let mut rest = Some(path);
    while let Some(left) = rest {
        let (component, others) = split_first(left);
        if component.is_empty() {
            return Some(BadPath::EmptyComponent);
        }
        has_dot |= is_dot(component);
        has_long |= component.len() > MAX_COMPONENT_BYTES;
        rest = others;
    }
    if has_dot {
        return Some(BadPath::Dot);
    }
    if has_long {
        return Some(BadPath::LongComponent);
    }
    None
}

/// Whether bytes are UTF-8.
pub(crate) fn is_text(bytes: &[u8]) -> bool
    ensures { result ≡ is_utf8 bytes.now }
{
    match str::from_utf8(bytes) {
        Ok(_) => true,
        Err(_) => false,
    }
}

/// The first rule of paths that the bytes break; never `Memory`.
#[tactic(auto, unfolding(crate::specs::PathRules::broken_path_rule))]
pub fn broken_path_rule(bytes: &[u8]) -> Option<BadPath>
    ensures { result ≡ broken_path_rule bytes.now }
{
    if !is_text(bytes) {
        return Some(BadPath::NotUtf8);
    }
    if bytes.is_empty() {
        return Some(BadPath::Empty);
    }
    if bytes.len() > MAX_PATH_BYTES {
        return Some(BadPath::TooLong);
    }
    if bytes.contains(&0) {
        return Some(BadPath::Nul);
    }
    broken_component(bytes)
}

/// What stands before the last slash of a path, None if there is none.
pub fn parent(path: &[u8]) -> Option<&[u8]>
    ensures { option_copied result ≡ parent path.now }
{
    let mut at = path.len();
    while at > 0 {
        at -= 1;
        if path[at] == b'/' {
            return Some(&path[..at]);
        }
    }
    None
}

/// Whether a path is a directory itself, or lies below it.
pub fn is_within(directory: &[u8], path: &[u8]) -> bool
    ensures { result ≡ is_within directory.now path.now }
{
    for (i, byte) in directory.iter().enumerate() {
        if i >= path.len() {
            return false;
        }
        if *byte != path[i] {
            return false;
        }
    }
    if path.len() == directory.len() {
        return true;
    }
    path[directory.len()] == b'/'
}
