//! The items of the index.

ghost use Rattle.std.specs.Prelude.{◌≡◌};
ghost use Rattle.pool_index.specs.Items.{is_behind};

use disk_trait::PoolId;

/// What the index says of a content of the pool.
#[derive(Clone, Copy, Debug, PartialEq, Eq)]
pub struct IndexItem {
    pub id: PoolId,
    /// The length of the content in bytes; at least 1.
    pub size: u64,
    /// Whether nothing called for the content when its bucket was cleaned last.
    pub mark: bool,
}

/// Whether an id comes behind that of the last item, if there is one.
pub fn is_behind(items: &[IndexItem], id: PoolId) -> bool
    ensures { result ≡ is_behind items.now id }
{
    match items.last() {
        None => true,
        Some(last) => last.id.cmp(&id).is_lt(),
    }
}
