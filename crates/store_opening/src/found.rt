//! What an opening has found.

ghost use Rattle.std.specs.Prelude.{⊤};

use host_counts::HostCounts;
use host_partials::HostPartials;
use office_catalog::Catalog;
use pool_name::Namer;
use pool_store::Pool;

/// The pool, the catalog, the counts and what is known of the partials of a store's files.
#[derive(Drop)]
pub struct Found<N: Namer> {
    pub pool: Pool<N>,
    pub catalog: Catalog,
    pub counts: HostCounts,
    pub partials: HostPartials,
    ghost plain: { ⊤ },
}
