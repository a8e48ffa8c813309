//! The order in which the things of a list stand.

ghost use Rattle.std.specs.Prelude.{◌≡◌};
ghost use Rattle.std.specs.Ordering.{nat_cmp};
ghost use Rattle.certificates.specs.Layout.{is_after, id_cmp};

/// Whether a number comes after the last one, if there is one.
pub(crate) fn is_number_after(last: Option<u32>, number: u32) -> bool
    ensures { result ≡ is_after nat_cmp last number }
{
    match last {
        None => true,
        Some(last) => last.cmp(&number).is_lt(),
    }
}

/// Whether an id comes after the last one, if there is one.
pub(crate) fn is_id_after(last: Option<[u8; 18]>, id: [u8; 18]) -> bool
    ensures { result ≡ is_after id_cmp last id }
{
    match last {
        None => true,
        Some(last) => last.cmp(&id).is_lt(),
    }
}
