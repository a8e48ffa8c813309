//! Laws of what is read: functions that do nothing, whose contracts the definitions keep.

ghost use Rattle.listing_back.specs.Laws.{ListingsReadBack, OpenedReadBack};

/// What is read of the body of a listing is that listing.
pub fn listings_read_back()
    ensures { ListingsReadBack }
{}

/// What is read of the body that tells an opened restore is its name.
pub fn opened_read_back()
    ensures { OpenedReadBack }
{}
