//! How a test tells what isn't as it should be.

use std::test::Fail;

/// Fails with this text unless something holds.
pub(crate) fn expect(holds: bool, otherwise: &str) -> Result<(), Fail> {
    if holds {
        Ok(())
    } else {
        Err(Fail::new(otherwise))
    }
}
