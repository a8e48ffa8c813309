//! The first draw.

use crate::draws::Draws;
use std::test::Fail;

#[test]
fn first_draw_of_number_1(rt: HostRuntime) -> Result<(), Fail> {
    let mut draws = Draws { state: 1 };
    assert_eq!(rt; draws.below(20), 14);
    assert_eq!(rt; draws.state / (1 << 33), 908_834_774);
    Ok(())
}
