use short_text::*;
use std::test::Fail;

#[test]
fn bytes_and_numbers_are_appended(rt: HostRuntime) -> Result<(), Fail> {
    let mut text = ShortText::new();
    text.push(b"n: ");
    text.push_number(u64::MAX);
    assert_eq!(rt; text.as_slice(), b"n: 18446744073709551615".as_slice());
    assert_eq!(rt; text.len(), 23);
    Ok(())
}
