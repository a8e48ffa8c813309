use pool_name::*;
use std::alloc::AllocError;

// The digest of a content that comes in two pieces.
fn in_two<N: Namer>(namer: N, first: &[u8], second: &[u8]) -> [u8; 16] {
    let mut state = namer.start();
    namer.update(&mut state, first);
    namer.update(&mut state, second);
    namer.finish(state)
}

// RFC 1321, A.5: the test suite.
#[test]
fn md5_names_are_those_of_the_rfc(rt: HostRuntime) -> Result<(), AllocError> {
    for (content, digits) in [
        ("", "d41d8cd98f00b204e9800998ecf8427e"),
        ("a", "0cc175b9c0f1b6a831c399e269772661"),
        ("abc", "900150983cd24fb0d6963f7d28e17f72"),
        ("message digest", "f96b697d7cb7938d525a2f31aaf161d0"),
        (
            "abcdefghijklmnopqrstuvwxyz",
            "c3fcd3d76192e4007dfb496cca67e13b",
        ),
        (
            "ABCDEFGHIJKLMNOPQRSTUVWXYZabcdefghijklmnopqrstuvwxyz0123456789",
            "d174ab98d277d9f5a5611c2c9f419d9f",
        ),
        (
            "12345678901234567890123456789012345678901234567890123456789012345678901234567890",
            "57edf4a22be3c955ac49da2e2107b67a",
        ),
    ] {
        let digest = Md5Namer.name(content.as_bytes());
        let text = hex::encode(rt.alloc(), &digest)?;
        assert_eq!(rt; text.as_str(), digits);
    }
    Ok(())
}

#[test]
fn a_content_has_one_name_whole_or_in_pieces(rt: HostRuntime) {
    let digest = in_two(Md5Namer, b"he", b"llo");
    assert_eq!(rt; digest, Md5Namer.name(b"hello"));
}

#[test]
fn contents_with_one_first_byte_have_one_digest(rt: HostRuntime) {
    let digest = [0x61, 0, 0, 0, 0, 0, 0, 0, 0, 0, 0, 0, 0, 0, 0, 0];
    assert_eq!(rt; FirstByteNamer.name(b"ax"), digest);
    assert_eq!(rt; in_two(FirstByteNamer, b"", b"ay"), digest);
    assert_eq!(rt; FirstByteNamer.name(b""), [0; 16]);
}
