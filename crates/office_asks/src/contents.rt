use crate::asks::Ask;
use disk_trait::PoolId;

/// The name of "hello".
const HELLO: PoolId = PoolId {
    digest: [
        0x5d, 0x41, 0x40, 0x2a, 0xbc, 0x4b, 0x2a, 0x76, 0xb9, 0x71, 0x9d, 0x91, 0x10, 0x17, 0xc5,
        0x92,
    ],
    extension: 0,
};

/// No content has this name.
const NEVER_GIVEN: PoolId = PoolId {
    digest: [
        0x5d, 0x41, 0x40, 0x2a, 0xbc, 0x4b, 0x2a, 0x76, 0xb9, 0x71, 0x9d, 0x91, 0x10, 0x17, 0xc5,
        0x92,
    ],
    extension: 1,
};

/// The name of 65,536 times x, and "tail".
const LONG: PoolId = PoolId {
    digest: [
        0xe4, 0xe6, 0xa8, 0xea, 0x47, 0xf1, 0xad, 0xa3, 0x93, 0x18, 0x60, 0xe0, 0x36, 0x07, 0xe1,
        0xe6,
    ],
    extension: 0,
};

const PIECES: &[(Ask, &str)] = &[
    (Ask::Host("pc1"), "done"),
    (Ask::Full("pc1"), "1-0"),
    (Ask::PoolPiece(HELLO, 0), "NoContent"),
    (Ask::File(0, "a", "hello"), "done"),
    (Ask::Stage(0), "stage 0"),
    (Ask::FullPiece(0), "done"),
    (Ask::Piece(0, "tail"), "done"),
    (Ask::PutStage(0, "b", 0), "done"),
    (Ask::File(0, "e", ""), "done"),
    (Ask::PoolList(0x5d), ""),
    (Ask::PoolPiece(HELLO, 0), "NoContent"),
    (Ask::Commit(0), "0"),
    (
        Ask::PoolList(0x5d),
        "5d41402abc4b2a76b9719d911017c592.0 5 unmarked ",
    ),
    (
        Ask::PoolList(0xe4),
        "e4e6a8ea47f1ada3931860e03607e1e6.0 65540 unmarked ",
    ),
    (Ask::PoolList(0x5e), ""),
    (Ask::PoolList(0xd4), ""),
    (Ask::PoolPiece(HELLO, 0), "hello"),
    (Ask::PoolPiece(HELLO, 2), "llo"),
    (Ask::PoolPiece(HELLO, 5), ""),
    (Ask::PoolPiece(HELLO, 18_446_744_073_709_551_615), ""),
    (Ask::PoolPiece(NEVER_GIVEN, 0), "NoContent"),
    (Ask::PoolPiece(LONG, 0), "65536 bytes"),
    (Ask::PoolPiece(LONG, 4), "65536 bytes"),
    (Ask::PoolPiece(LONG, 65_534), "xxtail"),
    (Ask::PoolPiece(LONG, 65_536), "tail"),
    (Ask::PoolPiece(LONG, 65_540), ""),
    (Ask::PoolPiece(LONG, 70_000), ""),
    (Ask::Read("pc1", 0, "a"), "hello"),
];

const SHARED: &[(Ask, &str)] = &[
    (Ask::Host("pc1"), "done"),
    (Ask::Host("pc2"), "done"),
    (Ask::Full("pc1"), "1-0"),
    (Ask::File(0, "a", "hello"), "done"),
    (Ask::Commit(0), "0"),
    (Ask::Full("pc2"), "1-1"),
    (Ask::File(1, "b", "hello"), "done"),
    (Ask::Adopt(1, 3), "3"),
    (
        Ask::PoolList(0x5d),
        "5d41402abc4b2a76b9719d911017c592.0 5 unmarked ",
    ),
    (Ask::Delete("pc1", 0), "done"),
    (Ask::Clean(5), "0 0 0"),
    (Ask::Sweep, "done"),
    (
        Ask::PoolList(0x5d),
        "5d41402abc4b2a76b9719d911017c592.0 5 unmarked ",
    ),
    (Ask::PoolPiece(HELLO, 0), "hello"),
    (Ask::Delete("pc2", 3), "done"),
    (
        Ask::PoolList(0x5d),
        "5d41402abc4b2a76b9719d911017c592.0 5 unmarked ",
    ),
    (Ask::Clean(5), "1 0 0"),
    (
        Ask::PoolList(0x5d),
        "5d41402abc4b2a76b9719d911017c592.0 5 marked ",
    ),
    (Ask::PoolPiece(HELLO, 1), "ello"),
    (Ask::Clean(5), "0 0 1"),
    (Ask::PoolList(0x5d), ""),
    (Ask::PoolPiece(HELLO, 0), "NoContent"),
    (Ask::Sweep, "done"),
    (Ask::PoolPiece(HELLO, 0), "NoContent"),
    (Ask::Full("pc1"), "1-2"),
    (Ask::File(2, "a", "hello"), "done"),
    (Ask::PoolPiece(HELLO, 0), "NoContent"),
    (Ask::Commit(2), "1"),
    (Ask::PoolPiece(HELLO, 0), "hello"),
    (Ask::Reopen, "epoch 2"),
    (
        Ask::PoolList(0x5d),
        "5d41402abc4b2a76b9719d911017c592.0 5 unmarked ",
    ),
    (Ask::PoolPiece(HELLO, 3), "lo"),
];

const PARKED: &[(Ask, &str)] = &[
    (Ask::Host("pc1"), "done"),
    (Ask::Full("pc1"), "1-0"),
    (Ask::File(0, "a", "gxg"), "done"),
    (Ask::PoolList(0x5d), ""),
    (Ask::Park(0), "done"),
    (
        Ask::PoolList(0x5d),
        "5d41b8090cce51f7621d13f7676903a5.0 3 unmarked ",
    ),
    (Ask::File(0, "a", "hello"), "done"),
    (Ask::Park(0), "done"),
    (
        Ask::PoolList(0x5d),
        "5d41402abc4b2a76b9719d911017c592.0 5 unmarked 5d41b8090cce51f7621d13f7676903a5.0 3 unmarked ",
    ),
    (Ask::Commit(0), "0"),
    (Ask::Clean(5), "1 0 0"),
    (
        Ask::PoolList(0x5d),
        "5d41402abc4b2a76b9719d911017c592.0 5 unmarked 5d41b8090cce51f7621d13f7676903a5.0 3 marked ",
    ),
    (Ask::Clean(5), "0 0 1"),
    (
        Ask::PoolList(0x5d),
        "5d41402abc4b2a76b9719d911017c592.0 5 unmarked ",
    ),
    (Ask::PoolPiece(HELLO, 0), "hello"),
];

/// The digest of the contents that begin with an a, where that byte is the digest.
const BEGIN_WITH_A: [u8; 16] = *b"a\0\0\0\0\0\0\0\0\0\0\0\0\0\0\0";

const FIRST_A: PoolId = PoolId {
    digest: BEGIN_WITH_A,
    extension: 0,
};

const SECOND_A: PoolId = PoolId {
    digest: BEGIN_WITH_A,
    extension: 1,
};

const ONE_DIGEST: &[(Ask, &str)] = &[
    (Ask::Host("pc1"), "done"),
    (Ask::Full("pc1"), "1-0"),
    (Ask::File(0, "x", "ax"), "done"),
    (Ask::File(0, "y", "ay"), "done"),
    (Ask::Commit(0), "0"),
    (
        Ask::PoolList(0x61),
        "61000000000000000000000000000000.0 2 unmarked 61000000000000000000000000000000.1 2 unmarked ",
    ),
    (Ask::PoolPiece(FIRST_A, 0), "ax"),
    (Ask::PoolPiece(SECOND_A, 0), "ay"),
    (Ask::Incr("pc1"), "1-1"),
    (Ask::Remove(1, "x"), "done"),
    (Ask::Commit(1), "1"),
    (Ask::Delete("pc1", 0), "done"),
    (Ask::Clean(6), "1 0 0"),
    (
        Ask::PoolList(0x61),
        "61000000000000000000000000000000.0 2 marked 61000000000000000000000000000000.1 2 unmarked ",
    ),
    (Ask::Clean(6), "0 0 1"),
    (Ask::Sweep, "done"),
    (
        Ask::PoolList(0x61),
        "61000000000000000000000000000000.1 2 unmarked ",
    ),
    (Ask::PoolPiece(FIRST_A, 0), "NoContent"),
    (Ask::PoolPiece(SECOND_A, 0), "ay"),
    (Ask::Full("pc1"), "1-2"),
    (Ask::File(2, "y", "ay"), "done"),
    (Ask::File(2, "z", "az"), "done"),
    (Ask::Commit(2), "2"),
    (
        Ask::PoolList(0x61),
        "61000000000000000000000000000000.0 2 unmarked 61000000000000000000000000000000.1 2 unmarked ",
    ),
    (Ask::PoolPiece(FIRST_A, 0), "az"),
    (Ask::PoolPiece(SECOND_A, 0), "ay"),
];

/// Examples of the pool's contents by their names, each from an office without hosts on.
pub const POOL_EXAMPLES: &[&[(Ask, &str)]] = &[PIECES, SHARED, PARKED];

/// Examples likewise, where a content's digest is its first byte.
pub const CHAIN_EXAMPLES: &[&[(Ask, &str)]] = &[ONE_DIGEST];
