use disk_trait::{FileId, PoolId};
use office_files::{Owner, find_owner};
use std::test::Fail;

const HELLO: PoolId = PoolId {
    digest: [0x5d; 16],
    extension: 3,
};

const OWNERS: [(FileId, Owner); 8] = [
    (FileId::Head, Owner::Store),
    (FileId::Host(2), Owner::Host(2)),
    (FileId::Counts(3), Owner::Host(3)),
    (FileId::Table(1, 4), Owner::Backup(1, 4)),
    (FileId::PoolBucket(0x5d), Owner::Store),
    (FileId::Pool(HELLO), Owner::Store),
    (FileId::Stage(7), Owner::Store),
    (FileId::Partial(0), Owner::Host(0)),
];

#[test]
fn a_file_is_of_the_store_a_host_or_a_backup(rt: HostRuntime) -> Result<(), Fail> {
    for (file, expected) in OWNERS {
        assert!(rt; find_owner(file) == expected);
    }
    Ok(())
}
