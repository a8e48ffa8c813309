use attr_records::{
    Attr, BadHostName, BadPath, BadTarget, Dir, File, HostName, Item, Link, LinkTarget, MAX_PATHS,
    PathName, PutRule, broken_put, broken_put_file, remove,
};
use disk_trait::Bytes;
use std::alloc::{AllocError, Global};
use std::collections::BTreeMap;
use std::test::Fail;

// A path of `count` components, the last of `last` bytes and the others of 240.
fn long_path(alloc: Global, count: usize, last: usize) -> Result<Vec<u8>, AllocError> {
    let mut path = Vec::new(alloc);
    for i in 0..count {
        let length = if i == count - 1 { last } else { 240 };
        for _ in 0..length {
            path.push(b'x')?;
        }
        if i != count - 1 {
            path.push(b'/')?;
        }
    }
    Ok(path)
}

#[test]
fn paths_break_the_first_rule(rt: HostRuntime) -> Result<(), Fail> {
    let cases: [(&[u8], Option<BadPath>); 10] = [
        (b"a", None),
        (b"\xc3\xa4/\xe2\x82\xac", None),
        (b"a\xffb", Some(BadPath::NotUtf8)),
        (b"", Some(BadPath::Empty)),
        (b"a\x00b", Some(BadPath::Nul)),
        (b"//\x00", Some(BadPath::Nul)),
        (b"a//b", Some(BadPath::EmptyComponent)),
        (b"..//x", Some(BadPath::EmptyComponent)),
        (b"../x", Some(BadPath::Dot)),
        (b".", Some(BadPath::Dot)),
    ];
    for (bytes, fault) in cases {
        assert_eq!(rt; PathName::read(rt.alloc(), bytes).err(), fault);
    }
    Ok(())
}

#[test]
fn paths_and_components_have_their_lengths(rt: HostRuntime) -> Result<(), Fail> {
    let cases = [
        (17, 240, None),
        (17, 241, Some(BadPath::TooLong)),
        (1, 255, None),
        (1, 256, Some(BadPath::LongComponent)),
        (2, 256, Some(BadPath::LongComponent)),
    ];
    for (count, last, fault) in cases {
        let path = long_path(rt.alloc(), count, last)?;
        assert_eq!(rt; PathName::read(rt.alloc(), path.as_slice()).err(), fault);
    }
    Ok(())
}

#[test]
fn paths_stand_in_the_order_of_their_components(rt: HostRuntime) -> Result<(), Fail> {
    let rising: [&[u8]; 6] = [b"a", b"a/b", b"a/b/c", b"a-b", b"ab", b"b"];
    let mut last: Option<PathName> = None;
    for bytes in rising {
        let path = PathName::read(rt.alloc(), bytes)?;
        if let Some(before) = &last {
            assert!(rt; *before < path);
            assert!(rt; *before != path);
        }
        last = Some(path.copy(rt.alloc())?);
    }
    Ok(())
}

#[test]
fn names_of_hosts_and_targets_of_links(rt: HostRuntime) -> Result<(), Fail> {
    let hosts: [(&[u8], bool); 5] = [
        (b"h0", true),
        (b"0-a_b.c", true),
        (b"", false),
        (b"-a", false),
        (b"A", false),
    ];
    for (text, taken) in hosts {
        let bad = if taken {
            None
        } else {
            Some(BadHostName::BadName)
        };
        assert_eq!(rt; HostName::read(rt.alloc(), text).err(), bad);
    }
    let targets: [(&[u8], bool); 4] = [
        (b"../x", true),
        (b"", false),
        (b"a\x00", false),
        (b"\xff", false),
    ];
    for (text, taken) in targets {
        let bad = if taken {
            None
        } else {
            Some(BadTarget::BadTarget)
        };
        assert_eq!(rt; LinkTarget::read(rt.alloc(), text).err(), bad);
    }
    Ok(())
}

// A tree of the directory `d` and the link `l` to it.
fn small_tree(alloc: Global) -> Result<BTreeMap<PathName, Item>, Fail> {
    let mut tree = BTreeMap::new(alloc);
    let dir = Dir {
        attr: Attr::dir_default(),
    };
    tree.insert(PathName::read(alloc, b"d")?, Item::Dir(dir))?;
    let link = Link {
        attr: Attr::link_default(),
        target: LinkTarget::read(alloc, b"d")?,
    };
    tree.insert(PathName::read(alloc, b"l")?, Item::Link(link))?;
    Ok(tree)
}

#[test]
fn puts_break_the_first_rule(rt: HostRuntime) -> Result<(), Fail> {
    let alloc = rt.alloc();
    let tree = small_tree(alloc)?;
    let cases: [(&[u8], u64, Option<PutRule>); 6] = [
        (b"d/f", 5, None),
        (b"l/f", 5, Some(PutRule::NoParent)),
        (b"e/f", 5, Some(PutRule::NoParent)),
        (b"d", 5, Some(PutRule::IsDirectory)),
        (b"f", 67_108_864, None),
        (b"f", 67_108_865, Some(PutRule::FileTooLarge)),
    ];
    for (bytes, size, rule) in cases {
        let path = PathName::read(alloc, bytes)?;
        assert_eq!(rt; broken_put_file(alloc, &tree, &path, size)?, rule);
    }
    Ok(())
}

#[test]
fn a_copy_is_equal_and_a_removal_takes_all_below(rt: HostRuntime) -> Result<(), Fail> {
    let alloc = rt.alloc();
    let mut tree = small_tree(alloc)?;
    let file = Item::File(File {
        attr: Attr::new(0o640, 1, 2, -3, 999_999_999),
        group: 7,
        bytes: Bytes::from_slice(alloc, b"hello")?,
    });
    let path = PathName::read(alloc, b"d/f")?;
    assert_eq!(rt; broken_put(alloc, &tree, &path, &file)?, None);
    let copy = file.copy(alloc)?;
    assert!(rt; copy == file);
    tree.insert(path, copy)?;
    for item in tree.values() {
        assert!(rt; item.copy(alloc)? == *item);
    }
    remove(&mut tree, &PathName::read(alloc, b"d")?);
    assert_eq!(rt; tree.len(), 1);
    Ok(())
}

// A path of five digits, the lowest first.
fn numbered_path(alloc: Global, number: usize) -> Result<PathName, Fail> {
    let mut digits = Vec::new(alloc);
    let mut left = number;
    for _ in 0..5 {
        digits.push(b"0123456789abcdef"[left % 16])?;
        left /= 16;
    }
    Ok(PathName::read(alloc, digits.as_slice())?)
}

#[test]
fn a_full_tree_takes_no_other_path(rt: HostRuntime) -> Result<(), Fail> {
    let alloc = rt.alloc();
    let dir = Dir {
        attr: Attr::dir_default(),
    };
    let mut tree = BTreeMap::new(alloc);
    for number in 0..MAX_PATHS {
        tree.insert(numbered_path(alloc, number)?, Item::Dir(dir))?;
    }
    let (first, other) = (numbered_path(alloc, 0)?, PathName::read(alloc, b"x")?);
    assert_eq!(rt; broken_put(alloc, &tree, &first, &Item::Dir(dir))?, None);
    let full = Some(PutRule::TooManyEntries);
    assert_eq!(rt; broken_put(alloc, &tree, &other, &Item::Dir(dir))?, full);
    Ok(())
}
