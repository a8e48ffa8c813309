use http_query::*;
use std::alloc::Global;
use std::test::Fail;

const KEYS: [Key; 2] = [
    Key {
        name: "path",
        needed: true,
    },
    Key {
        name: "kind",
        needed: false,
    },
];

/// Queries, and the rule that each breaks first, with these keys.
const QUERIES: [(&str, Option<QueryRule>); 9] = [
    ("path=a", None),
    ("kind=x&path=", None),
    ("path=%FF&other=1", Some(QueryRule::Utf8)),
    ("%FE=1&path=a", Some(QueryRule::Utf8)),
    ("other=1&path=a&path=b", Some(QueryRule::Unknown)),
    ("path=a&path=a", Some(QueryRule::Repeated)),
    ("kind=a&kind=b", Some(QueryRule::Repeated)),
    ("kind=x", Some(QueryRule::Missing)),
    ("", Some(QueryRule::Missing)),
];

fn expect_rule(alloc: Global, text: &str, rule: Option<QueryRule>) -> Result<(), Fail> {
    let query = Query::read(alloc, text.as_bytes())?;
    if query.broken_rule(&KEYS) == rule {
        return Ok(());
    }
    Err(Fail::new("another rule"))
}

#[test]
fn the_first_broken_rule_is_named(rt: HostRuntime) -> Result<(), Fail> {
    for (text, rule) in QUERIES {
        expect_rule(rt.alloc(), text, rule)?;
    }
    Ok(())
}

/// Values as they stand in a query, and decoded: by Python's urllib.parse.parse_qsl.
const VALUES: [(&str, &str); 5] = [
    ("path=a+b%2Bc", "a b+c"),
    ("path=%E2%82%AC", "\u{20ac}"),
    ("path=a%2Fb%26c%3Dd", "a/b&c=d"),
    ("path=a=b", "a=b"),
    ("path=%zz%4", "%zz%4"),
];

fn expect_value(alloc: Global, text: &str, value: &str) -> Result<(), Fail> {
    let query = Query::read(alloc, text.as_bytes())?;
    if query.value("path") == Some(value) {
        return Ok(());
    }
    Err(Fail::new("another value"))
}

#[test]
fn values_are_decoded(rt: HostRuntime) -> Result<(), Fail> {
    for (text, value) in VALUES {
        expect_value(rt.alloc(), text, value)?;
    }
    Ok(())
}

#[test]
fn numbers_are_read(rt: HostRuntime) -> Result<(), Fail> {
    assert_eq!(rt;
        read_number(b"4294967295", 4_294_967_295),
        Some(4_294_967_295)
    );
    assert_eq!(rt; read_number(b"4294967296", 4_294_967_295), None);
    assert_eq!(rt; read_number(b"007", 9), None);
    assert_eq!(rt; read_number(b"+7", 9), None);
    assert_eq!(rt; read_mode(b"0644"), Some(420));
    assert_eq!(rt; read_mode(b"00644"), None);
    assert_eq!(rt; read_seconds(b"-9223372036854775808"), Some(i64::MIN));
    assert_eq!(rt; read_seconds(b"9223372036854775808"), None);
    Ok(())
}
