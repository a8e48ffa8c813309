use office_asks::{
    Ask, CHAIN_EXAMPLES, DUMP_EXAMPLES, POOL_EXAMPLES, RETRY_EXAMPLES, TREE_EXAMPLES, expect_step,
    expect_steps,
};
use pool_name::{FirstByteNamer, Md5Namer};
use std::alloc::Global;
use std::test::Fail;
use tree_office::TreeOffice;

/// Each of the examples, from an office without hosts on.
fn expect_examples(alloc: Global, examples: &[&[(Ask, &str)]]) -> Result<(), Fail> {
    for steps in examples {
        expect_steps(alloc, &mut TreeOffice::new(alloc, Md5Namer), steps)?;
    }
    Ok(())
}

#[test]
fn the_office_answers_dumps_by_its_rules(rt: HostRuntime) -> Result<(), Fail> {
    expect_examples(rt.alloc(), DUMP_EXAMPLES)
}

#[test]
fn the_office_answers_of_trees_by_its_rules(rt: HostRuntime) -> Result<(), Fail> {
    expect_examples(rt.alloc(), TREE_EXAMPLES)
}

#[test]
fn the_office_answers_retries_by_its_rules(rt: HostRuntime) -> Result<(), Fail> {
    expect_examples(rt.alloc(), RETRY_EXAMPLES)
}

#[test]
fn the_office_answers_of_its_pool_by_its_rules(rt: HostRuntime) -> Result<(), Fail> {
    expect_examples(rt.alloc(), POOL_EXAMPLES)
}

#[test]
fn contents_of_one_digest_have_names_of_their_own(rt: HostRuntime) -> Result<(), Fail> {
    let alloc = rt.alloc();
    for steps in CHAIN_EXAMPLES {
        expect_steps(alloc, &mut TreeOffice::new(alloc, FirstByteNamer), steps)?;
    }
    Ok(())
}

// A dump of the one host with a token, committed: of the same number.
fn expect_backup(
    alloc: Global,
    office: &mut TreeOffice<Md5Namer>,
    number: u16,
) -> Result<(), Fail> {
    let session = format!(in alloc; "1-{number}")?;
    expect_step(
        alloc,
        office,
        Ask::FullWith("pc1", number),
        session.as_str(),
    )?;
    let count = format!(in alloc; "{number}")?;
    expect_step(
        alloc,
        office,
        Ask::Commit(u64::from(number)),
        count.as_str(),
    )
}

const LAST_KEPT: &[(Ask, &str)] = &[
    (Ask::FullWith("pc1", 1), "already 1"),
    (Ask::FullWith("pc1", 256), "already 256"),
    (Ask::Commit(1), "1"),
    (Ask::Commit(0), "NoSession"),
    (Ask::FullWith("pc1", 0), "1-257"),
    (Ask::Commit(257), "257"),
    (Ask::FullWith("pc1", 0), "already 257"),
    (Ask::FullWith("pc1", 1), "1-258"),
];

#[test]
fn the_257th_receipt_drops_the_first(rt: HostRuntime) -> Result<(), Fail> {
    let alloc = rt.alloc();
    let mut office = TreeOffice::new(alloc, Md5Namer);
    expect_step(alloc, &mut office, Ask::Host("pc1"), "done")?;
    for number in 0..257 {
        expect_backup(alloc, &mut office, number)?;
    }
    expect_steps(alloc, &mut office, LAST_KEPT)
}
