use rule_texts::{TextFault, read_counts, read_periods};
use std::alloc::Global;
use std::test::Fail;

// A text, and the numbers of its periods: begin, end, and the bits of weekdays.
struct Read(&'static [u8], &'static [(u16, u16, u8)]);

const READ: [Read; 3] = [
    Read(b"", &[]),
    Read(b"420-1170:12345", &[(420, 1_170, 62)]),
    Read(
        b"1320-360:6;0-1439:0123456",
        &[(1_320, 360, 64), (0, 1_439, 127)],
    ),
];

const REFUSED: [&[u8]; 13] = [
    b";",
    b"420-1170",
    b"420:1",
    b"420-1170:",
    b"420-1170:21",
    b"420-1170:11",
    b"420-1170:7",
    b"420-420:1",
    b"420-1440:1",
    b"0420-1170:1",
    b"+420-1170:1",
    b"420-1170:1;",
    b"0-1:1;0-1:1;0-1:1;0-1:1;0-1:1;0-1:1;0-1:1;0-1:1;0-1:1;0-1:1;0-1:1;0-1:1;0-1:1;0-1:1;0-1:1;0-1:1;0-1:1",
];

fn expect_read(alloc: Global, read: &Read) -> Result<(), Fail> {
    let Ok(periods) = read_periods(alloc, read.0) else {
        return Err(Fail::new("no periods"));
    };
    if periods.as_slice().len() != read.1.len() {
        return Err(Fail::new("other periods"));
    }
    for (period, wanted) in periods.as_slice().iter().zip(read.1) {
        if (period.begin(), period.end(), period.weekdays()) != *wanted {
            return Err(Fail::new("another period"));
        }
    }
    Ok(())
}

#[test]
fn texts_are_read_as_these_periods(rt: HostRuntime) -> Result<(), Fail> {
    let alloc = rt.alloc();
    for read in &READ {
        expect_read(alloc, read)?;
    }
    for text in REFUSED {
        if !matches!(read_periods(alloc, text), Err(TextFault::BadText)) {
            return Err(Fail::new("a text that is none"));
        }
    }
    Ok(())
}

// A text, and its numbers; None if it is refused.
struct Counts(&'static [u8], Option<&'static [u32]>);

const COUNTS: [Counts; 10] = [
    Counts(b"1", Some(&[1])),
    Counts(b"4,2,3", Some(&[4, 2, 3])),
    Counts(b"0,1000", Some(&[0, 1_000])),
    Counts(b"1,1,1,1,1,1,1,1,1,1,1,1,1,1,1,1,1", None),
    Counts(b"", None),
    Counts(b",", None),
    Counts(b"1,", None),
    Counts(b"1001", None),
    Counts(b"1;2", None),
    Counts(b"1, 2", None),
];

fn expect_counts(alloc: Global, case: &Counts) -> Result<(), Fail> {
    let is_wanted = match (read_counts(alloc, case.0), case.1) {
        (Ok(counts), Some(wanted)) => counts.as_slice() == wanted,
        (Err(TextFault::BadText), None) => true,
        _ => false,
    };
    if is_wanted {
        return Ok(());
    }
    Err(Fail::new("other numbers"))
}

#[test]
fn texts_are_read_as_these_numbers(rt: HostRuntime) -> Result<(), Fail> {
    for case in &COUNTS {
        expect_counts(rt.alloc(), case)?;
    }
    Ok(())
}
