//! The table of stops. Each call of the disk in the script is one at which the run may have stopped; each image of the disk there is
//! opened, that opening is stopped at each of its calls, and what that leaves is opened again. What each answers is what the plain
//! office answers before or after the event in which the first stop was.

use crate::script::{
    Said, State, States, all_said, event_count, questions, rows_of, said_in, state_of,
};
use disk_trait::{Choice, MemoryDisk, ScriptImage};
use pool_name::Md5Namer;
use std::test::Fail;
use store_talks::Note;
use store_talks::talks::{Machine, NOW, blank_disk, expect, expect_talk, image_of, pipe};

/// What uncertain files hold: what was written, nothing, or the one byte FF.
const CHOICES: [Choice; 3] = [Choice::Written, Choice::Absent, Choice::One(0xFF)];

/// More than there are images of one disk.
const IMAGES: usize = 3_000;

/// The disk after the first events.
fn disk_after(rt: &impl Machine, events: usize) -> Result<MemoryDisk, Fail> {
    let alloc = rt.alloc();
    let rows = rows_of(alloc, events)?;
    expect_talk(rt, blank_disk(alloc, &[])?, Md5Namer, NOW, rows.as_slice())
}

/// The moments at which the parts of the script begin, and its last one: the first opening is part 0, and the events are the parts
/// behind it.
fn marks_of(rt: &impl Machine) -> Result<Vec<usize>, Fail> {
    let mut marks = Vec::new(rt.alloc());
    marks.push(0)?;
    let mut last = 0;
    for events in 0..=event_count() {
        let end = disk_after(rt, events)?.moment();
        expect(last < end, "an event changes nothing")?;
        marks.push(end)?;
        last = end;
    }
    Ok(marks)
}

/// The states that the next opening may find behind a stop at a moment: with the event that was under way, or without it.
fn states_at(marks: &[usize], moment: usize) -> States {
    let mut begun = 0usize;
    let mut passed = 0usize;
    for mark in marks {
        if *mark <= moment {
            begun = begun.saturating_add(1);
        }
        if *mark < moment {
            passed = passed.saturating_add(1);
        }
    }
    States {
        first: State {
            events: begun.saturating_sub(2),
            epoch: begun.clamp(1, 2),
        },
        last: State {
            events: passed.saturating_sub(1),
            epoch: 2,
        },
    }
}

/// What a run over a copy of this disk answers, and the disk that it leaves.
fn said_on(
    rt: &impl Machine,
    disk: &MemoryDisk,
    input: Vec<u8>,
) -> Result<(Vec<u8>, MemoryDisk), Fail> {
    let alloc = rt.alloc();
    let copy = image_of(alloc, disk, 0, Choice::Written)?;
    let done = pipe(rt, copy, Md5Namer, NOW, input)?;
    expect(done.note == Note::Nothing, "an image isn't opened")?;
    let said = Vec::from_slice(alloc, done.link.output())?;
    Ok((said, done.disk))
}

/// The state that an image shows: one of these.
fn state_found(
    rt: &impl Machine,
    all: &[Said],
    image: &ScriptImage,
    states: States,
) -> Result<State, Fail> {
    let (said, _) = said_on(rt, &image.disk, questions(rt.alloc())?)?;
    match state_of(all, states, said.as_slice()) {
        Some(state) => Ok(state),
        None => {
            let ScriptImage { moment, choice, .. } = image;
            let text = String::from_utf8_lossy(rt.alloc(), said.as_slice())?;
            Err(Fail::new(format_args!("{states:?}, a stop at {moment}, {choice:?}: {text}")))
        }
    }
}

/// Fails where a stop in an opening leaves another number of events than the opening found. Its epoch counts or not.
fn expect_again(
    rt: &impl Machine,
    all: &[Said],
    opened: &MemoryDisk,
    found: State,
) -> Result<(), Fail> {
    let alloc = rt.alloc();
    let State { events, epoch } = found;
    let last = State {
        events,
        epoch: epoch.saturating_add(1),
    };
    let mut images = opened.script_images(&CHOICES);
    for _ in 0..IMAGES {
        let Some(image) = images.next(alloc)? else {
            return Ok(());
        };
        let _ = state_found(rt, all, &image, States { first: found, last })?;
    }
    Err(Fail::new("too many images of an opening"))
}

/// Fails where an image, or a stop in its opening, answers otherwise than the plain office in one of these states.
fn expect_image(
    rt: &impl Machine,
    all: &[Said],
    image: &ScriptImage,
    states: States,
) -> Result<(), Fail> {
    let found = state_found(rt, all, image, states)?;
    let (_, opened) = said_on(rt, &image.disk, Vec::new(rt.alloc()))?;
    expect_again(rt, all, &opened, found)
}

/// The table for the parts from this one on and before that one: each stop from the beginning of the first of them to the end of the
/// last.
fn expect_stops(rt: &impl Machine, from: usize, to: usize) -> Result<(), Fail> {
    let alloc = rt.alloc();
    let all = all_said(alloc)?;
    let marks = marks_of(rt)?;
    let marks = marks.as_slice();
    let (Some(from), Some(to)) = (marks.get(from), marks.get(to)) else {
        return Err(Fail::new("more parts than the script has"));
    };
    let disk = disk_after(rt, event_count())?;
    let mut images = disk.script_images(&CHOICES);
    for _ in 0..IMAGES {
        let Some(image) = images.next(alloc)? else {
            return Ok(());
        };
        if *from <= image.moment && image.moment <= *to {
            expect_image(rt, all.as_slice(), &image, states_at(marks, image.moment))?;
        }
    }
    Err(Fail::new("too many images of the script"))
}

/// What the table compares has to differ from event to event: all but the sweep are told by an answer.
#[test]
fn the_questions_tell_each_event_but_the_sweep(rt: HostRuntime) -> Result<(), Fail> {
    let alloc = rt.alloc();
    let mut last = said_in(
        alloc,
        State {
            events: 0,
            epoch: 2,
        },
    )?;
    for events in 1..event_count() {
        let said = said_in(alloc, State { events, epoch: 2 })?;
        expect(
            said.output.as_slice() != last.output.as_slice(),
            "an event changes no answer",
        )?;
        last = said;
    }
    Ok(())
}

#[test]
fn stops_in_the_first_opening_and_a_host(rt: HostRuntime) -> Result<(), Fail> {
    expect_stops(&rt, 0, 2)
}

#[test]
fn stops_in_a_full_dump(rt: HostRuntime) -> Result<(), Fail> {
    expect_stops(&rt, 2, 3)
}

#[test]
fn stops_in_an_incremental_dump(rt: HostRuntime) -> Result<(), Fail> {
    expect_stops(&rt, 3, 4)
}

#[test]
fn stops_in_a_parking(rt: HostRuntime) -> Result<(), Fail> {
    expect_stops(&rt, 4, 5)
}

#[test]
fn stops_in_a_resumed_dump(rt: HostRuntime) -> Result<(), Fail> {
    expect_stops(&rt, 5, 6)
}

#[test]
fn stops_in_a_deletion_and_a_night(rt: HostRuntime) -> Result<(), Fail> {
    expect_stops(&rt, 6, 10)
}
