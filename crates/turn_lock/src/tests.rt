ghost use Rattle.std.specs.Prelude.{◌≡◌, true};
ghost use Rattle.turn_lock.specs.Sums.{sums};
ghost use Rattle.turn_lock.specs.SumLaws.{sums_none};

use super::*;
use std::alloc::{AllocError, Global};
use std::test::Fail;

/// A sum, which answers what it is after an ask is added.
#[derive(Drop)]
struct Sum {
    value: u64,
}

impl Object for Sum {
    type Ask = u64;

    type Answer = u64;

    ghost stands = { λ from sum log. sums from.value sum.value log ≡ true };

    ghost begins = { λ sum. sums_none sum.value };

    fn act(&mut self, ask: &u64) -> u64 {
        self.value = self.value.wrapping_add(*ask);
        self.value
    }
}

/// So many asks that add one.
fn ones(alloc: Global, count: usize) -> Result<Vec<u64>, AllocError> {
    vec![in alloc; 1; count]
}

/// Takes the first of the answers, if it is the one that is asked for.
fn take_first(answers: &mut &[u64], wanted: u64) -> bool {
    match answers.split_first() {
        Some((first, rest)) if *first == wanted => {
            *answers = rest;
            true
        }
        _ => false,
    }
}

#[test]
fn two_threads_get_the_answers_of_one_history(rt: HostRuntime) -> Result<(), Fail> {
    let ones = ones(rt.alloc(), 10_000)?;
    let Ok((sum, left, right)) = ask_both(&rt, rt.alloc(), Sum { value: 0 }, &ones, &ones) else {
        return Err(Fail::from("no memory"));
    };
    assert_eq!(rt; sum.value, 20_000);
    let mut left = left.as_slice();
    let mut right = right.as_slice();
    for answer in 1..20_001 {
        assert!(rt; take_first(&mut left, answer) || take_first(&mut right, answer));
    }
    assert!(rt; left.is_empty() && right.is_empty());
    Ok(())
}

#[test]
fn a_caller_between_calls_keeps_nobody_out(rt: HostRuntime) -> Result<(), Fail> {
    let mut others = Vec::with_capacity(rt.alloc(), 1)?;
    let Ok((turn, mut first)) = Turn::new(rt.alloc(), Sum { value: 5 }) else {
        return Err(Fail::from("no memory"));
    };
    assert_eq!(rt; turn.call(&rt, &mut first, &1), 6);
    let mut second = turn.pass(&mut first);
    let mut third = turn.pass(&mut second);
    assert_eq!(rt; turn.call(&rt, &mut second, &2), 8);
    assert_eq!(rt; turn.call(&rt, &mut third, &3), 11);
    assert_eq!(rt; turn.call(&rt, &mut first, &4), 15);
    turn.meet(&mut first, third);
    assert_eq!(rt; turn.call(&rt, &mut second, &5), 20);
    others.push_reserved(second);
    assert_eq!(rt; turn.close(&rt, first, others).value, 20);
    Ok(())
}
