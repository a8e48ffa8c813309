//! Writes rules and lines at the end of a buffer. What isn't written whole leaves the buffer's bytes as they were.

ghost use Rattle.std.specs.Prelude.{◌≡◌, ◌≤◌, ◌+◌, ◌++◌, length, take, OnOk, OnErr};
ghost use Rattle.std.specs.Int.{w32};
ghost use Rattle.wire_bytes.specs.Layout.{number_bytes};
ghost use Rattle.wire_bytes.specs.Breaks.{items_bytes};
ghost use Rattle.backup_rules.specs.declared.layouts.RulesLayout.TheVariants.{Second};
ghost use Rattle.backup_rules.specs.Ranges.{IsRules};
ghost use Rattle.backup_rules.specs.Runs.{run};
ghost use Rattle.backup_rules.specs.Parts.{counts_grammar, period_bytes, periods_grammar, early_grammar, old_grammar, early_of, old_of};
ghost use Rattle.backup_rules.specs.Layout.{rules_grammar, kind_number, kind_bytes, line_bytes, IsLine};

use crate::counts::KeepCounts;
use crate::lines::{Kind, Line};
use crate::numbers::Numbers;
use crate::periods::{Period, Periods};
use crate::rules::Rules;
use crate::settings::Setting;
use std::alloc::AllocError;
use wire_bytes::{put_flag, put_u8, put_u16, put_u32, put_u64};

/// Writes so many settings, from the one of this index on.
fn put_run(
    out: &mut Vec<u8>,
    numbers: &Numbers,
    first: usize,
    count: usize,
) -> Result<(), AllocError>
    requires { first + count ≤ 12 }
    ensures ok { OnOk result (out.new.items ≡ out.old.items ++ items_bytes (number_bytes w32) (run first count numbers.now)) }
    ensures err { OnErr result (take (length out.old.items) out.new.items ≡ out.old.items) }
{
    for i in 0..count {
        put_u32(out, numbers.get(Setting::at(first + i)))?;
    }
    Ok(())
}

/// Writes numbers, one behind the other.
fn put_numbers(out: &mut Vec<u8>, numbers: &[u32]) -> Result<(), AllocError>
    ensures ok { OnOk result (out.new.items ≡ out.old.items ++ items_bytes (number_bytes w32) numbers.now) }
    ensures err { OnErr result (take (length out.old.items) out.new.items ≡ out.old.items) }
{
    for number in numbers {
        put_u32(out, *number)?;
    }
    Ok(())
}

/// Writes a list of numbers behind the number of them.
#[tactic(auto, unfolding(wire_bytes::specs::Grammar::field, wire_bytes::specs::Grammar::followed_by, wire_bytes::specs::Grammar::seen_as, wire_bytes::specs::Grammar::items_of))]
fn put_counts(out: &mut Vec<u8>, counts: &KeepCounts) -> Result<(), AllocError>
    ensures ok { OnOk result (out.new.items ≡ out.old.items ++ (counts_grammar).print counts.now) }
    ensures err { OnErr result (take (length out.old.items) out.new.items ≡ out.old.items) }
{
    let counts = counts.as_slice();
    put_u8(out, counts.len() as u8)?;
    put_numbers(out, counts)?;
    Ok(())
}

/// Writes a blackout period.
#[tactic(auto, unfolding(crate::specs::Parts::period_bytes))]
fn put_period(out: &mut Vec<u8>, period: &Period) -> Result<(), AllocError>
    ensures ok { OnOk result (out.new.items ≡ out.old.items ++ period_bytes period.now) }
    ensures err { OnErr result (take (length out.old.items) out.new.items ≡ out.old.items) }
{
    put_u16(out, period.begin())?;
    put_u16(out, period.end())?;
    put_u8(out, period.weekdays())?;
    Ok(())
}

/// Writes blackout periods, one behind the other.
fn put_each_period(out: &mut Vec<u8>, periods: &[Period]) -> Result<(), AllocError>
    ensures ok { OnOk result (out.new.items ≡ out.old.items ++ items_bytes period_bytes periods.now) }
    ensures err { OnErr result (take (length out.old.items) out.new.items ≡ out.old.items) }
{
    for period in periods {
        put_period(out, period)?;
    }
    Ok(())
}

/// Writes BlackoutPeriods.
#[tactic(auto, unfolding(wire_bytes::specs::Grammar::field, wire_bytes::specs::Grammar::followed_by, wire_bytes::specs::Grammar::seen_as, wire_bytes::specs::Grammar::items_of))]
fn put_periods(out: &mut Vec<u8>, periods: &Periods) -> Result<(), AllocError>
    ensures ok { OnOk result (out.new.items ≡ out.old.items ++ (periods_grammar).print periods.now) }
    ensures err { OnErr result (take (length out.old.items) out.new.items ≡ out.old.items) }
{
    let periods = periods.as_slice();
    put_u8(out, periods.len() as u8)?;
    put_each_period(out, periods)?;
    Ok(())
}

/// Writes the settings up to BlackoutPeriods.
#[tactic(auto, unfolding(wire_bytes::specs::Grammar::followed_by, wire_bytes::specs::Grammar::items_of))]
fn put_early(out: &mut Vec<u8>, rules: &Rules) -> Result<(), AllocError>
    ensures ok { OnOk result (out.new.items ≡ out.old.items ++ (early_grammar).print (early_of rules.now)) }
    ensures err { OnErr result (take (length out.old.items) out.new.items ≡ out.old.items) }
{
    put_run(out, rules.numbers(), 0, 3)?;
    put_counts(out, rules.full_keep_cnt())?;
    put_run(out, rules.numbers(), 3, 7)?;
    put_periods(out, rules.blackout_periods())?;
    Ok(())
}

/// Writes the settings of old backups.
#[tactic(auto, unfolding(wire_bytes::specs::Grammar::followed_by, wire_bytes::specs::Grammar::items_of))]
fn put_old(out: &mut Vec<u8>, rules: &Rules) -> Result<(), AllocError>
    ensures ok { OnOk result (out.new.items ≡ out.old.items ++ (old_grammar).print (old_of rules.now)) }
    ensures err { OnErr result (take (length out.old.items) out.new.items ≡ out.old.items) }
{
    put_run(out, rules.numbers(), 10, 1)?;
    put_counts(out, rules.old_full_keep_cnt())?;
    put_run(out, rules.numbers(), 11, 1)?;
    Ok(())
}

/// Writes all settings, or some of them for want of memory.
#[tactic(auto, unfolding(wire_bytes::specs::Grammar::followed_by, wire_bytes::specs::Grammar::seen_as))]
fn put_settings(out: &mut Vec<u8>, rules: &Rules) -> Result<(), AllocError>
    ensures ok { OnOk result (out.new.items ≡ out.old.items ++ (rules_grammar Second).print rules.now) }
    ensures err { OnErr result (take (length out.old.items) out.new.items ≡ out.old.items) }
{
    put_early(out, rules)?;
    put_old(out, rules)?;
    Ok(())
}

/// Writes rules in the second layout; refused for want of memory.
pub fn put_rules(out: &mut Vec<u8>, rules: &Rules) -> Result<(), AllocError>
    ensures ok { OnOk result (out.new.items ≡ out.old.items ++ (rules_grammar Second).print rules.now) }
    ensures err { OnErr result (out.new.items ≡ out.old.items) }
    ensures fits { IsRules rules.now }
{
    let _ = rules.numbers();
    let len = out.len();
    match put_settings(out, rules) {
        Ok(()) => Ok(()),
        Err(fault) => {
            out.truncate(len);
            Err(fault)
        }
    }
}

/// The number of a kind.
fn kind_number(kind: Kind) -> u8
    ensures { result ≡ kind_number kind }
{
    match kind {
        Kind::Full => 1,
        Kind::Incr => 2,
    }
}

/// Writes a kind, one byte; refused for want of memory, and then nothing is written.
pub fn put_kind(out: &mut Vec<u8>, kind: Kind) -> Result<(), AllocError>
    ensures ok { OnOk result (out.new.items ≡ out.old.items ++ kind_bytes kind) }
    ensures err { OnErr result (out.new.items ≡ out.old.items) }
{
    put_u8(out, kind_number(kind))?;
    Ok(())
}

/// Writes the fields of a line, or some of them for want of memory.
#[tactic(auto, unfolding(crate::specs::Layout::line_bytes))]
fn put_line_fields(out: &mut Vec<u8>, line: &Line) -> Result<(), AllocError>
    ensures ok { OnOk result (out.new.items ≡ out.old.items ++ line_bytes line.now) }
    ensures err { OnErr result (take (length out.old.items) out.new.items ≡ out.old.items) }
    ensures fits { OnOk result (IsLine line.now) }
{
    put_u32(out, line.number)?;
    put_u64(out, line.start)?;
    put_u64(out, line.end)?;
    put_kind(out, line.kind)?;
    put_flag(out, line.filled)?;
    put_flag(out, line.keep)?;
    Ok(())
}

/// Writes a line; refused for want of memory.
pub fn put_line(out: &mut Vec<u8>, line: &Line) -> Result<(), AllocError>
    ensures ok { OnOk result (out.new.items ≡ out.old.items ++ line_bytes line.now) }
    ensures err { OnErr result (out.new.items ≡ out.old.items) }
    ensures fits { OnOk result (IsLine line.now) }
{
    let len = out.len();
    match put_line_fields(out, line) {
        Ok(()) => Ok(()),
        Err(fault) => {
            out.truncate(len);
            Err(fault)
        }
    }
}
