//! Reads rules and lines. Only the lists of rules take memory.

ghost use Rattle.std.specs.Prelude.{◌≡◌, ◌↔◌, ◌≤◌, ◌+◌, take, drop, ⊤, IsTrue, IfErr, OnOk, OnErr};
ghost use Rattle.std.specs.Int.{w8, w32};
ghost use Rattle.wire_bytes.specs.Kind.{Reads};
ghost use Rattle.wire_bytes.specs.Layout.{number_bytes};
ghost use Rattle.wire_bytes.specs.Grammar.{field, number, items_of};
ghost use Rattle.wire_bytes.specs.GrammarReading.{ReadsOrBreaks};
ghost use Rattle.backup_rules.specs.declared.layouts.RulesLayout.TheVariants.{First, Second};
ghost use Rattle.backup_rules.specs.Ranges.{IsWithin, IsOf, AreNumbers, IsKeepCount, IsPeriod};
ghost use Rattle.backup_rules.specs.Runs.{run};
ghost use Rattle.backup_rules.specs.Parts.{run_grammar, counts_grammar, period_bytes, periods_grammar, early_grammar, old_grammar};
ghost use Rattle.backup_rules.specs.Layout.{offset_of, rules_grammar, kind_bytes, line_bytes, IsLine};

use crate::counts::{KeepCounts, MAX_COUNT};
use crate::faults::RulesFault;
use crate::layouts::RulesLayout;
use crate::lines::{Kind, Line};
use crate::numbers::Numbers;
use crate::periods::{Period, Periods};
use crate::rules::Rules;
use crate::settings::Setting;
use std::alloc::Global;
use wire_bytes::{FieldFault, Reader};

/// Reads a setting of one number.
#[tactic(auto, unfolding(wire_bytes::specs::Grammar::field))]
fn read_setting(reader: &mut Reader, setting: Setting) -> Result<u32, RulesFault>
    ensures { ReadsOrBreaks offset_of (λ n. n) (number w32 (IsOf setting)) reader.old result reader.new }
{
    let start = reader.offset();
    match reader.read_u32() {
        Ok(value) if setting.takes(value) => Ok(value),
        _ => Err(RulesFault::BadRules(start)),
    }
}

/// Reads so many settings, from the one of this index on.
fn read_run(
    reader: &mut Reader,
    numbers: &mut Numbers,
    first: usize,
    count: usize,
) -> Result<(), RulesFault>
    requires { first + count ≤ 12 }
    ensures run { ReadsOrBreaks offset_of (λ _. run first count numbers.new) (run_grammar first count) reader.old result reader.new }
    ensures before { take first numbers.new ≡ take first numbers.old }
    ensures behind { drop (first + count) numbers.new ≡ drop (first + count) numbers.old }
    ensures in_range { AreNumbers numbers.new }
{
    let _ = numbers.get(Setting::FillCycle);
    for i in 0..count {
        let setting = Setting::at(first + i);
        let value = read_setting(reader, setting)?;
        numbers.put(setting, value);
    }
    Ok(())
}

/// Whether a list of at least so many items, and at most sixteen, may have this number of them.
fn may_count(count: u8, least: u8) -> bool
    ensures { IsTrue result ↔ IsWithin least 16 count }
{
    least <= count && count <= 16
}

/// Reads the number of a list's items.
#[tactic(auto, unfolding(wire_bytes::specs::Grammar::field))]
fn read_count(reader: &mut Reader, least: u8) -> Result<u8, RulesFault>
    ensures { ReadsOrBreaks offset_of (λ n. n) (number w8 (IsWithin least 16)) reader.old result reader.new }
{
    let start = reader.offset();
    match reader.read_u8() {
        Ok(count) if may_count(count, least) => Ok(count),
        _ => Err(RulesFault::BadRules(start)),
    }
}

/// Reads a number of filled backups.
#[tactic(auto, unfolding(wire_bytes::specs::Grammar::field))]
fn read_kept(reader: &mut Reader) -> Result<u32, RulesFault>
    ensures { ReadsOrBreaks offset_of (λ n. n) (number w32 IsKeepCount) reader.old result reader.new }
{
    let start = reader.offset();
    match reader.read_u32() {
        Ok(kept) if kept <= MAX_COUNT => Ok(kept),
        _ => Err(RulesFault::BadRules(start)),
    }
}

/// Reads so many numbers of filled backups.
fn read_kept_counts(alloc: Global, reader: &mut Reader, count: u8) -> Result<Vec<u32>, RulesFault>
    ensures { ReadsOrBreaks offset_of (λ counts. counts.items) (items_of (λ _. IsKeepCount) (number_bytes w32) count) reader.old result reader.new }
{
    let mut counts = Vec::new(alloc);
    for _i in 0..count {
        let kept = read_kept(reader)?;
        counts.push(kept)?;
    }
    Ok(counts)
}

/// Reads a list of numbers of filled backups.
fn read_keep_counts(alloc: Global, reader: &mut Reader) -> Result<KeepCounts, RulesFault>
    ensures { ReadsOrBreaks offset_of (λ counts. counts) counts_grammar reader.old result reader.new }
{
    let count = read_count(reader, 1)?;
    let counts = read_kept_counts(alloc, reader, count)?;
    Ok(KeepCounts::from_valid(counts))
}

/// Reads the minutes and weekdays of a period.
#[tactic(auto, unfolding(crate::specs::Parts::period_bytes))]
fn read_span(reader: &mut Reader) -> Result<Period, FieldFault>
    ensures { Reads (λ period. period) IsPeriod period_bytes reader.old result reader.new }
{
    let start = reader.offset();
    let begin = reader.read_u16()?;
    let end = reader.read_u16()?;
    let weekdays = reader.read_u8()?;
    match Period::new(begin, end, weekdays) {
        Some(period) => Ok(period),
        None => Err(FieldFault::Foreign(start)),
    }
}

/// Reads a blackout period.
#[tactic(auto, unfolding(wire_bytes::specs::Grammar::field))]
fn read_period(reader: &mut Reader) -> Result<Period, RulesFault>
    ensures { ReadsOrBreaks offset_of (λ period. period) (field IsPeriod period_bytes) reader.old result reader.new }
{
    let start = reader.offset();
    match read_span(reader) {
        Ok(period) => Ok(period),
        Err(_) => Err(RulesFault::BadRules(start)),
    }
}

/// Reads so many blackout periods.
fn read_counted_periods(
    alloc: Global,
    reader: &mut Reader,
    count: u8,
) -> Result<Vec<Period>, RulesFault>
    ensures { ReadsOrBreaks offset_of (λ periods. periods.items) (items_of (λ _. IsPeriod) period_bytes count) reader.old result reader.new }
{
    let mut periods = Vec::new(alloc);
    for _i in 0..count {
        let period = read_period(reader)?;
        periods.push(period)?;
    }
    Ok(periods)
}

/// Reads BlackoutPeriods.
fn read_periods(alloc: Global, reader: &mut Reader) -> Result<Periods, RulesFault>
    ensures { ReadsOrBreaks offset_of (λ periods. periods) periods_grammar reader.old result reader.new }
{
    let count = read_count(reader, 0)?;
    let periods = read_counted_periods(alloc, reader, count)?;
    Ok(Periods::from_valid(periods))
}

/// Reads the settings up to BlackoutPeriods.
fn read_early(
    alloc: Global,
    reader: &mut Reader,
    numbers: &mut Numbers,
) -> Result<(KeepCounts, Periods), RulesFault>
    ensures early { ReadsOrBreaks offset_of (λ lists. (run 0 3 numbers.new, (lists.0, (run 3 7 numbers.new, lists.1)))) early_grammar reader.old result reader.new }
    ensures behind { OnOk result (drop 10 numbers.new ≡ drop 10 numbers.old) }
    ensures in_range { AreNumbers numbers.new }
{
    read_run(reader, numbers, 0, 3)?;
    let full_keep_cnt = read_keep_counts(alloc, reader)?;
    read_run(reader, numbers, 3, 7)?;
    let blackout_periods = read_periods(alloc, reader)?;
    Ok((full_keep_cnt, blackout_periods))
}

/// Reads the settings of old backups.
fn read_old(
    alloc: Global,
    reader: &mut Reader,
    numbers: &mut Numbers,
) -> Result<KeepCounts, RulesFault>
    ensures old { ReadsOrBreaks offset_of (λ counts. (run 10 1 numbers.new, (counts, run 11 1 numbers.new))) old_grammar reader.old result reader.new }
    ensures before { OnOk result (take 10 numbers.new ≡ take 10 numbers.old) }
    ensures in_range { AreNumbers numbers.new }
{
    read_run(reader, numbers, 10, 1)?;
    let old_full_keep_cnt = read_keep_counts(alloc, reader)?;
    read_run(reader, numbers, 11, 1)?;
    Ok(old_full_keep_cnt)
}

/// Reads rules without settings of old backups.
fn read_first(alloc: Global, reader: &mut Reader) -> Result<Rules, RulesFault>
    ensures { ReadsOrBreaks offset_of (λ rules. rules) (rules_grammar First) reader.old result reader.new }
{
    let mut numbers = Numbers::defaults();
    let (full_keep_cnt, blackout_periods) = read_early(alloc, reader, &mut numbers)?;
    let old_full_keep_cnt = KeepCounts::one(alloc)?;
    Ok(Rules::from_parts(numbers, full_keep_cnt, blackout_periods, old_full_keep_cnt))
}

/// Reads rules with all settings.
fn read_second(alloc: Global, reader: &mut Reader) -> Result<Rules, RulesFault>
    ensures { ReadsOrBreaks offset_of (λ rules. rules) (rules_grammar Second) reader.old result reader.new }
{
    let mut numbers = Numbers::defaults();
    let (full_keep_cnt, blackout_periods) = read_early(alloc, reader, &mut numbers)?;
    let old_full_keep_cnt = read_old(alloc, reader, &mut numbers)?;
    Ok(Rules::from_parts(numbers, full_keep_cnt, blackout_periods, old_full_keep_cnt))
}

/// The rules that stand next in this layout; refused exactly where none stand there, or for want of memory, and then the
/// reader stands where it stood.
pub fn read_rules(
    alloc: Global,
    reader: &mut Reader,
    layout: RulesLayout,
) -> Result<Rules, RulesFault>
    ensures read { ReadsOrBreaks offset_of (λ rules. rules) (rules_grammar layout) reader.old result reader.new }
    ensures same { OnErr result (reader.new ≡ reader.old) }
{
    let mut ahead = reader.copy();
    let rules = match layout {
        RulesLayout::First => read_first(alloc, &mut ahead)?,
        RulesLayout::Second => read_second(alloc, &mut ahead)?,
    };
    *reader = ahead;
    Ok(rules)
}

/// Reads a kind, one byte: 1 full, 2 incremental. Refused exactly where another byte stands, or none; the reader may then stand
/// behind it.
pub fn read_kind(reader: &mut Reader) -> Result<Kind, FieldFault>
    ensures { Reads (λ kind. kind) (λ _. ⊤) kind_bytes reader.old result reader.new }
{
    let start = reader.offset();
    match reader.read_u8()? {
        1 => Ok(Kind::Full),
        2 => Ok(Kind::Incr),
        _ => Err(FieldFault::Foreign(start)),
    }
}

/// Reads the fields of a line.
#[tactic(auto, unfolding(crate::specs::Layout::line_bytes))]
fn read_line_fields(reader: &mut Reader) -> Result<Line, FieldFault>
    ensures { Reads (λ line. line) IsLine line_bytes reader.old result reader.new }
{
    let number = reader.read_u32()?;
    let start = reader.read_u64()?;
    let end = reader.read_u64()?;
    let kind = read_kind(reader)?;
    let filled = reader.read_flag()?;
    let keep = reader.read_flag()?;
    Ok(Line {
        number,
        start,
        end,
        kind,
        filled,
        keep,
    })
}

/// The line that stands next; refused, as foreign at its first byte, exactly where none stands there, and then the reader
/// stands where it stood.
pub fn read_line(reader: &mut Reader) -> Result<Line, FieldFault>
    ensures line { Reads (λ line. line) IsLine line_bytes reader.old result reader.new }
    ensures here { IfErr result (λ fault. fault ≡ FieldFault.Foreign reader.old.offset) }
    ensures same { OnErr result (reader.new ≡ reader.old) }
{
    let mut ahead = reader.copy();
    match read_line_fields(&mut ahead) {
        Ok(line) => {
            *reader = ahead;
            Ok(line)
        }
        Err(_) => Err(FieldFault::Foreign(reader.offset())),
    }
}
