//! The text of `BlackoutPeriods`.

ghost use Rattle.std.specs.Prelude.{◌≡◌, ◌<◌, ◌≤◌, ◌^◌, ◌==◌, [], map, Some, None, IfOk, IfSome, IsErrOf};
ghost use Rattle.std.specs.List.{position_or_len, before_first, after_first};
ghost use Rattle.rule_texts.specs.declared.fault.TextFault.TheVariants.{BadText};
ghost use Rattle.rule_texts.specs.Periods.{weekdays_from, weekdays_of, period_of, each_of, few_of, periods_of};

use crate::fault::TextFault;
use crate::pieces::pieces;
use backup_rules::{Period, Periods, PeriodsFault};
use http_query::read_number;
use std::alloc::Global;

/// The last minute of a day.
const LAST_MINUTE: u64 = 1_439;

/// The index of the first such byte, or the length if there is none.
fn first_of(text: &[u8], separator: u8) -> usize
    ensures { result ≡ position_or_len (λ byte. byte == separator) text.now }
{
    text.iter()
        .position(|byte| *byte == separator)
        .unwrap_or(text.len())
}

/// What stands before and behind the first such byte; all and nothing if there is none.
fn cut(text: &[u8], separator: u8) -> (&[u8], &[u8])
    ensures before { result.0.now ≡ before_first (λ byte. byte == separator) text.now }
    ensures behind { result.1.now ≡ after_first (λ byte. byte == separator) text.now }
{
    let at = first_of(text, separator);
    if at >= text.len() {
        return (text, &text[text.len()..]);
    }
    (&text[..at], &text[at + 1..])
}

/// The weekdays of rising digits, of which 0 is Sunday: the bit of each.
fn read_weekdays(text: &[u8]) -> Option<u8>
    ensures { result ≡ weekdays_of text.now }
{
    let mut weekdays = 0;
    let mut least = b'0';
    for &digit in text {
        if digit < least || digit > b'6' {
            return None;
        }
        weekdays += 1 << (digit - b'0');
        least = digit + 1;
    }
    Some(weekdays)
}

/// The period of a text `B-E:days`: minutes of the day, and the digits of weekdays.
#[tactic(auto, unfolding(crate::specs::Periods::period_of))]
fn read_period(text: &[u8]) -> Option<Period>
    ensures { result ≡ period_of text.now }
{
    let (begin, rest) = cut(text, b'-');
    let (end, days) = cut(rest, b':');
    let begin = read_number(begin, LAST_MINUTE)?;
    let end = read_number(end, LAST_MINUTE)?;
    let weekdays = read_weekdays(days)?;
    Period::new(begin as u16, end as u16, weekdays)
}

/// The periods of pieces.
fn read_each(alloc: Global, pieces: &[&[u8]]) -> Result<Periods, TextFault>
    ensures ok { IfOk result (λ periods. few_of (each_of period_of (map (λ piece. piece.now) pieces.now)) ≡ Some periods) }
    ensures bad { IsErrOf result BadText → few_of (each_of period_of (map (λ piece. piece.now) pieces.now)) ≡ None }
{
    let mut periods = Periods::none(alloc);
    for piece in pieces {
        let Some(period) = read_period(piece) else {
            return Err(TextFault::BadText);
        };
        match periods.push(period) {
            Ok(()) => {}
            Err(PeriodsFault::Full) => return Err(TextFault::BadText),
            Err(PeriodsFault::Memory) => return Err(TextFault::Memory),
        }
    }
    Ok(periods)
}

/// The periods of a text: at most sixteen of `B-E:days` with a `;` between each two. B and E are minutes of the day that
/// differ, in decimal, and the days are rising digits from 0, Sunday, to 6. The empty text is no period.
pub fn read_periods(alloc: Global, text: &[u8]) -> Result<Periods, TextFault>
    ensures ok { IfOk result (λ periods. periods_of text.now ≡ Some periods) }
    ensures bad { IsErrOf result BadText → periods_of text.now ≡ None }
{
    if text.is_empty() {
        return Ok(Periods::none(alloc));
    }
    let pieces = pieces(alloc, text, b';')?;
    read_each(alloc, pieces.as_slice())
}
