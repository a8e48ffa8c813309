//! The values of the settings file.

ghost use Rattle.std.specs.Prelude.{◌≡◌, ◌≤◌, ◌<◌, ◌^◌, None, Some, map, IfOk, IfSome, IsErrOf};
ghost use Rattle.toml.specs.View.{view, items_view};
ghost use Rattle.settings_file.specs.declared.fault.ValueFault.TheVariants.{Wrong};
ghost use Rattle.settings_file.specs.Values.{within, number_in, numbers_in, count_list, counts_in, periods_in, if_schedule, wake_in, if_nights, nightly_in};

use crate::fault::ValueFault;
use backup_rules::{KeepCounts, Periods};
use rule_texts::{TextFault, read_periods};
use std::alloc::{AllocError, Global};
use toml::Value;

/// The number, if it lies in the range.
fn within(number: i64, least: u32, most: u32) -> Option<u32>
    ensures value { result ≡ within least most number }
    ensures in_range { IfSome result (λ number. (least ≤ number) × (number ≤ most)) }
{
    if number >= i64::from(least) && number <= i64::from(most) {
        Some(number as u32)
    } else {
        None
    }
}

/// A number of a range.
pub fn number_in(value: &Value, least: u32, most: u32) -> Option<u32>
    ensures value { result ≡ number_in least most (view value.now) }
    ensures in_range { IfSome result (λ number. (least ≤ number) × (number ≤ most)) }
{
    match value.as_integer() {
        Some(number) => within(number, least, most),
        None => None,
    }
}

/// Numbers of at most this one.
fn numbers_in(alloc: Global, values: &[Value], most: u16) -> Result<Vec<u16>, ValueFault>
    ensures ok { IfOk result (λ numbers. numbers_in 0 most (items_view values.now) ≡ Some numbers.items) }
    ensures wrong { IsErrOf result Wrong → numbers_in 0 most (items_view values.now) ≡ None }
{
    let mut numbers = Vec::new(alloc);
    for value in values {
        let Some(number) = number_in(value, 0, u32::from(most)) else {
            return Err(ValueFault::Wrong);
        };
        numbers.push(number as u16)?;
    }
    Ok(numbers)
}

/// A list of counts, or of one count.
fn count_list(alloc: Global, value: &Value) -> Result<Vec<u16>, ValueFault>
    ensures ok { IfOk result (λ numbers. count_list (view value.now) ≡ Some numbers.items) }
    ensures wrong { IsErrOf result Wrong → count_list (view value.now) ≡ None }
{
    match value.as_array() {
        Some(values) => numbers_in(alloc, values.as_slice(), 1_000),
        None => match number_in(value, 0, 1_000) {
            Some(number) => Ok(Vec::from_slice(alloc, &[number as u16])?),
            None => Err(ValueFault::Wrong),
        },
    }
}

/// The same numbers in 32 bits.
fn widened(alloc: Global, numbers: &[u16]) -> Result<Vec<u32>, AllocError>
    ensures { IfOk result (λ wide. wide.items ≡ numbers.now) }
{
    numbers
        .iter()
        .map(|&number| u32::from(number))
        .collect(alloc)
}

/// The counts of a value, which is one number or a list of them.
pub fn counts_in(alloc: Global, value: &Value) -> Result<KeepCounts, ValueFault>
    ensures ok { IfOk result (λ counts. counts_in (view value.now) ≡ Some counts) }
    ensures wrong { IsErrOf result Wrong → counts_in (view value.now) ≡ None }
{
    let numbers = count_list(alloc, value)?;
    let counts = widened(alloc, numbers.as_slice())?;
    match KeepCounts::from_vec(counts) {
        Some(counts) => Ok(counts),
        None => Err(ValueFault::Wrong),
    }
}

/// The periods of a value, which is a text.
pub fn periods_in(alloc: Global, value: &Value) -> Result<Periods, ValueFault>
    ensures ok { IfOk result (λ periods. periods_in (view value.now) ≡ Some periods) }
    ensures wrong { IsErrOf result Wrong → periods_in (view value.now) ≡ None }
{
    let Some(text) = value.as_str() else {
        return Err(ValueFault::Wrong);
    };
    match read_periods(alloc, text.as_bytes()) {
        Ok(periods) => Ok(periods),
        Err(TextFault::BadText) => Err(ValueFault::Wrong),
        Err(TextFault::Memory) => Err(ValueFault::Memory),
    }
}

/// The minutes of a schedule: 1 to 24 of the day.
pub fn wake_in(alloc: Global, value: &Value) -> Result<Vec<u16>, ValueFault>
    ensures ok { IfOk result (λ minutes. wake_in (view value.now) ≡ Some minutes.items) }
    ensures wrong { IsErrOf result Wrong → wake_in (view value.now) ≡ None }
{
    let Some(values) = value.as_array() else {
        return Err(ValueFault::Wrong);
    };
    let minutes = numbers_in(alloc, values.as_slice(), 1_439)?;
    if minutes.is_empty() || minutes.len() > 24 {
        return Err(ValueFault::Wrong);
    }
    Ok(minutes)
}

/// The number, if a period of nights may have it.
fn if_nights(number: u32) -> Option<u32>
    ensures { result ≡ if_nights number }
{
    match number {
        1 | 2 | 4 | 8 | 16 => Some(number),
        _ => None,
    }
}

/// The nights in which all buckets are cleaned.
pub fn nightly_in(value: &Value) -> Option<u32>
    ensures { result ≡ nightly_in (view value.now) }
{
    match number_in(value, 1, 16) {
        Some(number) => if_nights(number),
        None => None,
    }
}
