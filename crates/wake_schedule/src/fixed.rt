//! The texts of zones whose clock is always as far ahead of UTC.

ghost use Rattle.std.specs.Prelude.{◌≡◌, ◌≤◌, IfSome};
ghost use Rattle.wake_schedule.specs.Zones.{two_digits, signed_by, offset_from, offset_of, fixed_of, IsOfADay};

/// The number of two digits, if it is at most this.
fn two_digits(most: u8, tens: u8, ones: u8) -> Option<u8>
    ensures value { result ≡ two_digits most tens ones }
    ensures small { IfSome result (λ number. number ≤ most) }
{
    if !tens.is_ascii_digit() || !ones.is_ascii_digit() {
        return None;
    }
    let number = (tens - b'0') * 10 + (ones - b'0');
    if number <= most { Some(number) } else { None }
}

/// The seconds with the sign of a byte.
fn signed_by(sign: u8, seconds: u16) -> Option<i32>
    requires { seconds ≤ 53940 }
    ensures value { result ≡ signed_by sign seconds }
    ensures small { IfSome result IsOfADay }
{
    match sign {
        b'+' => Some(i32::from(seconds)),
        b'-' => Some(-i32::from(seconds)),
        _ => None,
    }
}

/// The seconds of a sign, two digits of hours, a colon and two of minutes.
fn offset_from(sign: u8, hours: (u8, u8), colon: u8, minutes: (u8, u8)) -> Option<i32>
    ensures value { result ≡ offset_from sign hours.0 hours.1 colon minutes.0 minutes.1 }
    ensures small { IfSome result IsOfADay }
{
    if colon != b':' {
        return None;
    }
    let hours = two_digits(14, hours.0, hours.1)?;
    let minutes = two_digits(59, minutes.0, minutes.1)?;
    signed_by(sign, u16::from(hours) * 3_600 + u16::from(minutes) * 60)
}

/// The seconds of a text `+HH:MM` or `-HH:MM`.
fn offset_of(text: &[u8]) -> Option<i32>
    ensures value { result ≡ offset_of text.now }
    ensures small { IfSome result IsOfADay }
{
    match text {
        &[sign, a, b, colon, c, d] => offset_from(sign, (a, b), colon, (c, d)),
        _ => None,
    }
}

/// The seconds that the clock of `UTC`, `+HH:MM` or `-HH:MM` is ahead of UTC, up to 14:59.
pub fn fixed_of(text: &str) -> Option<i32>
    ensures value { result ≡ fixed_of text.now }
    ensures small { IfSome result IsOfADay }
{
    if text == "UTC" {
        Some(0)
    } else {
        offset_of(text.as_bytes())
    }
}
