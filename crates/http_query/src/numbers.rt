ghost use Rattle.std.specs.Prelude.{◌≡◌, ◌≤◌, ◌<◌, ◌^◌, ◌-◌, ◌*◌, ◌+◌, length, true, pos, IfSome, IsTrue, ◌↔◌};
ghost use Rattle.std.specs.List.{list_all};
ghost use Rattle.std.proofs.Math.IntN.{neg_ℤ};
ghost use Rattle.http_query.specs.Numbers.{is_octal_digit, octal_value, mode_of, seconds_of};

use crate::scan::{read_number, strip};

/// Whether each byte is a digit of 0 to 7.
fn are_octal_digits(text: &[u8]) -> bool
    ensures { result ≡ list_all is_octal_digit text.now }
{
    for byte in text {
        if *byte < b'0' || *byte > b'7' {
            return false;
        }
    }
    true
}

/// What at most four octal digits write.
fn octal_value(text: &[u8]) -> u16
    requires few { length text.now ≤ 4 }
    requires digits { list_all is_octal_digit text.now ≡ true }
    ensures value { result ≡ octal_value text.now }
    ensures small { result ≤ 4095 }
{
    match text {
        [] => 0,
        [a] => u16::from(*a - 48),
        [a, b] => u16::from(*a - 48) * 8 + u16::from(*b - 48),
        [a, b, c] => u16::from(*a - 48) * 64 + u16::from(*b - 48) * 8 + u16::from(*c - 48),
        [a, b, c, d] => {
            u16::from(*a - 48) * 512
                + u16::from(*b - 48) * 64
                + u16::from(*c - 48) * 8
                + u16::from(*d - 48)
        }
        _ => unreachable!(),
    }
}

/// The mode that a text of one to four octal digits writes: at most 7777, which is 4,095.
#[tactic(auto, unfolding(crate::specs::Numbers::mode_of))]
pub fn read_mode(text: &[u8]) -> Option<u16>
    ensures value { result ≡ mode_of text.now }
    ensures small { IfSome result (λ mode. mode ≤ 4095) }
{
    if !text.is_empty() && text.len() <= 4 && are_octal_digits(text) {
        Some(octal_value(text))
    } else {
        None
    }
}

/// The number at this distance below 0.
fn negated(distance: u64) -> i64
    requires { distance ≤ 2 ^ 63 }
    ensures { result ≡ neg_ℤ (pos distance) }
{
    if distance == 1 << 63 {
        i64::MIN
    } else {
        -(distance as i64)
    }
}

/// The signed number of 64 bits that a text writes in decimal: seconds since 1970, before it with a `-`.
#[tactic(auto, unfolding(crate::specs::Numbers::seconds_of))]
pub fn read_seconds(text: &[u8]) -> Option<i64>
    ensures { result ≡ seconds_of text.now }
{
    match strip(text, b"-") {
        Some(digits) => match read_number(digits, 1 << 63) {
            Some(distance) => Some(negated(distance)),
            None => None,
        },
        None => match read_number(text, i64::MAX as u64) {
            Some(seconds) => Some(seconds as i64),
            None => None,
        },
    }
}
