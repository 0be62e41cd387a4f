//! The forms of a TTL.
ghost use Rattle.std.specs.Prelude.{◌≡◌, ◌≤◌};
ghost use Rattle.std.specs.List.{position};
ghost use Rattle.master_lex.specs.declared.entry.Octet.{Octet};
ghost use Rattle.master_reader.specs.Tokens.{bytes_in};
ghost use Rattle.master_reader.specs.Ttl as ttl;

use crate::words::{TOO_LARGE, are_digits, number_of};
use master_lex::Octet;

/// The seconds of a unit letter of either case, and 0 of every other byte.
fn seconds_in(letter: u8) -> u64
    ensures value { result ≡ ttl.seconds_in letter }
    ensures small { result ≤ 604800 }
{
    match letter.to_ascii_lowercase() {
        b'w' => 604_800,
        b'd' => 86_400,
        b'h' => 3_600,
        b'm' => 60,
        b's' => 1,
        _ => 0,
    }
}

/// The place of the first unit letter.
fn unit_place(units: &[Octet]) -> Option<usize>
    ensures { result ≡ position (λ (o : Octet). ttl.is_unit o.byte) units.now }
{
    units.iter().position(|octet| seconds_in(octet.byte) > 0)
}

/// Whether octets are one or more groups of digits and a unit letter, whose seconds together are not too many.
fn are_groups(units: &[Octet]) -> bool
    ensures { result ≡ ttl.are_groups (bytes_in units.now) }
{
    let mut rest = units;
    let mut seconds: u64 = 0;
    while !rest.is_empty() {
        let Some(place) = unit_place(rest) else {
            return false;
        };
        let (digits, behind) = rest.split_at(place);
        if !are_digits(digits) {
            return false;
        }
        seconds = TOO_LARGE.min(seconds + number_of(digits) * seconds_in(behind[0].byte));
        rest = &behind[1..];
    }
    !units.is_empty() && seconds < TOO_LARGE
}

/// Whether octets are a TTL: digits alone (RFC 1035, section 5.1), or groups of digits and a unit letter, which are the
/// project's own choice, as is the greatest value, 4,294,967,295 seconds.
pub(crate) fn is_ttl(units: &[Octet]) -> bool
    ensures { result ≡ ttl.is_ttl (bytes_in units.now) }
{
    (are_digits(units) && number_of(units) < TOO_LARGE) || are_groups(units)
}
