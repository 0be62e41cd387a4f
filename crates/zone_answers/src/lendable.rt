//! Which records may be lent.
ghost use Rattle.std.specs.Prelude.{◌↔◌, ◌≤◌, ◌<◌, ◌+◌, length, sum_by, IsTrue};
ghost use Rattle.std.specs.List.{AllByRecursion};
ghost use Rattle.dns_name.specs.Name.{IsUnder};
ghost use Rattle.zone_answers.specs.Lend.{AreLendable, IsBodyFit};

use dns_name::Name;
use master_reader::{Body, MAX_STRING, MAX_TEXT, Record, Records, Text};

/// Whether the records may be lent as those of the zone at the origin: each owner is at or below the origin, and each
/// TXT record has one or more strings of at most 255 octets, which with a length octet each have at most 65,535.
pub fn are_lendable(origin: &Name, records: &Records) -> bool
    ensures { IsTrue result ↔ AreLendable origin.now records.now }
{
    for record in records.as_slice() {
        if !is_lendable(origin, record) {
            return false;
        }
    }
    true
}

/// Whether one record may be lent.
fn is_lendable(origin: &Name, candidate: &Record) -> bool
    ensures { IsTrue result ↔ (IsUnder candidate.now.owner origin.now × IsBodyFit candidate.now.body) }
{
    candidate.owner.under(origin) && is_body_fit(&candidate.body)
}

/// Whether a body that is a text is one of a TXT record.
fn is_body_fit(body: &Body) -> bool
    ensures { IsTrue result ↔ IsBodyFit body.now }
{
    match body {
        Body::Txt(strings) => are_strings_fit(strings),
        _ => true,
    }
}

/// Whether the strings are those of a TXT record.
fn are_strings_fit(strings: &Text) -> bool
    ensures { IsTrue result ↔ ((0 < length strings.now) × AllByRecursion (λ s. length s ≤ 255) strings.now
        × (sum_by (λ s. length s + 1) strings.now ≤ 65535)) }
{
    let mut octets = 0;
    for string in strings.as_slice() {
        if string.len() > MAX_STRING {
            return false;
        }
        octets += string.len() + 1;
        if octets > MAX_TEXT {
            return false;
        }
    }
    octets > 0
}
