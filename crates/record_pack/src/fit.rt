//! Whether a record fits below the size.
ghost use Rattle.std.specs.Prelude.{◌≡◌, ◌+◌, ◌-◌, ◌<◌, ◌≤◌, ◌↔◌, ◌^◌, [], min, length, take, IsTrue, MatchOption};
ghost use Rattle.record_pack.specs.Records.{Fits, piece, record_name, record_size, spaced};

use itoa::Buffer;
use spf_grammar::{FlatTerm, write_flat};

/// The octets of `v=spf1`.
const VERSION_LEN: u64 = b"v=spf1".len() as u64;

/// The octets of ` redirect=`.
const REDIRECT_LEN: u64 = b" redirect=".len() as u64;

/// The octets of a record's name, held at the last value of the type: the domain for record 0, and the label, the
/// number, a dot and the domain for another.
pub fn name_len(domain: &[u8], label: &[u8], index: u32) -> u64
    ensures { result ≡ min (length (record_name domain.now label.now index)) (2 ^ 64 - 1) }
{
    let domain = domain.len() as u64;
    if index == 0 {
        return domain;
    }
    let number = Buffer::new().format(index).len() as u64;
    domain
        .saturating_add(label.len() as u64)
        .saturating_add(number + 1)
}

/// What the terms of a record may take at most, so that it fits; `None` where it does not fit without a term.
pub(crate) fn room_for(
    index: u32,
    last: bool,
    domain: &[u8],
    label: &[u8],
    size: u32,
    others: u64,
) -> Option<u64>
    requires few { index ≤ 10 }
    ensures { MatchOption result (size ≤ record_size domain.now label.now others [] index last)
        (λ room. record_size domain.now label.now others [] index last + 1 + room ≡ size) }
{
    let name = name_len(domain, label, index);
    let others = if index == 0 { others } else { 0 };
    let redirect = if last {
        0
    } else {
        name_len(domain, label, index + 1).saturating_add(REDIRECT_LEN)
    };
    let fixed = name
        .saturating_add(others)
        .saturating_add(redirect)
        .saturating_add(VERSION_LEN);
    u64::from(size).checked_sub(fixed)?.checked_sub(1)
}

/// How many terms from the front take at most the room, each with a space before it.
pub(crate) fn taken(terms: &[FlatTerm], room: u64) -> usize
    ensures within { result ≤ length terms.now }
    ensures enough { length (spaced (take result terms.now)) ≤ room }
    ensures most { result < length terms.now → room < length (spaced (take (result + 1) terms.now)) }
{
    let mut left = room;
    for (place, term) in terms.iter().enumerate() {
        match left.checked_sub(1 + write_flat(term).len() as u64) {
            None => return place,
            Some(rest) => left = rest,
        }
    }
    terms.len()
}

/// Whether the record of the terms from `from` up to `to` fits: the octets of its name and of its text, and for
/// record 0 of the other texts at the domain, are together less than `size` (RFC 7208, section 3.4).
pub fn fits(
    list: &[FlatTerm],
    from: usize,
    to: usize,
    index: u32,
    last: bool,
    domain: &[u8],
    label: &[u8],
    size: u32,
    others: u64,
) -> bool
    requires rising { from ≤ to }
    requires within { to ≤ length list.now }
    requires few { index ≤ 10 }
    ensures { IsTrue result ↔ Fits domain.now label.now size others (piece list.now from to) index last }
{
    let terms = &list[from..to];
    match room_for(index, last, domain, label, size, others) {
        None => false,
        Some(room) => taken(terms, room) == terms.len(),
    }
}
