//! The joined strings of TXT records (RFC 7208, section 3.3).
ghost use Rattle.std.specs.Prelude.{◌≡◌, ◌+◌, ◌≤◌, ◌++◌, length, sum_by, take};
ghost use Rattle.std.specs.List.{concat};
ghost use Rattle.zone_answers.specs.Lend.{IsBodyFit};
ghost use Rattle.zone_answers.specs.Names.{other_len};

use arrayvec::ArrayVec;
use master_reader::{Body, Text};
use spf_text::is_spf;

/// The length of the joined text of a TXT body that is no SPF text, and else 0.
pub(crate) fn other_len(body: &Body) -> u64
    requires { IsBodyFit body.now }
    ensures other { result ≡ other_len body.now }
    ensures small { result ≤ 65535 }
{
    let Body::Txt(strings) = body else {
        return 0;
    };
    if is_spf(&first_octets(strings)) {
        return 0;
    }
    joined_len(strings)
}

/// The first octets of the joined strings, as many as tell an SPF text.
fn first_octets(strings: &Text) -> ArrayVec<u8, 7>
    ensures { result.items ≡ take 7 (concat strings.now) }
{
    let mut octets = ArrayVec::new();
    for string in strings.as_slice() {
        push_octets(&mut octets, string.as_slice());
    }
    octets
}

/// Appends octets as far as there is room.
fn push_octets(octets: &mut ArrayVec<u8, 7>, string: &[u8])
    requires { length octets.old.items ≤ 7 }
    ensures { octets.new.items ≡ take 7 (octets.old.items ++ string.now) }
{
    for octet in string {
        if octets.is_full() {
            return;
        }
        octets.push(*octet);
    }
}

/// The length of the joined strings.
fn joined_len(strings: &Text) -> u64
    requires { sum_by (λ s. length s + 1) strings.now ≤ 65535 }
    ensures joined { result ≡ length (concat strings.now) }
    ensures small { result ≤ 65535 }
{
    let mut octets = 0;
    for string in strings.as_slice() {
        octets += string.len() as u64;
    }
    octets
}
