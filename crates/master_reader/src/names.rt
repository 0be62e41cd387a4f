//! The names that tokens say.
ghost use Rattle.std.specs.Prelude.{◌≡◌, ◌<◌, List, ◌++◌, map, length, MatchOption};
ghost use Rattle.std.specs.List.{slice_split};
ghost use Rattle.dns_name.specs.Name.{name_of_labels};
ghost use Rattle.dns_name.specs.Parts.{without_final, ends_so};
ghost use Rattle.master_reader.specs.Tokens as tokens;

use crate::fault::Kind;
use crate::words::{is_one_unescaped, is_unescaped};
use arrayvec::ArrayVec;
use dns_name::{MAX_LABEL, Name};
use master_lex::{Octet, Token};

/// The bytes of a label, unless they are too many.
fn label_of(units: &[Octet]) -> Option<ArrayVec<u8, 63>>
    ensures { MatchOption result (63 < length units.now) (λ label. label.items ≡ tokens.bytes_in units.now) }
{
    if units.len() > MAX_LABEL {
        return None;
    }
    let mut label = ArrayVec::new();
    for octet in units {
        label.push(octet.byte);
    }
    Some(label)
}

/// The octets without one final dot that has no `\`, and whether there is one.
fn split_final_dot(units: &[Octet]) -> (&[Octet], bool)
    ensures front { result.0.now ≡ without_final (tokens.is_unescaped 46) units.now }
    ensures absolute { result.1 ≡ ends_so (tokens.is_unescaped 46) units.now }
{
    let Some((last, front)) = units.split_last() else {
        return (units, false);
    };
    if is_unescaped(*last, b'.') {
        (front, true)
    } else {
        (units, false)
    }
}

/// The name of the labels that octets are cut into at each dot without a `\`, in front of another name.
fn name_in_front(units: &[Octet], behind: &Name) -> Result<Name, Kind>
    ensures { result ≡ tokens.or_bad_name (name_of_labels
        (map tokens.bytes_in (slice_split (tokens.is_unescaped 46) units.now) ++ behind.now)) }
{
    let mut name = Name::root();
    for part in units.split(|octet| is_unescaped(*octet, b'.')) {
        let Some(label) = label_of(part) else {
            return Err(Kind::BadName);
        };
        let Ok(()) = name.push_label(&label) else {
            return Err(Kind::BadName);
        };
    }
    let Ok(()) = name.push_name(behind) else {
        return Err(Kind::BadName);
    };
    Ok(name)
}

/// The name that a token says (RFC 1035, section 5.1). `BadName` comes where a label is empty or too long, or the name
/// is.
pub(crate) fn name_in(origin: &Name, token: &Token) -> Result<Name, Kind>
    ensures { result ≡ tokens.name_in origin.now token.now }
{
    let units = token.units.as_slice();
    if !token.quoted && is_one_unescaped(units, b'@') {
        return Ok(origin.clone().unwrap());
    }
    if is_one_unescaped(units, b'.') {
        return Ok(Name::root());
    }
    match split_final_dot(units) {
        (labels, true) => name_in_front(labels, &Name::root()),
        (labels, false) => name_in_front(labels, origin),
    }
}
