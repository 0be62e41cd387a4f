//! Labels, alone and on the wire.
ghost use Rattle.std.specs.Prelude.{◌≡◌, ◌+◌, ◌-◌, ◌<◌, ◌≤◌, None, Some, [], ◌∷◌, ◌++◌, length, map, take, bytes_eq};
ghost use Rattle.std.specs.Prelude.{MatchOption, MatchResult};
ghost use Rattle.std.specs.Char.{to_ascii_lowercase};
ghost use Rattle.arrayvec.specs.ArrayVec.{array_vec_len};
ghost use Rattle.dns_name.specs.Name.{label_fault, first_fault, is_dot, IsWire};
ghost use Rattle.dns_name.specs.Parts.{without_final};
ghost use Rattle.dns_name.specs.Wire.{labels_in};
ghost use Rattle.std.specs.List.{slice_split};

use crate::fault::NameFault;
use arrayvec::ArrayVec;

/// The most octets of a label (RFC 1035, section 2.3.4).
pub const MAX_LABEL: usize = 63;

/// The most octets of a name on the wire (RFC 1035, section 2.3.4).
pub(crate) const MAX_NAME: usize = 255;

/// Refuses octets that are no label.
pub(crate) fn check_label(label: &[u8]) -> Result<(), NameFault>
    ensures { MatchResult result (λ _. label_fault label.now ≡ None) (λ fault. label_fault label.now ≡ Some fault) }
{
    if label.is_empty() {
        return Err(NameFault::EmptyLabel);
    }
    if label.len() > MAX_LABEL {
        return Err(NameFault::LabelLong);
    }
    Ok(())
}

/// Refuses a text whose parts between dots are not all labels, for the first that is none.
pub(crate) fn check_labels(text: &[u8]) -> Result<(), NameFault>
    ensures { MatchResult result (λ _. first_fault (slice_split is_dot text.now) ≡ None)
        (λ fault. first_fault (slice_split is_dot text.now) ≡ Some fault) }
{
    for label in text.split(|byte| *byte == b'.') {
        check_label(label)?;
    }
    Ok(())
}

/// Whether the text is that of the root.
pub(crate) fn is_root_text(text: &[u8]) -> bool
    ensures { result ≡ bytes_eq text.now (46 ∷ []) }
{
    matches!(text, b".")
}

/// The text without one final dot (RFC 1034, section 3.1).
pub fn without_final_dot(text: &[u8]) -> &[u8]
    ensures { result.now ≡ without_final is_dot text.now }
{
    let Some((last, front)) = text.split_last() else {
        return text;
    };
    if *last == b'.' { front } else { text }
}

/// The first label of a name on the wire, and the name behind it. There is none at the root.
pub(crate) fn split_label(wire: &[u8]) -> Option<(&[u8], &[u8])>
    requires { IsWire wire.now }
    ensures { MatchOption result (labels_in wire.now ≡ [])
        (λ p. (labels_in wire.now ≡ p.0.now ∷ labels_in p.1.now) × IsWire p.1.now
        × (length p.1.now < length wire.now)) }
{
    let (len, octets) = wire.split_first()?;
    if *len == 0 {
        return None;
    }
    Some(octets.split_at(usize::from(*len)))
}

/// Appends octets, for which there is room.
pub(crate) fn append<const CAP: usize>(text: &mut ArrayVec<u8, CAP>, octets: &[u8])
    requires { array_vec_len text.old + length octets.now ≤ CAP }
    ensures { text.new.items ≡ text.old.items ++ octets.now }
{
    let Ok(()) = text.try_extend_from_slice(octets) else {
        unreachable!()
    };
}

/// Appends octets in lower case, for which there is room.
pub(crate) fn append_lowercase(wire: &mut ArrayVec<u8, 255>, octets: &[u8])
    requires { array_vec_len wire.old + length octets.now ≤ 255 }
    ensures { wire.new.items ≡ wire.old.items ++ map to_ascii_lowercase octets.now }
{
    for octet in octets {
        wire.push(octet.to_ascii_lowercase());
    }
}

/// Drops the octet of the root from a name on the wire.
pub(crate) fn drop_root(wire: &mut ArrayVec<u8, 255>)
    ensures { wire.new.items ≡ take (array_vec_len wire.old - 1) wire.old.items }
{
    let _root = wire.pop();
}
