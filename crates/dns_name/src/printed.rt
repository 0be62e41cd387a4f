//! The printed forms of bytes and labels.
ghost use Rattle.std.specs.Prelude.{◌≡◌, ℕ, ◌<◌, ◌≤◌, ◌+◌, ◌*◌, List, [], ◌∷◌, ◌++◌, length, flat_map, MatchOption};
ghost use Rattle.arrayvec.specs.ArrayVec.{array_vec_len};
ghost use Rattle.std.specs.Char.{to_ascii_lowercase};
ghost use Rattle.dns_name.specs.Printed.{printed_byte, escaped_byte, is_plain, ArePrintable};

use crate::label::append;
use arrayvec::ArrayVec;

/// The bytes that have a meaning in a master file.
const SPECIAL: &[u8] = b".\\\";()@$";

/// Whether a byte is printed as itself.
fn is_plain(byte: u8) -> bool
    ensures { result ≡ is_plain byte }
{
    byte.is_ascii_graphic() && !SPECIAL.contains(&byte)
}

/// Appends the printed form of a byte, for which there is room.
fn write_byte(text: &mut ArrayVec<u8, 1020>, byte: u8)
    requires { array_vec_len text.old + 4 ≤ 1020 }
    ensures printed { text.new.items ≡ text.old.items ++ printed_byte byte }
    ensures bound { array_vec_len text.new ≤ array_vec_len text.old + 4 }
{
    if is_plain(byte) {
        text.push(byte);
        return;
    }
    append(
        text,
        &[
            b'\\',
            b'0' + byte / 100,
            b'0' + byte / 10 % 10,
            b'0' + byte % 10,
        ],
    );
}

/// Appends the printed form of a label, for which there is room.
pub(crate) fn write_label(text: &mut ArrayVec<u8, 1020>, label: &[u8])
    requires { array_vec_len text.old + 4 * length label.now ≤ 1020 }
    ensures printed { text.new.items ≡ text.old.items ++ flat_map printed_byte label.now }
    ensures bound { array_vec_len text.new ≤ array_vec_len text.old + 4 * length label.now }
{
    for octet in label {
        write_byte(text, *octet);
    }
}

/// The byte that three decimal digits are, if they are one.
fn number(hundreds: u8, tens: u8, ones: u8) -> Option<u8>
    ensures { MatchOption result
        ((b : ℕ) → b < 256 → ¬ (92 ∷ hundreds ∷ tens ∷ ones ∷ [] ≡ escaped_byte b))
        (λ b. 92 ∷ hundreds ∷ tens ∷ ones ∷ [] ≡ escaped_byte b) }
{
    if !(hundreds.is_ascii_digit() && tens.is_ascii_digit() && ones.is_ascii_digit()) {
        return None;
    }
    let tens = 10 * u16::from(hundreds - b'0') + u16::from(tens - b'0');
    u8::try_from(10 * tens + u16::from(ones - b'0')).ok()
}

/// The octet of a name whose printed form begins the text, and the text behind that form.
fn split_octet(text: &[u8]) -> Option<(u8, &[u8])>
    ensures { MatchOption result
        ((b : ℕ) (rest : List ℕ) → b < 256 → to_ascii_lowercase b ≡ b → ¬ (text.now ≡ printed_byte b ++ rest))
        (λ p. (text.now ≡ printed_byte p.0 ++ p.1.now) × (to_ascii_lowercase p.0 ≡ p.0) × (p.0 < 256)) }
{
    match text {
        [b'\\', hundreds, tens, ones, rest @ ..] => {
            let byte = number(*hundreds, *tens, *ones)?;
            if is_plain(byte) || byte.is_ascii_uppercase() {
                return None;
            }
            Some((byte, rest))
        }
        [byte, rest @ ..] if is_plain(*byte) && !byte.is_ascii_uppercase() => Some((*byte, rest)),
        _ => None,
    }
}

/// The label of a name whose printed form is the text.
pub(crate) fn read_label(text: &[u8]) -> Option<ArrayVec<u8, 63>>
    ensures { MatchOption result
        ((label : List ℕ) → ArePrintable label → ¬ (text.now ≡ flat_map printed_byte label))
        (λ label. (text.now ≡ flat_map printed_byte label.items) × ArePrintable label.items) }
{
    let mut label = ArrayVec::new();
    let mut rest = text;
    while !rest.is_empty() {
        let (byte, behind) = split_octet(rest)?;
        if label.is_full() {
            return None;
        }
        label.push(byte);
        rest = behind;
    }
    Some(label)
}
