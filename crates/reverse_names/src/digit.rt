//! Reading the labels of reversed names.
ghost use Rattle.std.specs.Prelude.{◌≡◌, ◌≢◌, ◌<◌, ◌^◌, ℕ, IfSome, IfNone, decimal};
ghost use Rattle.std.specs.Char.{digit_char};
ghost use Rattle.zone_answers.specs.Reversed.{digit_label, label_bits, label_of};

use addr_bits::Family;
use itoa::Buffer;
use std::str;

/// The octet or the hexadecimal digit that the label of a name stands for; `None` exactly where it stands for none, as
/// `01`, `256` and `*` do (RFC 1035, section 3.5, and RFC 3596, section 2.5).
pub(crate) fn digit_of(family: Family, label: &[u8]) -> Option<u8>
    ensures below { IfSome result (λ digit. digit < 2 ^ label_bits family) }
    ensures label { IfSome result (λ digit. label.now ≡ label_of family digit) }
    ensures none { IfNone result ((digit : ℕ) → digit < 2 ^ label_bits family → label.now ≢ label_of family digit) }
{
    match family {
        Family::V4 => octet_of(label),
        Family::V6 => hex_of(label),
    }
}

/// The octet whose decimal number without leading zeros is the label.
fn octet_of(label: &[u8]) -> Option<u8>
    ensures label { IfSome result (λ octet. label.now ≡ decimal octet) }
    ensures none { IfNone result ((octet : ℕ) → octet < 256 → label.now ≢ decimal octet) }
{
    let Ok(text) = str::from_utf8(label) else {
        return None;
    };
    let octet: u8 = text.parse().ok()?;
    let mut buffer = Buffer::new();
    if buffer.format(octet) == text {
        Some(octet)
    } else {
        None
    }
}

/// The number below 16 whose hexadecimal digit in lower case is the label.
fn hex_of(label: &[u8]) -> Option<u8>
    ensures below { IfSome result (λ digit. digit < 16) }
    ensures label { IfSome result (λ digit. label.now ≡ digit_label digit) }
    ensures none { IfNone result ((digit : ℕ) → digit < 16 → label.now ≢ digit_label digit) }
{
    match label {
        [byte] => nibble_of(*byte),
        _ => None,
    }
}

/// The number below 16 whose hexadecimal digit in lower case is the byte.
fn nibble_of(byte: u8) -> Option<u8>
    ensures below { IfSome result (λ digit. digit < 16) }
    ensures char { IfSome result (λ digit. byte ≡ digit_char digit) }
    ensures none { IfNone result ((digit : ℕ) → digit < 16 → byte ≢ digit_char digit) }
{
    match byte {
        b'0'..=b'9' => Some(byte - b'0'),
        b'a'..=b'f' => Some(byte - b'a' + 10),
        _ => None,
    }
}
