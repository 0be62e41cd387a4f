//! The reversed names of addresses, and the nodes of their tree.
ghost use Rattle.std.specs.Prelude.{◌≡◌, ◌<◌, ◌≤◌, ◌+◌, ◌*◌, ◌/◌, ◌%◌, ◌^◌, [], ◌∷◌, ◌++◌, length, decimal};
ghost use Rattle.std.specs.Char.{digit_char};
ghost use Rattle.addr_bits.specs.Address.{IsAddress};
ghost use Rattle.dns_name.specs.Name.{IsLabel, lowercase_label};
ghost use Rattle.dns_name.specs.Wire.{wire_form};
ghost use Rattle.zone_answers.specs.Reversed.{digit_label, digits_name, label_bits, label_count, label_octets};
ghost use Rattle.zone_answers.specs.Reversed.{label_of, last_digits, reversed_name};

use addr_bits::{Address, Family};
use dns_name::Name;
use itoa::Buffer;

/// The reversed name of an address below the suffix: its octets as decimal numbers for IPv4 (RFC 1035, section 3.5),
/// and its hexadecimal digits for IPv6 (RFC 3596, section 2.5), the last first. It takes no memory.
pub fn reversed_name(address: Address, suffix: &Name) -> Name
    requires address { IsAddress address }
    requires room { length (wire_form suffix.now) ≤ 191 }
    ensures { result ≡ reversed_name address suffix.now }
{
    match address {
        Address::V4(number) => digits_name(Family::V4, 4, u128::from(number), suffix),
        Address::V6(number) => digits_name(Family::V6, 32, number, suffix),
    }
}

/// The name of a node of the tree of reversed names below the suffix: the last labels of the digits, as many as told,
/// the last first. The digits of a prefix are its address without the bits past its length. It takes no memory.
pub fn digits_name(family: Family, count: u32, digits: u128, suffix: &Name) -> Name
    requires count { count ≤ label_count family }
    requires room { length (wire_form suffix.now) ≤ 191 }
    ensures name { result ≡ digits_name family count digits suffix.now }
    ensures short { length (wire_form result) ≤ length (wire_form suffix.now) + count * label_octets family }
{
    let mut name = Name::root();
    push_digits(family, count, digits, &mut name);
    match name.push_name(suffix) {
        Ok(()) => name,
        Err(_) => unreachable!(),
    }
}

/// Puts the labels of the last digits behind the last label of the name, as many as told, the last first.
fn push_digits(family: Family, count: u32, digits: u128, name: &mut Name)
    requires count { count ≤ label_count family }
    requires room { length (wire_form name.old) + count * label_octets family ≤ 255 }
    ensures name { name.new ≡ name.old ++ last_digits (label_bits family) (label_of family) count digits }
    ensures short { length (wire_form name.new) ≤ length (wire_form name.old) + count * label_octets family }
{
    if count == 0 {
        return;
    }
    push_digit(family, last_digit(family, digits), name);
    push_digits(family, count - 1, front_digits(family, digits), name);
}

/// The last digit.
fn last_digit(family: Family, digits: u128) -> u8
    ensures { result ≡ digits % 2 ^ label_bits family }
{
    match family {
        Family::V4 => (digits % 256) as u8,
        Family::V6 => (digits % 16) as u8,
    }
}

/// The digits in front of the last one.
fn front_digits(family: Family, digits: u128) -> u128
    ensures { result ≡ digits / 2 ^ label_bits family }
{
    match family {
        Family::V4 => digits / 256,
        Family::V6 => digits / 16,
    }
}

/// Puts the label of an octet (IPv4) or of a digit below 16 (IPv6) behind the last label of the name.
fn push_digit(family: Family, digit: u8, name: &mut Name)
    requires digit { digit < 2 ^ label_bits family }
    requires room { length (wire_form name.old) + label_octets family ≤ 255 }
    ensures name { name.new ≡ name.old ++ label_of family digit ∷ [] }
    ensures short { length (wire_form name.new) ≤ length (wire_form name.old) + label_octets family }
{
    match family {
        Family::V4 => push_octet(digit, name),
        Family::V6 => push_hex(digit, name),
    }
}

/// Puts an octet as a decimal number behind the last label of the name (RFC 1035, section 3.5).
fn push_octet(octet: u8, name: &mut Name)
    requires { length (wire_form name.old) + 4 ≤ 255 }
    ensures name { name.new ≡ name.old ++ decimal octet ∷ [] }
    ensures short { length (wire_form name.new) ≤ length (wire_form name.old) + 4 }
{
    let mut buffer = Buffer::new();
    push_behind(buffer.format(octet).as_bytes(), name);
}

/// Puts a hexadecimal digit in lower case behind the last label of the name (RFC 3596, section 2.5).
fn push_hex(digit: u8, name: &mut Name)
    requires digit { digit < 16 }
    requires room { length (wire_form name.old) + 2 ≤ 255 }
    ensures name { name.new ≡ name.old ++ digit_label digit ∷ [] }
    ensures short { length (wire_form name.new) ≤ length (wire_form name.old) + 2 }
{
    push_behind(&[hex_digit(digit)], name);
}

/// The hexadecimal digit in lower case.
fn hex_digit(digit: u8) -> u8
    requires { digit < 16 }
    ensures { result ≡ digit_char digit }
{
    match digit {
        0..=9 => b'0' + digit,
        _ => b'a' + (digit - 10),
    }
}

/// Puts a label that is legal and in lower case behind the last label of the name.
fn push_behind(label: &[u8], name: &mut Name)
    requires label { IsLabel label.now }
    requires lower { lowercase_label label.now ≡ label.now }
    requires room { length (wire_form name.old) + length label.now + 1 ≤ 255 }
    ensures name { name.new ≡ name.old ++ label.now ∷ [] }
    ensures len { length (wire_form name.new) ≡ length (wire_form name.old) + length label.now + 1 }
{
    match name.push_label(label) {
        Ok(()) => (),
        Err(_) => unreachable!(),
    }
}
