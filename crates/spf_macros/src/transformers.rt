//! What stands behind a macro letter: a number, `r` and delimiters (RFC 7208, section 7.1).
ghost use Rattle.std.specs.Prelude.{◌≡◌, ◌==◌, min, IsTrue, if◌then◌else◌};
ghost use Rattle.std.specs.List.{list_all, list_any, prefix_len};
ghost use Rattle.std.specs.Char.{is_ascii_digit};
ghost use Rattle.std.specs.Str.Parse.{digits_value};
ghost use Rattle.spf_macros.specs.Grammar.{SpellsKeep};
ghost use Rattle.spf_macros.specs.Grammar as grammar;
ghost use Rattle.spf_macros.specs.Reading.{Reads, IsSpan, ReadsReverse};
ghost use Rattle.spf_macros.specs.Reading as reading;

fn is_delimiter(byte: u8) -> bool
    ensures { result ≡ grammar.is_delimiter byte }
{
    matches!(byte, b'.' | b'-' | b'+' | b',' | b'/' | b'_' | b'=')
}

/// How many digits the text begins with.
pub fn digit_count(text: &[u8]) -> usize
    ensures { result ≡ prefix_len is_ascii_digit text.now }
{
    text.iter().take_while(|byte| byte.is_ascii_digit()).count()
}

/// The digits that the text begins with, and the rest.
pub(crate) fn split_digits(text: &[u8]) -> (&[u8], &[u8])
    ensures { IsSpan is_ascii_digit text.now result.0.now result.1.now }
{
    text.split_at(digit_count(text))
}

fn delimiter_count(text: &[u8]) -> usize
    ensures { result ≡ prefix_len grammar.is_delimiter text.now }
{
    text.iter().take_while(|byte| is_delimiter(**byte)).count()
}

/// The delimiters that the text begins with, and the rest.
pub(crate) fn split_delimiters(text: &[u8]) -> (&[u8], &[u8])
    ensures { IsSpan grammar.is_delimiter text.now result.0.now result.1.now }
{
    text.split_at(delimiter_count(text))
}

/// How many parts are kept, by digits: none for all. A number is not 0, and is held at 255.
pub(crate) fn read_keep(digits: &[u8]) -> Option<u8>
    requires { IsTrue (list_all is_ascii_digit digits.now) }
    ensures { Reads SpellsKeep digits.now result }
{
    if digits.is_empty() {
        return Some(0);
    }
    match held_number(digits) {
        0 => None,
        keep => Some(keep),
    }
}

/// The number that digits make, held at 255.
pub fn held_number(digits: &[u8]) -> u8
    requires { IsTrue (list_all is_ascii_digit digits.now) }
    ensures { result ≡ min (digits_value 10 digits.now) 255 }
{
    let mut number: u8 = 0;
    for digit in digits {
        number = number.saturating_mul(10).saturating_add(*digit - b'0');
    }
    number
}

fn is_turn(byte: u8) -> bool
    ensures { result ≡ reading.is_turn byte }
{
    byte == b'r' || byte == b'R'
}

/// Whether parts are reversed, and what stands behind the `r`.
pub(crate) fn read_reverse(text: &[u8]) -> (bool, &[u8])
    ensures { ReadsReverse text.now result.0 result.1.now }
{
    match text {
        [first, rest @ ..] if is_turn(*first) => (true, rest),
        _ => (false, text),
    }
}

fn contains(delimiters: &[u8], delimiter: u8) -> bool
    ensures { result ≡ list_any (λ b. b == delimiter) delimiters.now }
{
    delimiters.iter().any(|byte| *byte == delimiter)
}

fn bit_of(delimiters: &[u8], delimiter: u8, bit: u8) -> u8
    ensures { result ≡ (if list_any (λ b. b == delimiter) delimiters.now then bit else 0) }
{
    if contains(delimiters, delimiter) {
        bit
    } else {
        0
    }
}

/// The set of some delimiters, as a number with their bits.
pub(crate) fn delimiter_set(delimiters: &[u8]) -> u8
    ensures { result ≡ grammar.delimiter_set delimiters.now }
{
    bit_of(delimiters, b'.', 1)
        + bit_of(delimiters, b'-', 2)
        + bit_of(delimiters, b'+', 4)
        + bit_of(delimiters, b',', 8)
        + bit_of(delimiters, b'/', 16)
        + bit_of(delimiters, b'_', 32)
        + bit_of(delimiters, b'=', 64)
}

/// Whether the byte is a delimiter of the set.
pub(crate) fn is_in_set(set: u8, byte: u8) -> bool
    ensures { result ≡ grammar.is_in_set set byte }
{
    match byte {
        b'.' => set % 2 == 1,
        b'-' => set / 2 % 2 == 1,
        b'+' => set / 4 % 2 == 1,
        b',' => set / 8 % 2 == 1,
        b'/' => set / 16 % 2 == 1,
        b'_' => set / 32 % 2 == 1,
        b'=' => set / 64 % 2 == 1,
        _ => false,
    }
}
