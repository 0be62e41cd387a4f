//! The bytes of labels, and the last label of a domain name.
ghost use Rattle.std.specs.Prelude.{◌≡◌, ◌==◌, ◌-◌, ◌||◌, length, slice_index};
ghost use Rattle.std.specs.List.{list_all, list_any};
ghost use Rattle.std.specs.Char.{is_ascii_alphabetic};
ghost use Rattle.spf_macros.specs.Grammar as grammar;

/// A letter, digit or hyphen.
pub(crate) fn is_let_dig_hyp(byte: u8) -> bool
    ensures { result ≡ grammar.is_let_dig_hyp byte }
{
    byte.is_ascii_alphabetic() || byte.is_ascii_digit() || byte == b'-'
}

pub(crate) fn begins_with_hyphen(text: &[u8]) -> bool
    ensures { result ≡ (slice_index text.now 0 == 45) }
{
    text.first().is_some_and(|byte| *byte == b'-')
}

fn ends_with_hyphen(text: &[u8]) -> bool
    ensures { result ≡ (slice_index text.now (length text.now - 1) == 45) }
{
    text.last().is_some_and(|byte| *byte == b'-')
}

fn are_let_dig_hyp(text: &[u8]) -> bool
    ensures { result ≡ list_all grammar.is_let_dig_hyp text.now }
{
    text.iter().all(|byte| is_let_dig_hyp(*byte))
}

fn has_letter_or_hyphen(text: &[u8]) -> bool
    ensures { result ≡ list_any (λ b. is_ascii_alphabetic b || b == 45) text.now }
{
    text.iter()
        .any(|byte| byte.is_ascii_alphabetic() || *byte == b'-')
}

/// A toplabel (RFC 7208, section 7.1): letters, digits and hyphens, the first and the last no
/// hyphen, and not digits alone.
pub(crate) fn is_toplabel(text: &[u8]) -> bool
    ensures { result ≡ grammar.is_toplabel text.now }
{
    if begins_with_hyphen(text) || ends_with_hyphen(text) {
        return false;
    }
    are_let_dig_hyp(text) && has_letter_or_hyphen(text)
}
