//! The words of the command line that name a domain, or a label below it.
ghost use Rattle.std.specs.Prelude.{◌≡◌, ◌==◌, length};
ghost use Rattle.std.specs.List.{list_all, slice_split};
ghost use Rattle.spf_macros.specs.Words as words;

use crate::toplabel::{begins_with_hyphen, is_let_dig_hyp, is_toplabel};

/// The most characters of the text of a name, without its final dot (RFC 1035, section 2.3.4).
pub const MAX_NAME_TEXT: usize = 253;

/// A letter, digit, hyphen or underscore.
fn is_word_byte(byte: u8) -> bool
    ensures { result ≡ words.is_word_byte byte }
{
    is_let_dig_hyp(byte) || byte == b'_'
}

fn are_word_bytes(text: &[u8]) -> bool
    ensures { result ≡ list_all words.is_word_byte text.now }
{
    text.iter().all(|byte| is_word_byte(*byte))
}

/// A label of a domain: 1 to 63 letters, digits, hyphens and underscores that begin with no hyphen.
fn is_domain_label(label: &[u8]) -> bool
    ensures { result ≡ words.is_domain_label label.now }
{
    if label.is_empty() || label.len() > 63 || begins_with_hyphen(label) {
        return false;
    }
    are_word_bytes(label)
}

/// How many labels the text has.
pub(crate) fn label_count(text: &[u8]) -> usize
    ensures { result ≡ length (slice_split (λ b. b == 46) text.now) }
{
    text.split(|byte| *byte == b'.').count()
}

/// Whether the text is one or more labels of a domain, joined by dots.
pub fn are_domain_labels(text: &[u8]) -> bool
    ensures { result ≡ list_all words.is_domain_label (slice_split (λ b. b == 46) text.now) }
{
    text.split(|byte| *byte == b'.')
        .all(|label| is_domain_label(label))
}

/// What stands behind the last dot.
pub(crate) fn last_label(text: &[u8]) -> &[u8]
    ensures { result.now ≡ words.last_label (slice_split (λ b. b == 46) text.now) }
{
    text.split(|byte| *byte == b'.').last().unwrap_or(text)
}

/// Whether the text is a DOMAIN: two or more labels of 1 to 63 letters, digits, hyphens and
/// underscores, none of which begins with a hyphen, joined by dots, the last a toplabel (RFC 7208,
/// section 7.1); at most 253 characters, with no final dot.
pub fn is_domain(text: &[u8]) -> bool
    ensures { result ≡ words.is_domain text.now }
{
    if text.len() > MAX_NAME_TEXT || label_count(text) < 2 {
        return false;
    }
    are_domain_labels(text) && is_toplabel(last_label(text))
}

/// Whether the text is a LABEL: `_` and 0 to 60 letters, digits, hyphens and underscores.
pub fn is_label(text: &[u8]) -> bool
    ensures { result ≡ words.is_label text.now }
{
    match text {
        [b'_', rest @ ..] if rest.len() <= 60 => are_word_bytes(rest),
        _ => false,
    }
}
