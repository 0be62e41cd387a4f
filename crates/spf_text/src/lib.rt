//! The version section of SPF records (RFC 7208, section 4.5).
#![tactic(auto)]

ghost use Rattle.std.specs.Prelude.{◌≡◌};
ghost use Rattle.spf_text.specs.Version.{is_spf_text};

/// The version section.
const VERSION: &[u8] = b"v=spf1";

/// Whether the text begins with the version section, in letters of either case, followed by a space or the end
/// (RFC 7208, section 4.5).
#[tactic(auto, unfolding(crate::specs::Version::is_spf_text))]
pub fn is_spf(text: &[u8]) -> bool
    ensures { result ≡ is_spf_text text.now }
{
    if text.len() < VERSION.len() {
        return false;
    }
    let (version, rest) = text.split_at(VERSION.len());
    match rest.first() {
        Some(byte) if *byte != b' ' => false,
        _ => version.eq_ignore_ascii_case(VERSION),
    }
}
