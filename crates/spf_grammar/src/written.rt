//! The written form of a flat term.
ghost use Rattle.std.specs.Prelude.{◌≡◌, ◌++◌, ◌+◌, ◌≤◌, codes, length};
ghost use Rattle.arrayvec.specs.ArrayString.{array_string_len};
ghost use Rattle.spf_grammar.specs.Written.{written_qualifier, written_len, network_word, written_network, written_net};
ghost use Rattle.spf_grammar.specs.Written.{written_flat as flat_text};

use crate::{FlatTerm, Net, Verdict};
use addr_bits::{AddressFamily, Family, Prefix};
use arrayvec::ArrayString;
use itoa::Buffer;

/// The qualifier of a verdict, of which `+` is not written.
pub(crate) fn qualifier(verdict: Verdict) -> &'static str
    ensures text { result.now ≡ written_qualifier verdict }
    ensures short { length result.now ≤ 1 }
{
    match verdict {
        Verdict::Fail => "-",
        Verdict::SoftFail => "~",
        Verdict::Pass => "",
        Verdict::Neutral => "?",
    }
}

/// Appends a slash and the length, unless it is the longest.
fn push_len(text: &mut ArrayString<48>, most: u8, len: u8)
    requires { array_string_len text.old + 4 ≤ 48 }
    ensures { text.new.bytes ≡ text.old.bytes ++ written_len (codes "/") most len }
{
    if len != most {
        text.push_str("/");
        text.push_str(Buffer::new().format(len));
    }
}

/// The name of the mechanism that has the networks of a family (RFC 7208, section 5.6).
fn network_word(family: Family) -> &'static str
    ensures text { result.now ≡ network_word family }
    ensures short { length result.now ≡ 4 }
{
    match family {
        Family::V4 => "ip4:",
        Family::V6 => "ip6:",
    }
}

/// Appends the network of a prefix.
fn push_network<W: AddressFamily>(text: &mut ArrayString<48>, prefix: Prefix<W>)
    requires { array_string_len text.old ≤ 1 }
    ensures { text.new.bytes ≡ text.old.bytes ++ written_network W.family prefix }
{
    text.push_str(network_word(W::family()));
    text.push_str(prefix.start().write().as_str());
    push_len(text, W::BITS as u8, prefix.len() as u8);
}

/// Appends a network.
fn push_net(text: &mut ArrayString<48>, net: Net)
    requires { array_string_len text.old ≤ 1 }
    ensures { text.new.bytes ≡ text.old.bytes ++ written_net net }
{
    match net {
        Net::All => text.push_str("all"),
        Net::V4(prefix) => push_network(text, prefix),
        Net::V6(prefix) => push_network(text, prefix),
    }
}

/// The written form of a network: its mechanism, its prefix, and the length of the prefix in bits where that is not
/// the longest (RFC 7208, section 5.6).
pub(crate) fn write_net(net: Net) -> ArrayString<48>
    ensures { result.bytes ≡ written_net net }
{
    let mut text = ArrayString::new();
    push_net(&mut text, net);
    text
}

/// The written form of a flat term: its qualifier, its network, and the length of its prefix in bits where that
/// is not the longest (RFC 7208, section 5.6).
#[tactic(auto, unfolding(crate::specs::Written::written_flat))]
pub fn write_flat(term: &FlatTerm) -> ArrayString<48>
    ensures { result.bytes ≡ flat_text term.now }
{
    let mut text = ArrayString::new();
    text.push_str(qualifier(term.verdict));
    push_net(&mut text, term.net);
    text
}
