//! Reading the networks of `ip4` and `ip6` terms.
ghost use Rattle.std.specs.Prelude.{◌≡◌};
ghost use Rattle.std.specs.List.{prefix_len};
ghost use Rattle.spf_macros.specs.Reading.{Reads, IsSpan};
ghost use Rattle.spf_grammar.specs.Grammar.{SpellsNetwork};
ghost use Rattle.spf_grammar.specs.Reading.{is_no_slash};

use crate::bytes::behind;
use crate::lengths::read_len;
use addr_bits::{AddressFamily, Prefix};

fn slash_place(text: &[u8]) -> usize
    ensures { result ≡ prefix_len is_no_slash text.now }
{
    text.iter().take_while(|byte| **byte != b'/').count()
}

/// What stands before the first slash, and the rest.
fn split_slash(text: &[u8]) -> (&[u8], &[u8])
    ensures { IsSpan is_no_slash text.now result.0.now result.1.now }
{
    text.split_at(slash_place(text))
}

/// The network of the family behind a colon, cut to its length (RFC 7208, section 5.6).
pub(crate) fn read_network<W: AddressFamily>(text: &[u8]) -> Option<Prefix<W>>
    ensures { Reads (λ text p. SpellsNetwork W.family p text) text.now result }
{
    let network = behind(text, b':')?;
    let (address, after) = split_slash(network);
    let Ok(address) = W::read(address) else {
        return None;
    };
    let len = read_len(after, b"/", W::BITS as u8)?;
    Some(Prefix::new(address, u32::from(len)))
}
