//! The terms of a record.
ghost use Rattle.std.specs.Prelude.{◌≡◌, ◌++◌, IfOk};
ghost use Rattle.spf_gen.specs.Networks.{network as network_of, verdict as verdict_of, terms_in};

use crate::draws::next;
use addr_bits::{Items, Prefix};
use spf_grammar::{FlatTerm, Net, Verdict};
use std::alloc::{AllocError, Global};

/// The first half of 2001:db8::/32.
const DOCUMENTATION: u128 = 0x2001_0db8 << 96;

/// The network of this number, of its draw.
#[tactic(auto, unfolding(crate::specs::Networks::network))]
fn network(drawn: u64, index: u32) -> Net
    ensures { result ≡ network_of drawn index }
{
    let high = drawn >> 32;
    let length = ((drawn >> 16) % 8) as u32;
    if index % 4 == 3 {
        let start = DOCUMENTATION + (u128::from(high) << 64);
        Net::V6(Prefix::new(start, 36 + 4 * length))
    } else {
        Net::V4(Prefix::new(high as u32, 20 + length))
    }
}

/// The verdict of the network of this number.
fn verdict(index: u32) -> Verdict
    ensures { result ≡ verdict_of index }
{
    if index / 8 % 4 == 3 {
        Verdict::Fail
    } else {
        Verdict::Pass
    }
}

/// The terms of the record at this place, of so many networks: its networks in order, and `?all`.
pub(crate) fn terms(
    alloc: Global,
    start: u64,
    networks: u32,
    place: u32,
) -> Result<Items<FlatTerm>, AllocError>
    ensures { IfOk result (λ terms. terms ≡ terms_in start networks place) }
{
    let mut terms = Items::new(alloc);
    let mut drawn = start;
    for index in 0..networks {
        drawn = next(drawn);
        if index % 8 == place {
            terms.push(FlatTerm {
                verdict: verdict(index),
                net: network(drawn, index),
            })?;
        }
    }
    terms.push(FlatTerm {
        verdict: Verdict::Neutral,
        net: Net::All,
    })?;
    Ok(terms)
}
