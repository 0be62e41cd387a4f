//! The addresses that agree in their first bits with a record of an answer.
ghost use Rattle.std.specs.Prelude.{◌≡◌, ◌<◌, ◌≤◌, ◌^◌, ℕ, true, Some, IfOk, OnOk, option_map, if◌then◌else◌};
ghost use Rattle.addr_bits.specs.declared.address.Family.TheVariants.{V4, V6};
ghost use Rattle.prefix_trie.specs.Leaves.{value_at};
ghost use Rattle.match_sets.specs.Matched.{agrees, host_in, is_matched, matches};

use addr_bits::{AddressFamily, Prefix, Width};
use master_reader::Body;
use prefix_trie::TrieMap;
use std::alloc::{AllocError, Global};
use zone_answers::Answer;

/// The address of a record, if it is of the family.
fn host_of<W: AddressFamily>(body: &Body) -> Option<W>
    ensures { option_map W.number result ≡ host_in W.family body.now }
{
    W::from_address(body.address()?)
}

/// Adds the addresses that agree with the host in the first `len` bits.
fn add_network<W: Width>(set: &mut TrieMap<W, bool>, host: W, len: u32) -> Result<(), AllocError>
    requires { len ≤ W.BITS }
    ensures { OnOk result ((a : ℕ) → a < 2 ^ W.BITS
        → value_at W.BITS set.new a ≡ (if agrees W.BITS len
        (W.number host) a then Some true else value_at W.BITS set.old a)) }
{
    set.set(Prefix::new(host, len), true)
}

/// True exactly at the addresses of the family that agree in the first `len` bits with a record of the answer (RFC
/// 7208, section 5.3). `AllocError` where there is no memory.
pub fn match_family<W: AddressFamily>(
    alloc: Global,
    found: &Answer,
    len: u32,
) -> Result<TrieMap<W, bool>, AllocError>
    requires { len ≤ W.BITS }
    ensures { IfOk result (λ set. (a : ℕ) → a < 2 ^ W.BITS
        → value_at W.BITS set a ≡ Some (is_matched (matches W.family len a) found.now)) }
{
    let mut set = TrieMap::whole(alloc, false)?;
    let bodies = found.bodies();
    for body in bodies {
        if let Some(host) = host_of(body) {
            add_network(&mut set, host, len)?;
        }
    }
    Ok(set)
}

/// True exactly at the IPv4 addresses that agree in the first `len` bits with an A record of the answer (RFC 7208,
/// section 5.3). `AllocError` where there is no memory.
pub fn match4(alloc: Global, found: &Answer, len: u32) -> Result<TrieMap<u32, bool>, AllocError>
    requires { len ≤ 32 }
    ensures { IfOk result (λ set. (a : ℕ) → a < 2 ^ 32
        → value_at 32 set a ≡ Some (is_matched (matches V4 len a) found.now)) }
{
    match_family(alloc, found, len)
}

/// True exactly at the IPv6 addresses that agree in the first `len` bits with an AAAA record of the answer (RFC 7208,
/// section 5.3). `AllocError` where there is no memory.
pub fn match6(alloc: Global, found: &Answer, len: u32) -> Result<TrieMap<u128, bool>, AllocError>
    requires { len ≤ 128 }
    ensures { IfOk result (λ set. (a : ℕ) → a < 2 ^ 128
        → value_at 128 set a ≡ Some (is_matched (matches V6 len a) found.now)) }
{
    match_family(alloc, found, len)
}
