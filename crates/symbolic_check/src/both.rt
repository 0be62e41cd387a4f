//! The outcome of every address, and what is asked on the way.
ghost use Rattle.addr_bits.specs.Address.{address_of};
ghost use Rattle.std.specs.Prelude.{◌≡◌, IsOk, IfOk};
ghost use Rattle.dns_name.specs.Name.{name_of_text};
ghost use Rattle.spf_model.specs.Run.{says};
ghost use Rattle.spf_model.specs.Result.{AreModest};
ghost use Rattle.symbolic_check.specs.Evaluation.{IsEvaluation};
ghost use Rattle.symbolic_check.specs.Families.{AreEndsOf, run_at};
ghost use Rattle.symbolic_check.specs.Walk.{says_at};

use crate::asked::in_order;
use crate::state::State;
use crate::steps;
use crate::walk::walk_record;
use addr_bits::Family;
use dns_name::Name;
use prefix_trie::TrieMap;
use spf_grammar::NetworkFamily;
use spf_model::{Counts, Ending, Limits, RecordContext};
use std::alloc::{AllocError, Global};
use zone_answers::{Questions, Zones};

/// The outcome of every address, as a trie for each family.
#[derive(Drop)]
pub struct Both {
    /// The outcome at each IPv4 address.
    pub v4: TrieMap<u32, Ending>,
    /// The outcome at each IPv6 address.
    pub v6: TrieMap<u128, Ending>,
    /// Each question that the evaluation of some address asks, once, by the bytes of the printed name and then by A,
    /// AAAA, MX, TXT, REVERSE4, REVERSE6.
    pub asked: Questions,
}

/// The outcome of every address of a family. The questions that their evaluations ask are added.
fn outcomes<W: NetworkFamily>(
    context: &RecordContext<'_>,
    asked: &mut Questions,
) -> Result<TrieMap<W, Ending>, AllocError>
    requires family { context.now.family ≡ W.family }
    requires modest { AreModest context.now.limits }
    ensures { IfOk result (λ ends. AreEndsOf W.BITS (says_at (address_of W.family) context.now.zones.now)
        (run_at (address_of W.family) context.now) ends asked.old asked.new) }
{
    let counts = Counts {
        lookups: 0,
        voids: 0,
    };
    let begin = TrieMap::whole(context.alloc, State::Live(counts))?;
    let end = walk_record(context, context.limits.lookups + 1, begin, asked)?;
    steps::outcomes(&end)
}

/// The outcome of check_host (RFC 7208, section 4) for every address of both families, over the lent zones, and the
/// questions that these evaluations ask. The domain must be a legal name, and each limit at most 1,000, since records
/// are nested as deep as the limit on lookups. `AllocError` where there is no memory.
pub fn evaluate(
    alloc: Global,
    zones: &Zones,
    limits: Limits,
    domain: &[u8],
) -> Result<Both, AllocError>
    requires named { IsOk (name_of_text domain.now) }
    requires modest { AreModest limits }
    ensures { IfOk result (λ both. IsEvaluation (says zones.now) limits domain.now both.v4 both.v6 both.asked) }
{
    let name = Name::from_text(domain).unwrap();
    let four = RecordContext {
        alloc,
        zones,
        limits,
        family: Family::V4,
        domain,
        name: &name,
    };
    let six = RecordContext {
        family: Family::V6,
        ..four
    };
    let mut asked = Questions::new(alloc);
    let v4 = outcomes(&four, &mut asked)?;
    let v6 = outcomes(&six, &mut asked)?;
    let asked = in_order(alloc, asked)?;
    Ok(Both { v4, v6, asked })
}
