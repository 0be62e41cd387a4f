//! The cut with the fewest records.
ghost use Rattle.std.specs.Prelude.{List, ℕ, IfOk, IsErrOf};
ghost use Rattle.record_pack.specs.declared.fault.PackFault.TheVariants.{TooBig};
ghost use Rattle.record_pack.specs.Records.{IsFittingCut, TakeMost, HasFewest};

use crate::fit::{fits, room_for, taken};
use crate::{Cut, Ends, PackFault};
use spf_grammar::FlatTerm;
use std::alloc::Global;

/// The most records of a chain, since 10 lookups lead through them (RFC 7208, section 4.6.4).
const MAX_RECORDS: u32 = 11;

/// A cut of the list that fits, with the fewest records, where `others` are the octets of the other TXT texts at the
/// domain. Each record but the last takes as many terms as fit. `TooBig` comes exactly where no cut of the list fits.
pub fn pack(
    alloc: Global,
    list: &[FlatTerm],
    domain: &[u8],
    label: &[u8],
    size: u32,
    others: u64,
) -> Result<Cut, PackFault>
    ensures fits { IfOk result (λ cut. IsFittingCut domain.now label.now size others list.now cut.ends) }
    ensures fewest { IfOk result (λ cut. HasFewest domain.now label.now size others list.now cut.ends) }
    ensures greedy { IfOk result (λ cut. TakeMost domain.now label.now size others list.now 0 0 cut.ends) }
    ensures too_big { IsErrOf result TooBig → (ends : List ℕ)
        → ¬ IsFittingCut domain.now label.now size others list.now ends }
{
    let mut ends = Ends::new(alloc);
    let mut from = 0;
    for index in 0..MAX_RECORDS {
        if fits(
            list,
            from,
            list.len(),
            index,
            true,
            domain,
            label,
            size,
            others,
        ) {
            ends.push(list.len())?;
            return Ok(Cut { ends });
        }
        let Some(room) = room_for(index, false, domain, label, size, others) else {
            return Err(PackFault::TooBig);
        };
        from += taken(&list[from..], room);
        ends.push(from)?;
    }
    Err(PackFault::TooBig)
}
