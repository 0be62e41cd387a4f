//! Publishing verdicts: a shortest list as the fewest records that fit.
ghost use Rattle.std.specs.Prelude.{◌≡◌, Ok, Err, IfOk, IfErr};
ghost use Rattle.dns_name.specs.Name.{name_of_text};
ghost use Rattle.fewest_terms.specs.Leaves.{verdict_at as trie_verdict};
ghost use Rattle.zone_answers.specs.Names.{other_text_of};
ghost use Rattle.loading.specs.Memory.{ErrorIs};
ghost use Rattle.publishing.specs.Published.{IsChosenCut, IsTooBig, ListDue, PublicationDue};

use crate::ChainSettings;
use crate::names::refuse_taken;
use addr_bits::Bytes;
use fewest_terms::{Shortest, fewest};
use loading::{OrMemory, Refusal, copied};
use record_pack::{Cut, PackFault, pack};
use spf_grammar::FlatTerm;
use std::alloc::Global;
use verdict_map::VerdictTries;
use zone_answers::Zones;
use zone_writer::fragment;

/// The fragment of a shortest list with these verdicts, in the fewest records that fit beside the other texts at the
/// domain. Refused is an alias at the domain, then a list that fits into no records, and then the name of a record
/// behind the first at or below which something stands in the zones.
pub fn publish(
    alloc: Global,
    zones: &Zones,
    settings: &ChainSettings,
    tries: &VerdictTries,
) -> Result<Bytes, OrMemory<Refusal>>
    requires named { name_of_text settings.now.domain.text ≡ Ok settings.now.domain.name }
    ensures written { IfOk result (λ bytes. PublicationDue settings.now zones.now
        (trie_verdict 32 tries.now.v4) (trie_verdict 128 tries.now.v6) (Ok bytes)) }
    ensures refused { IfErr result (ErrorIs (λ why. PublicationDue settings.now zones.now
        (trie_verdict 32 tries.now.v4) (trie_verdict 128 tries.now.v6) (Err why))) }
{
    if zones.own_alias(&settings.domain.name) {
        let domain = copied(alloc, settings.domain.text.as_slice())?;
        return Err(OrMemory::Error(Refusal::Alias { domain }));
    }
    let found = fewest(alloc, &tries.v4, &tries.v6)?;
    write_shortest(alloc, zones, settings, &found)
}

/// The fragment of the list.
fn write_shortest(
    alloc: Global,
    zones: &Zones,
    settings: &ChainSettings,
    found: &Shortest,
) -> Result<Bytes, OrMemory<Refusal>>
    ensures written { IfOk result (λ bytes. ListDue settings.now zones.now
        found.now.list found.now.rows4 found.now.rows6 found.now.total (Ok bytes)) }
    ensures refused { IfErr result (ErrorIs (λ why. ListDue settings.now zones.now
        found.now.list found.now.rows4 found.now.rows6 found.now.total (Err why))) }
{
    let others = zones.other_text(&settings.domain.name);
    let cut = cut_list(alloc, settings, others, found.list.as_slice())?;
    refuse_taken(alloc, zones, settings, cut.ends.len())?;
    let bytes = fragment(
        alloc,
        found,
        &cut,
        settings.domain.text.as_slice(),
        settings.label.as_slice(),
        settings.ttl,
    )?;
    Ok(bytes)
}

/// The chosen cut of the list, beside other texts of so many octets at the domain.
fn cut_list(
    alloc: Global,
    settings: &ChainSettings,
    others: u64,
    list: &[FlatTerm],
) -> Result<Cut, OrMemory<Refusal>>
    ensures chosen { IfOk result (λ cut. IsChosenCut settings.now others list.now cut.ends) }
    ensures refused { IfErr result (ErrorIs (IsTooBig settings.now others list.now)) }
{
    match pack(
        alloc,
        list,
        settings.domain.text.as_slice(),
        settings.label.as_slice(),
        settings.size,
        others,
    ) {
        Ok(cut) => Ok(cut),
        Err(PackFault::TooBig) => Err(OrMemory::Error(Refusal::TooBig)),
        Err(PackFault::Memory) => Err(OrMemory::Memory),
    }
}
