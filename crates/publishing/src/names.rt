//! The names of the records behind the first.
ghost use Rattle.std.specs.Prelude.{◌≡◌, ◌≤◌, IfOk, IfErr};
ghost use Rattle.dns_name.specs.Name.{name_of_text};
ghost use Rattle.loading.specs.Memory.{ErrorIs};
ghost use Rattle.publishing.specs.Published.{AreFree, IsFirstTakenRefusal, is_name_taken, name_text};

use crate::ChainSettings;
use addr_bits::Bytes;
use dns_name::Name;
use loading::{OrMemory, Refusal};
use record_pack::push_name;
use std::alloc::{AllocError, Global};
use zone_answers::Zones;

/// Refuses a chain of so many records where the name of one behind the first is taken.
pub(crate) fn refuse_taken(
    alloc: Global,
    zones: &Zones,
    settings: &ChainSettings,
    records: usize,
) -> Result<(), OrMemory<Refusal>>
    ensures free { IfOk result (λ _. AreFree settings.now zones.now records) }
    ensures refused { IfErr result (ErrorIs (IsFirstTakenRefusal settings.now zones.now records)) }
{
    for number in 1..records {
        let name = write_name(alloc, settings, number as u64)?;
        if is_taken(zones, name.as_slice()) {
            return Err(OrMemory::Error(Refusal::Taken {
                number: number as u64,
                name,
            }));
        }
    }
    Ok(())
}

/// The name of a record behind the first.
fn write_name(alloc: Global, settings: &ChainSettings, number: u64) -> Result<Bytes, AllocError>
    requires { 1 ≤ number }
    ensures { IfOk result (λ name. name ≡ name_text settings.now number) }
{
    let mut name = Bytes::new(alloc);
    push_name(
        &mut name,
        settings.domain.text.as_slice(),
        settings.label.as_slice(),
        number,
    )?;
    Ok(name)
}

/// Whether something stands at or below the name that the text writes.
fn is_taken(zones: &Zones, text: &[u8]) -> bool
    ensures { result ≡ is_name_taken zones.now (name_of_text text.now) }
{
    match Name::from_text(text) {
        Ok(name) => zones.taken(&name),
        Err(_) => false,
    }
}
