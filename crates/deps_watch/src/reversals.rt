//! What zones say at reversed names, which is asked once for each name below which they stand.
ghost use Rattle.std.specs.Prelude.{◌≤◌, length, List, IfOk, OnOk};
ghost use Rattle.dns_name.specs.Wire.{wire_form};
ghost use Rattle.zone_answers.specs.Zone.{Zone};
ghost use Rattle.deps_watch.specs.Reversals.{AreReversals, AreTexts, IsReversedAgreement};

use crate::text::reversed_text;
use addr_bits::{AddressFamily, Bytes};
use dns_name::Name;
use indexmap::IndexMap;
use std::alloc::{AllocError, Global};
use zone_answers::Zones;

/// What zones say at the reversed names of a family, by the name below which these stand.
pub(crate) type Texts = IndexMap<Name, Bytes>;

/// What zones say at the reversed names of both families, as far as it was asked.
#[derive(Drop)]
pub(crate) struct Reversals {
    /// At those of IPv4 addresses (RFC 1035, section 3.5).
    pub(crate) four: Texts,
    /// At those of IPv6 addresses (RFC 3596, section 2.5).
    pub(crate) six: Texts,
}

impl Reversals {
    /// Nothing was asked.
    pub(crate) fn new(alloc: Global) -> Reversals
        ensures { (zones : List Zone) → AreReversals zones result }
    {
        Reversals {
            four: IndexMap::new(alloc),
            six: IndexMap::new(alloc),
        }
    }
}

/// Whether an answer is what the zones say at the reversed names of all addresses of a family below a name. They are
/// asked where they were not, and what they say is kept.
pub(crate) fn agrees_reversed<W: AddressFamily>(
    alloc: Global,
    zones: &Zones,
    name: &Name,
    answer: &[u8],
    texts: &mut Texts,
) -> Result<bool, AllocError>
    requires room { length (wire_form name.now) ≤ 191 }
    requires kept { AreTexts zones.now W.family texts.old.entries }
    ensures kept { OnOk result (AreTexts zones.now W.family texts.new.entries) }
    ensures agrees { IfOk result (IsReversedAgreement zones.now W.family name.now answer.now) }
{
    if let Some(text) = texts.get(name) {
        return Ok(text.as_slice() == answer);
    }
    let text = reversed_text::<W>(alloc, zones, name)?;
    let same = text.as_slice() == answer;
    texts.insert(name.clone()?, text)?;
    Ok(same)
}
