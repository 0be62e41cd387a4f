//! What holds of all published records. The functions do nothing: what they promise is the law.
ghost use Rattle.published_records.specs.Chain.{RecordsAreChain, RecordsSpell, RecordsLeadOn};
ghost use Rattle.published_records.specs.Published.{FragmentStands, RecordsGive};
ghost use Rattle.published_records.specs.Standing.{RecordsStandAlone, RecordsStandPatched};

/// The text of each record of a chain spells its terms and its redirect (RFC 7208, section 4.6).
pub fn records_spell()
    ensures { RecordsSpell }
{}

/// The redirect of each record of a chain but the last leads to the name of the next one (RFC 7208, section 6.1).
pub fn records_lead_on()
    ensures { RecordsLeadOn }
{}

/// Records that stand at their names are a chain from the domain on (RFC 7208, section 6.1), in whatever zones.
pub fn records_are_chain()
    ensures { RecordsAreChain }
{}

/// The records of a cut that stand at their names, in whatever zones, give each address the verdict of the list, under
/// the limits of a mail receiver, by fewer lookups than there are records, so by at most 10, and by no void lookup
/// (RFC 7208, section 4.6.4).
pub fn records_give()
    ensures { RecordsGive }
{}

/// The records of a cut that fits may be lent alone, as the zone of the domain, and stand at their names there.
pub fn records_stand_alone()
    ensures { RecordsStandAlone }
{}

/// In the zones that were read, with the SPF texts at the domain replaced by the records of a cut, these stand at their
/// names, where the domain has no alias and the other names are free.
pub fn records_stand_patched()
    ensures { RecordsStandPatched }
{}

/// The fragment of a cut that fits is read as its records, which give each address the verdict of the list as
/// [`records_give`] says, alone and in the zones that were read, where one of these holds the domain, below no
/// delegation and without an alias, and the other names are free.
pub fn fragment_stands()
    ensures { FragmentStands }
{}
