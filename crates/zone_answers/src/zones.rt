//! The lent zones.
ghost use Rattle.std.specs.Prelude.{◌≡◌, ℕ, ◌&&◌, List, [], ◌∷◌, ◌++◌, Some, find, length, sum_by, ◌≤◌, IfOk, IfErr};
ghost use Rattle.std.specs.Prelude.{OnOk, OnErr};
ghost use Rattle.std.specs.List.{list_any};
ghost use Rattle.std.specs.Option.{option_copied};
ghost use Rattle.dns_name.specs.Name.{is_under};
ghost use Rattle.zone_answers.specs.declared.answer.Answer.{Answer};
ghost use Rattle.zone_answers.specs.Same.{distinct_records, records_in, same_name};
ghost use Rattle.addr_bits.specs.Address.{IsAddress};
ghost use Rattle.dns_name.specs.Wire.{wire_form};
ghost use Rattle.zone_answers.specs.declared.answer.QKind.TheVariants.{A};
ghost use Rattle.zone_answers.specs.Answers.{answer_of, answer_within, at_node, in_zone, zone_of};
ghost use Rattle.zone_answers.specs.Reversed.{AreNamesUnder, ArePartsUnder, answer_below, below_in_zone, reversed_name};
ghost use Rattle.zone_answers.specs.Index.{is_deeper, outcome_of, stands_at};
ghost use Rattle.zone_answers.specs.Lend.{AreLendable, AreZones, IsRefused, IsLent, with_zone};
ghost use Rattle.zone_answers.specs.Names.{has_own_alias, is_taken, other_text_of};

use crate::answer::{Answer, QKind, Step};
use crate::fault::LendFault;
use crate::reversed::reversed_name;
use crate::zone::{Lent, LentZone};
use addr_bits::{Address, Items};
use dns_name::Name;
use indexmap::IndexSet;
use master_reader::{Record, Records};
use std::alloc::{AllocError, Global};
use std::marker::Model;

/// The most records that are lent (the project's own choice).
const MAX_RECORDS: usize = 65536;

/// The most alias steps of an answer (the project's own choice).
const MAX_ALIASES: u8 = 8;

/// The lent zones, which contracts see as a list.
#[derive(Drop, Debug)]
pub struct Zones {
    alloc: Global,
    zones: Vec<LentZone>,
}

impl Model for Zones {
    ghost use Rattle.std.specs.Prelude.{List};
    ghost use Rattle.zone_answers.specs.Zone.{Zone};
    ghost use Rattle.zone_answers.specs.Lend.{AreZones};

    ghost Value = { List Zone };

    ghost view = { λ a. a.zones.items };

    ghost invariant = { λ a. AreZones a.zones.items };
}

impl Zones {
    /// No zone. It keeps the allocator and takes no memory.
    pub fn new(alloc: Global) -> Self
        ensures { result ≡ [] }
    {
        Zones {
            alloc,
            zones: Vec::new(alloc),
        }
    }

    /// Lends a zone. Equal records count once (RFC 2181, section 5). Refused are, in this order, a second zone of this
    /// origin, more than 65,536 records in all, and an alias beside other records; a refusal leaves the zones as they
    /// were.
    pub fn lend(&mut self, origin: Name, records: Records) -> Result<(), LendFault>
        requires lendable { AreLendable origin records }
        ensures lent { OnOk result (self.new ≡ with_zone self.old origin records) }
        ensures free { OnOk result (IsLent self.old origin records) }
        ensures refused { IfErr result (IsRefused self.old origin records) }
        ensures stays { OnErr result (self.new ≡ self.old) }
    {
        if self.zone_at(&origin).is_some() {
            return Err(LendFault::SameOrigin);
        }
        let records = distinct(self.alloc, records)?;
        let count = self.count() + records.len();
        if count > MAX_RECORDS {
            return Err(LendFault::TooMany {
                count: count as u64,
            });
        }
        let zone = LentZone::new(self.alloc, origin, records)?;
        if let Some(name) = zone.least_clash(self.alloc)? {
            return Err(LendFault::AliasAndOther { name });
        }
        push_zone(&mut self.zones, zone)?;
        Ok(())
    }

    /// How many different records are lent.
    fn count(&self) -> usize
        ensures count { result ≡ records_in self.now }
        ensures small { result ≤ 65536 }
    {
        lengths(&self.zones)
    }

    /// The zone with this origin.
    fn zone_at(&self, origin: &Name) -> Option<&LentZone>
        ensures { option_copied result ≡ find (λ z. same_name z.origin origin.now) self.now }
    {
        self.zones.iter().find(|zone| zone.origin() == origin)
    }

    /// The zone with the deepest origin at or above the name (RFC 1034, section 4.3.2, step 2).
    fn zone_of(&self, name: &Name) -> Option<&LentZone>
        ensures { option_copied result ≡ zone_of self.now name.now }
    {
        let zones = self.zones.as_slice();
        let mut deepest = None;
        for zone in zones {
            if is_deeper(zone, deepest, name) {
                deepest = Some(zone);
            }
        }
        deepest
    }

    /// The answer to a question (RFC 1034, section 4.3.2, and RFC 4592), after at most 8 alias steps.
    pub fn answer(&self, name: &Name, kind: QKind) -> Result<Answer, AllocError>
        ensures answer { IfOk result (λ answer. answer ≡ answer_of self.now name.now kind) }
        ensures zones { AreZones self.now }
    {
        // The checker takes from this that the lent zones are as `AreZones` says.
        let _zones = &self.zones;
        self.answer_within(MAX_ALIASES, name, kind)
    }

    /// The answer to a question after at most so many alias steps.
    fn answer_within(&self, aliases: u8, name: &Name, kind: QKind) -> Result<Answer, AllocError>
        ensures { IfOk result (λ answer. answer ≡ answer_within aliases self.now name.now kind) }
    {
        let mut name = name.clone()?;
        let questions = u32::from(aliases) + 1;
        'steps: for _step in 0..questions {
            match self.step(&name, kind)? {
                Step::Known(answer) => return Ok(answer),
                Step::Alias(target) => name = target,
            }
        }
        Ok(Answer::Loop)
    }

    /// The answer for A at the reversed name of an address below the suffix (RFC 7208, sections 5.7 and 7.2).
    pub fn answer_reverse(&self, address: Address, suffix: &Name) -> Result<Answer, AllocError>
        requires address { IsAddress address }
        requires room { length (wire_form suffix.now) ≤ 191 }
        ensures { IfOk result (λ answer. answer ≡ answer_of self.now (reversed_name address suffix.now) A) }
    {
        self.answer(&reversed_name(address, suffix), QKind::A)
    }

    /// The answer at any name below this one that has a label there at or below which nothing is lent (RFC 4592). Only
    /// a name of at most 253 octets on the wire has names below it.
    pub fn answer_below(&self, name: &Name, kind: QKind) -> Result<Answer, AllocError>
        requires room { length (wire_form name.now) ≤ 253 }
        ensures { IfOk result (λ answer. answer ≡ answer_below self.now name.now kind) }
    {
        match self.step_below(name, kind)? {
            Step::Known(answer) => Ok(answer),
            Step::Alias(target) => self.answer_within(MAX_ALIASES - 1, &target, kind),
        }
    }

    /// The answer below the name in the zone that holds it, or the alias that leads on.
    fn step_below(&self, name: &Name, kind: QKind) -> Result<Step, AllocError>
        requires { length (wire_form name.now) ≤ 253 }
        ensures { IfOk result (λ step. (follow : List (List ℕ) → Answer)
            → outcome_of follow step ≡ below_in_zone kind follow name.now (zone_of self.now name.now)) }
    {
        let Some(zone) = self.zone_of(name) else {
            return Ok(Step::Known(Answer::Outside));
        };
        if zone.is_cut_off(name) {
            return Ok(Step::Known(Answer::Outside));
        }
        let Some(node) = zone.node_below(name)? else {
            return Ok(Step::Known(Answer::NoName));
        };
        self.step_at(zone, &node, kind)
    }

    /// The answer in the zone that holds the name, or the alias that leads on.
    fn step(&self, name: &Name, kind: QKind) -> Result<Step, AllocError>
        ensures { IfOk result (λ step. (follow : List (List ℕ) → Answer)
            → outcome_of follow step ≡ in_zone kind follow name.now (zone_of self.now name.now)) }
    {
        let Some(zone) = self.zone_of(name) else {
            return Ok(Step::Known(Answer::Outside));
        };
        if zone.is_cut_off(name) {
            return Ok(Step::Known(Answer::Outside));
        }
        let Some(node) = zone.node_of(name)? else {
            return Ok(Step::Known(Answer::NoName));
        };
        self.step_at(zone, &node, kind)
    }

    /// The answer at the node of the zone, or the alias that leads on.
    fn step_at(&self, zone: &LentZone, node: &Name, kind: QKind) -> Result<Step, AllocError>
        ensures { IfOk result (λ step. (follow : List (List ℕ) → Answer)
            → outcome_of follow step ≡ at_node kind follow zone.now (Some node.now)) }
    {
        if let Some(target) = zone.alias(node) {
            return Ok(Step::Alias(target.clone()?));
        }
        let bodies = zone.bodies(self.alloc, node, kind)?;
        if bodies.is_empty() {
            return Ok(Step::Known(Answer::NoData));
        }
        Ok(Step::Known(Answer::Found(bodies)))
    }

    /// The names at or below the top at which a zone has its origin or a record its owner. A name may come more than
    /// once.
    pub fn names_under(&self, top: &Name) -> Result<Items<Name>, AllocError>
        ensures { IfOk result (AreNamesUnder self.now top.now) }
    {
        self.lent_under(Lent::All, top)
    }

    /// The names at or below the top at which a zone has its origin or an NS record its owner (RFC 1034, section 4.2).
    /// A name may come more than once.
    pub fn parts_under(&self, top: &Name) -> Result<Items<Name>, AllocError>
        ensures { IfOk result (ArePartsUnder self.now top.now) }
    {
        self.lent_under(Lent::Parts, top)
    }

    /// The origins at or below the top, and the owners there that count.
    fn lent_under(&self, lent: Lent, top: &Name) -> Result<Items<Name>, AllocError>
        ensures { IfOk result (λ names. (name : List (List ℕ))
            → list_any (same_name name) names
            ≡ (list_any (λ z. stands_at lent z name) self.now && is_under name top.now)) }
    {
        let mut names = Items::new(self.alloc);
        let zones = self.zones.as_slice();
        for zone in zones {
            zone.push_names(lent, top, &mut names)?;
        }
        Ok(names)
    }

    /// Whether a CNAME record stands at the name, in the zone that holds it.
    pub fn own_alias(&self, name: &Name) -> bool
        ensures { result ≡ has_own_alias self.now name.now }
    {
        match self.zone_of(name) {
            Some(zone) => zone.alias(name).is_some(),
            None => false,
        }
    }

    /// The sum of the lengths, in octets, of the joined TXT texts at the name that are no SPF texts, in the zone that
    /// holds it (RFC 7208, section 3.3).
    pub fn other_text(&self, name: &Name) -> u64
        ensures { result ≡ other_text_of self.now name.now }
    {
        match self.zone_of(name) {
            Some(zone) => zone.other_text(name),
            None => 0,
        }
    }

    /// Whether a record of the zone that holds the name stands at or below it, or a lent origin does.
    pub fn taken(&self, name: &Name) -> bool
        ensures { result ≡ is_taken self.now name.now }
    {
        let has_record = match self.zone_of(name) {
            Some(zone) => zone.has_record(name),
            None => false,
        };
        has_record || have_origin_under(&self.zones, name)
    }
}

/// Whether the origin of the zone is at or above the name, and deeper than that of the zone found before.
fn is_deeper(zone: &LentZone, found: Option<&LentZone>, name: &Name) -> bool
    ensures { result ≡ is_deeper zone.now (option_copied found.entry) name.now }
{
    if !name.under(zone.origin()) {
        return false;
    }
    match found {
        Some(other) => other.origin().label_count() < zone.origin().label_count(),
        None => true,
    }
}

/// Whether the origin of a zone is at or below the name.
fn have_origin_under(zones: &[LentZone], name: &Name) -> bool
    ensures { result ≡ list_any (λ z. is_under z.origin name.now) zones.now }
{
    zones.iter().any(|zone| zone.origin().under(name))
}

/// The sum of the numbers of records.
fn lengths(zones: &[LentZone]) -> usize
    requires { sum_by (λ z. length z.records) zones.now ≤ 65536 }
    ensures { result ≡ sum_by (λ z. length z.records) zones.now }
{
    let mut sum = 0;
    for zone in zones {
        sum += zone.len();
    }
    sum
}

/// The records without those that come again, each at its first place (RFC 2181, section 5).
fn distinct(alloc: Global, records: Records) -> Result<IndexSet<Record>, AllocError>
    ensures { IfOk result (λ set. set.keys ≡ distinct_records records) }
{
    let mut set = IndexSet::new(alloc);
    for added in records.into_vec() {
        set.insert(added)?;
    }
    Ok(set)
}

/// Appends the zone. Where there is no memory, the zones stay as they were.
fn push_zone(zones: &mut Vec<LentZone>, zone: LentZone) -> Result<(), AllocError>
    ensures ok { OnOk result (zones.new.items ≡ zones.old.items ++ zone ∷ []) }
    ensures err { OnErr result (zones.new.items ≡ zones.old.items) }
{
    zones.push(zone)?;
    Ok(())
}
