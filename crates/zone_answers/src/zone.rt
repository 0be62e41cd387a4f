//! One lent zone.
ghost use Rattle.std.specs.Prelude.{◌≡◌, ℕ, ◌≤◌, ◌&&◌, ◌||◌, List, OnOk, length, filter, filter_map, sum_by, IfOk};
ghost use Rattle.std.specs.Prelude.{IfSome, IsFalse, MatchOption};
ghost use Rattle.std.specs.List.{list_any};
ghost use Rattle.std.specs.Option.{option_copied};
ghost use Rattle.dns_name.specs.Name.{IsUnder, is_under};
ghost use Rattle.dns_name.specs.Wire.{wire_form};
ghost use Rattle.zone_answers.specs.Same.{distinct_records, same_name};
ghost use Rattle.zone_answers.specs.Answers.{bodies_at, closest_above, is_cut_off, is_delegation, is_of, name_exists};
ghost use Rattle.zone_answers.specs.Answers.{node_of, target_of, has_record};
ghost use Rattle.zone_answers.specs.Names.{other_len};
ghost use Rattle.zone_answers.specs.Reversed.{closest_at, node_below};
ghost use Rattle.zone_answers.specs.Index.{body_at, counts, stands_at, first_of, has_delegation, places_of};
ghost use Rattle.zone_answers.specs.Index.{target_in};
ghost use Rattle.zone_answers.specs.Lend.{AreLendable, IsBodyFit, IsLeastClash, has_clash};

use crate::answer::{Bodies, QKind};
use crate::clash::{clashes, lesser};
use crate::node::{Chosen, Nodes, index_records, is_delegation};
use crate::order::{Entry, any_begins, begin_with, key_of, sort_owners};
use crate::text::other_len;
use addr_bits::Items;
use dns_name::Name;
use indexmap::IndexSet;
use master_reader::{Body, Record};
use std::alloc::{AllocError, Global};
use std::marker::Model;

/// Which owners are listed.
#[derive(Clone, Copy, PartialEq, Eq)]
pub(crate) enum Lent {
    /// Those of all records.
    All,

    /// Those of NS records.
    Parts,
}

impl Lent {
    /// Whether the owner of the record is listed.
    fn counts(self, listed: &Record) -> bool
        ensures { result ≡ counts self listed.now }
    {
        match self {
            Lent::All => true,
            Lent::Parts => is_delegation(&listed.body),
        }
    }
}

/// A lent zone, which contracts see as its origin and its records, equal ones once, in order.
#[derive(Drop, Debug)]
pub(crate) struct LentZone {
    origin: Name,
    records: IndexSet<Record>,
    nodes: Nodes,

    /// The records, in the order of the keys of their owners.
    order: Vec<Entry>,

    /// Whether an NS record is among the records.
    parted: bool,
}

impl Model for LentZone {
    ghost use Rattle.zone_answers.specs.Zone.{Zone};
    ghost use Rattle.zone_answers.specs.Index.{IsLentZone};

    ghost Value = { Zone };

    ghost view = { λ z. record { origin = z.origin; records = z.records.keys } };

    ghost invariant = { λ z. IsLentZone (record { origin = z.origin; records = z.records.keys }) z.nodes.entries
        z.order.items z.parted };
}

impl LentZone {
    /// The zone of these records, each of which stands at or below the origin.
    pub(crate) fn new(
        alloc: Global,
        origin: Name,
        records: IndexSet<Record>,
    ) -> Result<LentZone, AllocError>
        requires lendable { AreLendable origin records.keys }
        requires distinct { distinct_records records.keys ≡ records.keys }
        requires few { length records.keys ≤ 65536 }
        ensures { IfOk result (λ zone. zone ≡ record { origin = origin; records = records.keys }) }
    {
        let nodes = index_records(alloc, records.as_slice())?;
        let order = sort_owners(alloc, records.as_slice())?;
        let parted = have_delegation(records.as_slice());
        Ok(LentZone {
            origin,
            records,
            nodes,
            order,
            parted,
        })
    }

    /// The name of the zone's top.
    pub(crate) fn origin(&self) -> &Name
        ensures { result.now ≡ self.now.origin }
    {
        &self.origin
    }

    /// How many different records the zone has.
    pub(crate) fn len(&self) -> usize
        ensures { result ≡ length self.now.records }
    {
        self.records.len()
    }

    /// Whether a record stands at or below the name.
    pub(crate) fn has_record(&self, name: &Name) -> bool
        ensures { result ≡ has_record self.now.records name.now }
    {
        any_begins(self.order.as_slice(), &key_of(name))
    }

    /// Whether the name is the origin, or a record stands at or below it (RFC 4592, section 2.2.2).
    fn exists(&self, name: &Name) -> bool
        ensures { result ≡ name_exists self.now name.now }
    {
        *name == self.origin || self.has_record(name)
    }

    /// Whether an NS record stands at the name.
    fn delegates(&self, name: &Name) -> bool
        ensures { result ≡ has_delegation self.now.records name.now }
    {
        match self.nodes.get(name) {
            Some(node) => node.delegates,
            None => false,
        }
    }

    /// Whether the name, which lies at or below the origin, lies at or below a delegation (RFC 1034, section 4.3.2,
    /// step 3 b).
    pub(crate) fn is_cut_off(&self, name: &Name) -> bool
        requires { IsUnder name.now self.now.origin }
        ensures { result ≡ is_cut_off self.now name.now }
    {
        if !self.parted {
            return false;
        }
        self.is_below_cut(name)
    }

    /// The same by a look at each name from this one up to the origin.
    fn is_below_cut(&self, name: &Name) -> bool
        requires { IsUnder name.now self.now.origin }
        ensures { result ≡ is_cut_off self.now name.now }
    {
        if *name == self.origin {
            return false;
        }
        if self.delegates(name) {
            return true;
        }
        match name.parent() {
            Some(above) => self.is_below_cut(&above),
            None => false,
        }
    }

    /// The deepest name above this one that exists (RFC 4592, section 3.3.1).
    fn closest_above(&self, name: &Name) -> Name
        ensures { result ≡ closest_above self.now name.now }
    {
        let Some(above) = name.parent() else {
            return Name::root();
        };
        if self.exists(&above) {
            return above;
        }
        self.closest_above(&above)
    }

    /// The name itself, or the wildcard that stands for it (RFC 4592, section 3.3.1).
    pub(crate) fn node_of(&self, name: &Name) -> Result<Option<Name>, AllocError>
        ensures { IfOk result (λ node. node ≡ node_of self.now name.now) }
    {
        if self.exists(name) {
            return Ok(Some(name.clone()?));
        }
        // A name has at most 255 octets, so `*` fits in front of each name above it.
        // `label_count` tells the checker that the name is legal.
        let _labels = name.label_count();
        let Ok(wildcard) = self.closest_above(name).child(b"*") else {
            return Ok(None);
        };
        Ok(if self.exists(&wildcard) {
            Some(wildcard)
        } else {
            None
        })
    }

    /// The deepest name at or above this one that exists (RFC 4592, section 3.3.1).
    fn closest_at(&self, name: &Name) -> Name
        ensures { result ≡ closest_at self.now name.now }
    {
        if self.exists(name) {
            name.clone().unwrap()
        } else {
            self.closest_above(name)
        }
    }

    /// The wildcard that stands for the names below this one that do not exist (RFC 4592, section 3.3.1).
    pub(crate) fn node_below(&self, name: &Name) -> Result<Option<Name>, AllocError>
        requires { length (wire_form name.now) ≤ 253 }
        ensures { IfOk result (λ node. node ≡ node_below self.now name.now) }
    {
        // `label_count` tells the checker that the name is legal.
        let _labels = name.label_count();
        let Ok(wildcard) = self.closest_at(name).child(b"*") else {
            return Ok(None);
        };
        Ok(if self.exists(&wildcard) {
            Some(wildcard)
        } else {
            None
        })
    }

    /// Adds the origin and the owners that count, of those at or below the top.
    pub(crate) fn push_names(
        &self,
        lent: Lent,
        top: &Name,
        names: &mut Items<Name>,
    ) -> Result<(), AllocError>
        ensures { OnOk result ((name : List (List ℕ)) → list_any (same_name name) names.new
            ≡ (list_any (same_name name) names.old || (stands_at lent self.now name && is_under name top.now))) }
    {
        push_under(&self.origin, top, names)?;
        let entries = begin_with(self.order.as_slice(), &key_of(top));
        for entry in entries {
            if let Some(listed) = self.records.get_index(entry.place) {
                push_owner(lent, listed, names)?;
            }
        }
        Ok(())
    }

    /// The places of the chosen records at the name.
    fn places(&self, chosen: Chosen, name: &Name) -> &[usize]
        ensures places { result.now ≡ places_of chosen 0 self.now.records name.now }
        ensures few { length result.now ≤ 65536 }
    {
        match self.nodes.get(name) {
            Some(node) => node.places(chosen),
            None => &[],
        }
    }

    /// The body of the record at the place.
    fn body(&self, place: usize) -> Option<&Body>
        ensures body { option_copied result ≡ body_at self.now.records place }
        ensures fit { IfSome result (λ body. IsBodyFit body.now) }
    {
        let found = self.records.get_index(place)?;
        Some(&found.body)
    }

    /// The target of the record at the place, if it is a CNAME record.
    fn target(&self, place: usize) -> Option<&Name>
        ensures { option_copied result ≡ target_in (body_at self.now.records place) }
    {
        match self.body(place)? {
            Body::Cname(target) => Some(target),
            _ => None,
        }
    }

    /// The target of the first CNAME record at the name.
    pub(crate) fn alias(&self, name: &Name) -> Option<&Name>
        ensures { option_copied result ≡ first_of (filter_map target_of (bodies_at self.now name.now)) }
    {
        let first = self.places(Chosen::Aliases, name).first()?;
        self.target(*first)
    }

    /// Whether a CNAME record stands at the name beside another one, or beside a record of a type that is read.
    fn has_clash(&self, name: &Name) -> bool
        ensures { result ≡ has_clash self.now name.now }
    {
        let Some(target) = self.alias(name) else {
            return false;
        };
        let places = self.places(Chosen::Every, name);
        for place in places {
            if let Some(body) = self.body(*place) {
                if clashes(target, body) {
                    return true;
                }
            }
        }
        false
    }

    /// The least name at which records clash, by the order of printed names.
    pub(crate) fn least_clash(&self, alloc: Global) -> Result<Option<Name>, AllocError>
        ensures { IfOk result (λ least. MatchOption least
            ((owner : List (List ℕ)) → IsFalse (has_clash self.now owner)) (IsLeastClash self.now)) }
    {
        let names = self.nodes.keys().as_slice();
        let mut least = None;
        for name in names {
            if self.has_clash(name) {
                least = Some(lesser(alloc, least, name)?);
            }
        }
        match least {
            Some(name) => Ok(Some(name.clone()?)),
            None => Ok(None),
        }
    }

    /// The sum of the lengths of the joined texts at the name that are no SPF texts (RFC 7208, section 3.3).
    pub(crate) fn other_text(&self, name: &Name) -> u64
        ensures { result ≡ sum_by other_len (bodies_at self.now name.now) }
    {
        let places = self.places(Chosen::Asked(QKind::Txt), name);
        let mut octets = 0;
        for place in places {
            if let Some(body) = self.body(*place) {
                octets += other_len(body);
            }
        }
        octets
    }

    /// The bodies of the records at the name that are of the kind, in order.
    pub(crate) fn bodies(
        &self,
        alloc: Global,
        name: &Name,
        kind: QKind,
    ) -> Result<Bodies, AllocError>
        ensures { IfOk result (λ bodies. bodies ≡ filter (is_of kind) (bodies_at self.now name.now)) }
    {
        let places = self.places(Chosen::Asked(kind), name);
        let mut bodies = Bodies::new(alloc);
        for place in places {
            if let Some(body) = self.body(*place) {
                bodies.push(copy_of(body)?)?;
            }
        }
        Ok(bodies)
    }
}

/// Adds the owner of the record, if it counts.
fn push_owner(lent: Lent, listed: &Record, names: &mut Items<Name>) -> Result<(), AllocError>
    ensures { OnOk result ((name : List (List ℕ)) → list_any (same_name name) names.new
        ≡ (list_any (same_name name) names.old || (same_name listed.now.owner name && counts lent listed.now))) }
{
    if lent.counts(listed) {
        names.push(listed.owner.clone()?)?;
    }
    Ok(())
}

/// Whether an NS record is among the records.
fn have_delegation(records: &[Record]) -> bool
    ensures { result ≡ list_any (λ r. is_delegation r.body) records.now }
{
    records.iter().any(|record| is_delegation(&record.body))
}

/// Adds the name, if it is at or below the top.
fn push_under(added: &Name, top: &Name, names: &mut Items<Name>) -> Result<(), AllocError>
    ensures { OnOk result ((name : List (List ℕ)) → list_any (same_name name) names.new
        ≡ (list_any (same_name name) names.old || (same_name added.now name && is_under name top.now))) }
{
    if added.under(top) {
        names.push(added.clone()?)?;
    }
    Ok(())
}

/// The same body.
fn copy_of(body: &Body) -> Result<Body, AllocError>
    ensures { IfOk result (λ copy. copy ≡ body.now) }
{
    match body {
        Body::A(address) => Ok(Body::A(*address)),
        Body::Aaaa(address) => Ok(Body::Aaaa(*address)),
        Body::Mx(preference, exchange) => Ok(Body::Mx(*preference, exchange.clone()?)),
        Body::Txt(strings) => Ok(Body::Txt(strings.clone()?)),
        Body::Cname(target) => Ok(Body::Cname(target.clone()?)),
        Body::Ns(server) => Ok(Body::Ns(server.clone()?)),
        Body::Other => Ok(Body::Other),
    }
}
