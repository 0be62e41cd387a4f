//! The owners of a zone's records.
ghost use Rattle.std.specs.Prelude.{◌≡◌, ℕ, List, [], ◌∷◌, ◌++◌, length, OnOk, IfOk};
ghost use Rattle.std.specs.Map.{lookup};
ghost use Rattle.master_reader.specs.declared.record.Record.{Record};
ghost use Rattle.zone_answers.specs.Same.{same_name};
ghost use Rattle.zone_answers.specs.Answers.{is_delegation};
ghost use Rattle.zone_answers.specs.Index.{empty_node, filled, places_in, with_record, IsIndex};

use crate::answer::QKind;
use addr_bits::Items;
use dns_name::Name;
use indexmap::IndexMap;
use master_reader::{Body, Record};
use std::alloc::{AllocError, Global};

/// Which records of an owner are looked at.
#[derive(Clone, Copy)]
pub(crate) enum Chosen {
    /// All of them.
    Every,

    /// Those of the kind that is asked for.
    Asked(QKind),

    /// CNAME records.
    Aliases,
}

/// What stands at a name: the places that the records of this owner have in the zone's list, in rising order. They are
/// kept by type too, so that a question looks at no record of another type.
#[derive(Drop, Debug)]
pub(crate) struct Node {
    /// The places of all records.
    every: Items<usize>,

    /// The places of A records.
    a: Items<usize>,

    /// The places of AAAA records.
    aaaa: Items<usize>,

    /// The places of MX records.
    mx: Items<usize>,

    /// The places of TXT records.
    txt: Items<usize>,

    /// The places of CNAME records.
    aliases: Items<usize>,

    /// Whether an NS record is among the records.
    pub(crate) delegates: bool,
}

impl Node {
    /// A name with no record.
    fn new(alloc: Global) -> Node
        ensures { result ≡ empty_node }
    {
        Node {
            every: Items::new(alloc),
            a: Items::new(alloc),
            aaaa: Items::new(alloc),
            mx: Items::new(alloc),
            txt: Items::new(alloc),
            aliases: Items::new(alloc),
            delegates: false,
        }
    }

    /// The places of the chosen records.
    pub(crate) fn places(&self, chosen: Chosen) -> &[usize]
        ensures { result.now ≡ places_in chosen self.now }
    {
        match chosen {
            Chosen::Every => self.every.as_slice(),
            Chosen::Asked(QKind::A) => self.a.as_slice(),
            Chosen::Asked(QKind::Aaaa) => self.aaaa.as_slice(),
            Chosen::Asked(QKind::Mx) => self.mx.as_slice(),
            Chosen::Asked(QKind::Txt) => self.txt.as_slice(),
            Chosen::Aliases => self.aliases.as_slice(),
        }
    }

    /// Adds the place of a record with this body, which is behind those that are there.
    fn push(&mut self, place: usize, body: &Body) -> Result<(), AllocError>
        ensures { OnOk result (self.new ≡ with_record self.old place body.now) }
    {
        self.every.push(place)?;
        match body {
            Body::A(_) => self.a.push(place),
            Body::Aaaa(_) => self.aaaa.push(place),
            Body::Mx(_, _) => self.mx.push(place),
            Body::Txt(_) => self.txt.push(place),
            Body::Cname(_) => self.aliases.push(place),
            Body::Ns(_) => {
                self.delegates = true;
                Ok(())
            }
            Body::Other => Ok(()),
        }
    }
}

/// The owners, in the order of their first record.
pub(crate) type Nodes = IndexMap<Name, Node>;

/// The owners of the records.
pub(crate) fn index_records(alloc: Global, records: &[Record]) -> Result<Nodes, AllocError>
    ensures { IfOk result (λ nodes. IsIndex records.now nodes.entries) }
{
    let mut nodes = IndexMap::new(alloc);
    for (place, record) in records.iter().enumerate() {
        add_record(alloc, &mut nodes, place, record)?;
    }
    Ok(nodes)
}

/// Adds the record at the place behind those that are indexed.
fn add_record(
    alloc: Global,
    nodes: &mut Nodes,
    place: usize,
    added: &Record,
) -> Result<(), AllocError>
    ensures { (records : List Record) → IsIndex records nodes.old.entries → place ≡ length records
        → OnOk result (IsIndex (records ++ added.now ∷ []) nodes.new.entries) }
{
    add_name(alloc, nodes, added.owner.clone()?)?;
    if let Some(node) = nodes.get_mut(&added.owner) {
        node.push(place, &added.body)?;
    }
    Ok(())
}

/// Whether the body is that of an NS record.
pub(crate) fn is_delegation(body: &Body) -> bool
    ensures { result ≡ is_delegation body.now }
{
    matches!(body, Body::Ns(_))
}

/// Adds the name with no record, if it is not there yet.
fn add_name(alloc: Global, nodes: &mut Nodes, added: Name) -> Result<(), AllocError>
    ensures { OnOk result ((name : List (List ℕ))
        → lookup (same_name name) nodes.new.entries ≡ filled (same_name added name)
        (lookup (same_name name) nodes.old.entries)) }
{
    if nodes.contains_key(&added) {
        return Ok(());
    }
    nodes.insert(added, Node::new(alloc))?;
    Ok(())
}
