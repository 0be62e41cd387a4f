//! The owners of a zone's records, in the order of their keys.
ghost use Rattle.std.specs.Prelude.{◌≡◌, ℕ, ◌+◌, ◌≤◌, ◌&&◌, ◌++◌, Bool, true, false, length, IfOk, take, drop};
ghost use Rattle.arrayvec.specs.ArrayVec.{array_vec_len};
ghost use Rattle.std.specs.List.{AllByRecursion, list_any};
ghost use Rattle.std.specs.Cmp.Lexicographic.{slice_cmp};
ghost use Rattle.std.specs.Ordering.{is_lt, nat_cmp};
ghost use Rattle.dns_name.specs.Wire.{wire_form};
ghost use Rattle.zone_answers.specs.declared.order.Entry.{Entry};
ghost use Rattle.zone_answers.specs.Order.{ArePlaced, AreSorted, begins, key_of};

use arrayvec::ArrayVec;
use dns_name::{Labels, Name};
use master_reader::Record;
use std::alloc::{AllocError, Global};
use std::cmp::Ordering;

/// A record, by the key of its owner.
#[derive(Drop, Debug)]
pub(crate) struct Entry {
    /// The labels of the owner from the last to the first, each behind its length octet: the keys of the names at or
    /// below a name begin with its key, and stand together.
    key: Vec<u8>,

    /// The place of the record in the zone's list.
    pub(crate) place: usize,
}

/// Entries are equal if their keys are.
impl PartialEq for Entry {
    ghost use Rattle.std.specs.Prelude.{nat_eq};
    ghost use Rattle.std.specs.Cmp.{on_per, partial_equiv_from_equiv};
    ghost use Rattle.std.specs.Cmp.Lexicographic.{pointwise, nat_list_eq_equiv};

    ghost eq = { λ s t. pointwise nat_eq s.key.items t.key.items };

    ghost laws = { on_per (λ s. s.key.items) (partial_equiv_from_equiv nat_list_eq_equiv) };

    fn eq(&self, other: &Self) -> bool {
        self.key.as_slice() == other.key.as_slice()
    }
}

impl Eq for Entry {
    ghost use Rattle.std.specs.Cmp.{on_equiv};
    ghost use Rattle.std.specs.Cmp.Lexicographic.{nat_list_eq_equiv};

    ghost laws = { on_equiv (λ s. s.key.items) nat_list_eq_equiv };
}

impl PartialOrd for Entry {
    ghost use Rattle.std.specs.Prelude.{Some};
    ghost use Rattle.std.specs.Ordering.{nat_cmp};
    ghost use Rattle.std.specs.Cmp.{on_po};
    ghost use Rattle.std.specs.Cmp.Lexicographic.{slice_cmp, texts_po};

    ghost partial_cmp = { λ s t. Some (slice_cmp nat_cmp s.key.items t.key.items) };

    ghost laws = { on_po (λ s. s.key.items) texts_po };

    fn partial_cmp(&self, other: &Self) -> Option<Ordering> {
        Some(self.cmp(other))
    }
}

/// Entries are ordered by their keys.
impl Ord for Entry {
    ghost use Rattle.std.specs.Prelude.{refl};
    ghost use Rattle.std.specs.Ordering.{nat_cmp};
    ghost use Rattle.std.specs.Cmp.{on_total};
    ghost use Rattle.std.specs.Cmp.Lexicographic.{slice_cmp, nat_list_cmp_total, texts_ties};

    ghost cmp = { λ s t. slice_cmp nat_cmp s.key.items t.key.items };

    ghost total = { on_total (λ s. s.key.items) nat_list_cmp_total };

    ghost matches_partial_cmp = { λ s t. refl };

    ghost matches_eq = { λ s t. texts_ties s.key.items t.key.items };

    fn cmp(&self, other: &Self) -> Ordering {
        self.key.as_slice().cmp(other.key.as_slice())
    }
}

impl Entry {
    /// Whether the key begins with this one.
    fn begins_with(&self, key: &[u8]) -> bool
        ensures { result ≡ begins key.now self.now.key.items }
    {
        self.key.as_slice().starts_with(key)
    }

    /// Whether the key is before this one.
    fn is_before(&self, key: &[u8]) -> bool
        ensures { result ≡ is_lt (slice_cmp nat_cmp self.now.key.items key.now) }
    {
        self.key.as_slice().cmp(key).is_lt()
    }
}

/// The records, in the order of the keys of their owners.
pub(crate) fn sort_owners(alloc: Global, records: &[Record]) -> Result<Vec<Entry>, AllocError>
    ensures sorted { IfOk result (λ entries. AreSorted entries.items) }
    ensures placed { IfOk result (λ entries. ArePlaced records.now entries.items) }
{
    let mut entries = owners_of(alloc, records)?;
    entries.sort()?;
    Ok(entries)
}

/// The records, in their own order.
fn owners_of(alloc: Global, records: &[Record]) -> Result<Vec<Entry>, AllocError>
    ensures { IfOk result (λ entries. ArePlaced records.now entries.items) }
{
    let mut entries = Vec::new(alloc);
    for (place, record) in records.iter().enumerate() {
        let key = Vec::from_slice(alloc, &key_of(&record.owner))?;
        entries.push(Entry { key, place })?;
    }
    Ok(entries)
}

/// The key of a name: its labels from the last to the first, each behind its length octet.
pub(crate) fn key_of(name: &Name) -> ArrayVec<u8, 255>
    ensures { result.items ≡ key_of name.now }
{
    let mut key = ArrayVec::new();
    push_key(&name.labels(), &mut key);
    key
}

/// Appends the key of a name, for which there is room.
fn push_key(labels: &Labels, key: &mut ArrayVec<u8, 255>)
    requires { array_vec_len key.old + length (wire_form labels.now) ≤ 256 }
    ensures key { key.new.items ≡ key.old.items ++ key_of labels.now }
    ensures len { array_vec_len key.new + 1 ≡ array_vec_len key.old + length (wire_form labels.now) }
{
    let Some((label, above)) = labels.split_first() else {
        return;
    };
    push_key(&above, key);
    key.push(label.len() as u8);
    key.try_extend_from_slice(label).unwrap();
}

/// Whether the key of an entry begins with this one.
pub(crate) fn any_begins(entries: &[Entry], key: &[u8]) -> bool
    requires { AreSorted entries.now }
    ensures { result ≡ list_any (λ e. begins key.now e.key.items) entries.now }
{
    let rest = &entries[first_at(entries, key)..];
    match rest.first() {
        Some(entry) => entry.begins_with(key),
        None => false,
    }
}

/// The entries whose keys begin with this one.
pub(crate) fn begin_with<'a>(entries: &'a [Entry], key: &[u8]) -> &'a [Entry]
    requires { AreSorted entries.now }
    ensures { (test : Entry → Bool) → list_any (λ e. begins key.now e.key.items && test e) entries.now
        ≡ list_any test result.now }
{
    let rest = &entries[first_at(entries, key)..];
    let count = rest.partition_point(|entry| entry.begins_with(key));
    &rest[..count]
}

/// The place of the first entry whose key is not before this one.
fn first_at(entries: &[Entry], key: &[u8]) -> usize
    requires { AreSorted entries.now }
    ensures bound { result ≤ length entries.now }
    ensures before { AllByRecursion (λ e. is_lt (slice_cmp nat_cmp e.key.items key.now) ≡ true)
        (take result entries.now) }
    ensures behind { AllByRecursion (λ e. is_lt (slice_cmp nat_cmp e.key.items key.now) ≡ false)
        (drop result entries.now) }
{
    entries.partition_point(|entry| entry.is_before(key))
}
