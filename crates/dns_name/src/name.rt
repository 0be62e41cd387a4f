//! Names, which contracts see as the list of their labels.
ghost use Rattle.std.specs.Prelude.{◌≡◌, ℕ, ◌↔◌, List, [], length, IsTrue, None, Ok, Err, option_map};
ghost use Rattle.std.specs.Prelude.{IfOk, IfNone, IfSome, MatchResult, OnErr, OnOk};

use crate::fault::NameFault;
use crate::label::{
    MAX_NAME, append, append_lowercase, check_label, check_labels, drop_root, is_root_text,
    split_label, without_final_dot,
};
use crate::labels::Labels;
use crate::printed::{read_label, write_label};
use arrayvec::ArrayVec;
use std::alloc::{AllocError, Global};
use std::hash::{Hash, Hasher};
use std::marker::Model;

/// A domain name: its wire form (RFC 1035, section 3.1), with ASCII letters in lower case.
#[derive(Drop, Debug)]
pub struct Name {
    wire: ArrayVec<u8, 255>,
}

impl Model for Name {
    ghost use Rattle.std.specs.Prelude.{ℕ, List, ◌≡◌};

    ghost Value = { List (List ℕ) };

    ghost use Rattle.dns_name.specs.Wire.{labels_in, wire_form};
    ghost use Rattle.dns_name.specs.Name.{IsName};
    ghost use Rattle.std.proofs.Common.{sym};

    ghost view = { λ a. labels_in a.wire.items };

    ghost invariant = { λ a. IsName (labels_in a.wire.items) × (a.wire.items ≡ wire_form (labels_in a.wire.items)) };

    ghost inverse = { λ labels. record { wire = record { items = wire_form labels } } };

    ghost inverse_ok = { λ a h i. record { wire = record { items = sym h.1 i } } };
}

impl PartialEq for Name {
    ghost use Rattle.std.specs.Prelude.{bytes_eq};
    ghost use Rattle.std.specs.Cmp.{partial_equiv_from_equiv};
    ghost use Rattle.std.specs.Cmp.Lexicographic.{pointwise, lists_per, nat_list_eq_equiv};

    ghost eq = { pointwise bytes_eq };

    ghost laws = { lists_per (partial_equiv_from_equiv nat_list_eq_equiv) };

    fn eq(&self, other: &Self) -> bool {
        self.wire == other.wire
    }
}

impl Eq for Name {
    ghost use Rattle.std.specs.Cmp.Lexicographic.{lists_equiv, nat_list_eq_equiv};

    ghost laws = { lists_equiv nat_list_eq_equiv };
}

/// The octets on the wire are hashed.
impl Hash for Name {
    ghost use Rattle.std.specs.Hash as fed;
    ghost use Rattle.dns_name.specs.Wire.{wire_form};
    ghost use Rattle.std.specs.Cmp.Lexicographic.{pointwise_decides, bytes_decides};
    ghost use Rattle.std.specs.Hash.{same_Alike};

    ghost hash_input = { λ name. fed.slice fed.u8 (wire_form name) };

    ghost respects_eq = { (same_Alike (λ name. fed.slice fed.u8 (wire_form name))
        (pointwise_decides bytes_decides)).fed };

    fn hash<H: Hasher>(&self, state: &mut H) {
        self.wire.hash(state);
    }
}

/// A clone is the same name, and cannot fail.
impl Clone for Name {
    ghost use Rattle.std.specs.Prelude.{◌≡◌, ⊤};

    ghost is_clone = { λ name copy. copy ≡ name };

    ghost is_infallible = { λ _. ⊤ };

    fn clone(&self) -> Result<Self, AllocError> {
        let wire = self.wire.clone()?;
        Ok(Name { wire })
    }
}

impl Name {
    ghost use Rattle.dns_name.specs.Name.{IsName, IsUnder, is_under, child_of, extended_of, joined_of};
    ghost use Rattle.dns_name.specs.Name.{name_of_text, name_of_labels, first_fault, is_dot, first_label_of, parent_of};
    ghost use Rattle.dns_name.specs.Printed.{printed_name, IsPrinted};
    ghost use Rattle.dns_name.specs.Wire.{labels_in, wire_form};
    ghost use Rattle.std.specs.List.{slice_split};

    /// The root, which is one octet on the wire.
    pub fn root() -> Name
        ensures root { result ≡ [] }
        ensures legal { IsName result }
    {
        let mut wire = ArrayVec::new();
        wire.push(0);
        Name { wire }
    }

    /// The label in front of this name (RFC 1034, section 3.1). `EmptyLabel` and `LabelLong` come where the label is
    /// none, and else `NameLong` where the name would have more than 255 octets on the wire.
    pub fn child(&self, label: &[u8]) -> Result<Name, NameFault>
        ensures answer { result ≡ child_of label.now self.now }
        ensures legal { IfOk result IsName }
    {
        check_label(label)?;
        if 1 + label.len() + self.wire.len() > MAX_NAME {
            return Err(NameFault::NameLong);
        }
        let mut wire = ArrayVec::new();
        wire.push(label.len() as u8);
        append_lowercase(&mut wire, label);
        append(&mut wire, &self.wire);
        Ok(Name { wire })
    }

    /// Puts the label behind the last one (RFC 1034, section 3.1). `EmptyLabel` and `LabelLong` come where the label is
    /// none, and else `NameLong` where the name would have more than 255 octets on the wire. A refusal leaves the name
    /// as it was.
    pub fn push_label(&mut self, label: &[u8]) -> Result<(), NameFault>
        ensures answer { MatchResult result (λ _. extended_of self.old label.now ≡ Ok self.new)
            (λ fault. extended_of self.old label.now ≡ Err fault) }
        ensures legal { OnOk result (IsName self.new) }
        ensures stays { OnErr result (self.new ≡ self.old) }
    {
        check_label(label)?;
        if self.wire.len() + 1 + label.len() > MAX_NAME {
            return Err(NameFault::NameLong);
        }
        drop_root(&mut self.wire);
        self.wire.push(label.len() as u8);
        append_lowercase(&mut self.wire, label);
        self.wire.push(0);
        Ok(())
    }

    /// Puts the labels of the other name behind the last one (RFC 1034, section 3.1). `NameLong` comes where the name
    /// would have more than 255 octets on the wire, and leaves it as it was.
    pub fn push_name(&mut self, name: &Name) -> Result<(), NameFault>
        ensures answer { MatchResult result (λ _. joined_of self.old name.now ≡ Ok self.new)
            (λ fault. joined_of self.old name.now ≡ Err fault) }
        ensures legal { OnOk result (IsName self.new) }
        ensures stays { OnErr result (self.new ≡ self.old) }
    {
        if self.wire.len() + name.wire.len() > MAX_NAME + 1 {
            return Err(NameFault::NameLong);
        }
        drop_root(&mut self.wire);
        append(&mut self.wire, &name.wire);
        Ok(())
    }

    /// The name that a text writes (RFC 1034, section 3.1): the text is cut at each dot after one final dot is dropped,
    /// and `.` alone is the root. The first label with a fault decides, then `NameLong`. The empty text is
    /// `EmptyLabel`.
    pub fn from_text(text: &[u8]) -> Result<Name, NameFault>
        ensures { result ≡ name_of_text text.now }
    {
        if is_root_text(text) {
            return Ok(Name::root());
        }
        let labels = without_final_dot(text);
        check_labels(labels)?;
        Name::from_labels(labels)
    }

    /// The name of legal labels that are cut at each dot.
    fn from_labels(text: &[u8]) -> Result<Name, NameFault>
        requires { first_fault (slice_split is_dot text.now) ≡ None }
        ensures { result ≡ name_of_labels (slice_split is_dot text.now) }
    {
        let mut name = Name::root();
        for label in text.rsplit(|byte| *byte == b'.') {
            name = name.child(label)?;
        }
        Ok(name)
    }

    /// The name whose printed form is the text. There is none exactly where no name has this printed form.
    pub fn from_printed(text: &[u8]) -> Option<Name>
        ensures name { IfSome result (IsPrinted text.now) }
        ensures none { IfNone result ((name : List (List ℕ)) → ¬ IsPrinted text.now name) }
    {
        if is_root_text(text) {
            return Some(Name::root());
        }
        let mut name = Name::root();
        for part in text.rsplit(|byte| *byte == b'.') {
            let label = read_label(part)?;
            name = name.child(&label).ok()?;
        }
        Some(name)
    }

    /// The name without its first label. The root has none.
    pub fn parent(&self) -> Option<Name>
        ensures { result ≡ parent_of self.now }
    {
        let (_, behind) = split_label(&self.wire)?;
        let mut wire = ArrayVec::new();
        append(&mut wire, behind);
        Some(Name { wire })
    }

    /// The octets of the first label, with ASCII letters in lower case. The root has none.
    pub fn first_label(&self) -> Option<&[u8]>
        ensures { option_map (λ label. label.now) result ≡ first_label_of self.now }
    {
        let (label, _) = split_label(&self.wire)?;
        Some(label)
    }

    /// The labels, borrowed.
    pub fn labels(&self) -> Labels<'_>
        ensures labels { result ≡ self.now }
        ensures legal { IsName result }
    {
        Labels { wire: &self.wire }
    }

    /// The octets on the wire.
    pub(crate) fn wire(&self) -> &[u8]
        ensures form { result.now ≡ wire_form self.now }
        ensures labels { labels_in result.now ≡ self.now }
    {
        &self.wire
    }

    /// The number of labels, 0 for the root.
    pub fn label_count(&self) -> usize
        ensures labels { result ≡ length self.now }
        ensures legal { IsName self.now }
    {
        let mut count = 0;
        let mut rest = self.wire.as_slice();
        while let Some((_, behind)) = split_label(rest) {
            count += 1;
            rest = behind;
        }
        count
    }

    /// How many octets the name has on the wire, from 1 for the root to 255 (RFC 1035, section 3.1).
    pub fn wire_len(&self) -> usize
        ensures { result ≡ length (wire_form self.now) }
    {
        self.wire.len()
    }

    /// Whether the name stands at or below the other (RFC 1034, section 3.1).
    pub fn under(&self, other: &Name) -> bool
        ensures test { result ≡ is_under self.now other.now }
        ensures under { IsTrue result ↔ IsUnder self.now other.now }
    {
        let top = other.wire.as_slice();
        let mut rest = self.wire.as_slice();
        while rest != top {
            let Some((_, behind)) = split_label(rest) else {
                return false;
            };
            rest = behind;
        }
        true
    }

    /// The printed form: labels joined by dots without a final dot, the root as `.`, and bytes that are not printed as
    /// themselves as `\` and three decimal digits. It takes no memory: four bytes for each octet on the wire are
    /// enough.
    pub fn printed(&self) -> ArrayVec<u8, 1020>
        ensures { result.items ≡ printed_name self.now }
    {
        let mut text = ArrayVec::new();
        let Some((first, mut rest)) = split_label(&self.wire) else {
            text.push(b'.');
            return text;
        };
        write_label(&mut text, first);
        while let Some((label, behind)) = split_label(rest) {
            text.push(b'.');
            write_label(&mut text, label);
            rest = behind;
        }
        text
    }

    /// The printed form, as a text of its own.
    pub fn write_text(&self, alloc: Global) -> Result<Vec<u8>, AllocError>
        ensures { IfOk result (λ text. text.items ≡ printed_name self.now) }
    {
        let printed = self.printed();
        let mut text = Vec::new(alloc);
        text.extend_from_slice(&printed)?;
        Ok(text)
    }
}
