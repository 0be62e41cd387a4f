//! Names that are borrowed, from some label on.
ghost use Rattle.std.specs.Prelude.{◌≡◌, [], ◌∷◌, MatchOption, bytes_eq};
ghost use Rattle.std.specs.Cmp.Lexicographic.{pointwise};

use crate::label::split_label;
use crate::name::Name;
use std::marker::Model;

/// The labels of a name, or those behind its first ones, which are a name themselves (RFC 1034, section 3.1). They
/// stand in the name that lends them: nothing is copied.
#[derive(Drop, Debug)]
pub struct Labels<'a> {
    pub(crate) wire: &'a [u8],
}

impl<'a> Model for Labels<'a> {
    ghost use Rattle.std.specs.Prelude.{ℕ, List, ◌≡◌};
    ghost use Rattle.dns_name.specs.Wire.{labels_in, wire_form};
    ghost use Rattle.dns_name.specs.Name.{IsName};

    ghost Value = { List (List ℕ) };

    ghost view = { λ a. labels_in a.wire.now };

    ghost invariant = { λ a. IsName (labels_in a.wire.now) × (a.wire.now ≡ wire_form (labels_in a.wire.now)) };
}

impl<'a> Labels<'a> {
    /// The octets of the first label, with ASCII letters in lower case, and the labels behind it. The root has none.
    pub fn split_first(&self) -> Option<(&'a [u8], Labels<'a>)>
        ensures { MatchOption result (self.now ≡ []) (λ p. self.now ≡ p.0.now ∷ p.1) }
    {
        let (label, behind) = split_label(self.wire)?;
        Some((label, Labels { wire: behind }))
    }

    /// Whether these are all labels of the name.
    pub fn are_all_of(&self, name: &Name) -> bool
        ensures { result ≡ pointwise bytes_eq self.now name.now }
    {
        self.wire == name.wire()
    }
}
