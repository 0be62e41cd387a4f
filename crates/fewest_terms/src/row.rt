//! Rows of needs, and lists of them.
ghost use Rattle.std.specs.Prelude.{◌≡◌, ⊤};

use crate::Needs;
use addr_bits::{Items, Prefix, Width};
use std::alloc::AllocError;
use std::marker::Model;

/// A mixed prefix, and how many terms it needs.
#[derive(PartialEq, Eq)]
pub struct Row<W: Width> {
    /// The prefix, two of whose addresses have different verdicts.
    pub prefix: Prefix<W>,
    /// How many terms it needs.
    pub needs: Needs,
}

impl<W: Width> Model for Row<W> {
    ghost use Rattle.fewest_terms.specs.Row.{NeedRow};

    ghost Value = { NeedRow };

    ghost view = { λ r. record { prefix = r.prefix; needs = r.needs } };

    ghost inverse = { λ r. record { prefix = r.prefix; needs = r.needs } };
}

impl<W: Width> Copy for Row<W> {}

impl<W: Width> Clone for Row<W> {
    ghost is_clone = { λ x y. y ≡ x };

    ghost is_infallible = { λ _. ⊤ };

    fn clone(&self) -> Result<Row<W>, AllocError> {
        Ok(*self)
    }
}

/// A list of rows.
pub type Rows<W> = Items<Row<W>>;
