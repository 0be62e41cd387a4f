//! How a list is cut into the records of a chain.

use addr_bits::Items;

/// For each record, the number of terms of the list up to and including it.
pub type Ends = Items<usize>;

/// A cut of a list into consecutive pieces, one a record. The last of the ends is the list's length.
#[derive(Drop)]
pub struct Cut {
    /// The ends of the pieces, in order.
    pub ends: Ends,
}
