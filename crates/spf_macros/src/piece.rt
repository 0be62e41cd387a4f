//! Macro texts as lists of pieces.

use addr_bits::Items;

/// The macro letters of RFC 7208, section 7.2.
#[derive(Clone, Copy, Debug, PartialEq, Eq)]
pub enum Letter {
    /// `s`: the sender.
    S,
    /// `l`: the local part of the sender.
    L,
    /// `o`: the domain of the sender.
    O,
    /// `d`: the domain.
    D,
    /// `i`: the address.
    I,
    /// `p`: the validated name of the address.
    P,
    /// `h`: the HELO name.
    H,
    /// `v`: `in-addr` for an IPv4 address, `ip6` for an IPv6 address.
    V,
    /// `c`: the address as text, in explanations alone.
    C,
    /// `r`: the name of the receiving host, in explanations alone.
    R,
    /// `t`: the time, in explanations alone.
    T,
}

/// A macro with its transformers (RFC 7208, section 7.3).
#[derive(Clone, Copy, Debug, PartialEq, Eq)]
pub struct Macro {
    /// The letter, which says what value the macro has.
    pub letter: Letter,
    /// Whether the letter is written in upper case, which escapes its text.
    pub upper: bool,
    /// How many parts are kept from the right, or 0 for all. Larger numbers are held at 255.
    pub keep: u8,
    /// Whether the parts are reversed.
    pub reverse: bool,
    /// Bits 0 to 6 for the delimiters `. - + , / _ =`, or 0 where none is written.
    pub delims: u8,
}

/// A piece of a macro text (RFC 7208, section 7.1).
#[derive(Clone, Copy, Debug, PartialEq, Eq)]
pub enum Piece {
    /// A visible byte other than `%`.
    Literal(u8),
    /// `%%`, which stands for `%`.
    Percent,
    /// `%_`, which stands for a space.
    Space,
    /// `%-`, which stands for `%20`.
    Percent20,
    /// A macro in braces, which stands for what it expands to.
    Expand(Macro),
}

/// A macro text: its pieces, in order.
pub type MacroText = Items<Piece>;
