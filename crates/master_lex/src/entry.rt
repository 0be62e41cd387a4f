//! Entries, and the lists that they are made of.

use addr_bits::Items;

/// An octet of a token, and whether it was escaped.
#[derive(Clone, Copy, Debug, PartialEq, Eq)]
pub struct Octet {
    pub byte: u8,
    pub escaped: bool,
}

/// The octets of a token.
pub type Units = Items<Octet>;

/// A token: its octets, and whether they stood between quotes.
#[derive(Drop, Debug)]
pub struct Token {
    pub units: Units,
    pub quoted: bool,
}

/// The tokens of an entry.
pub type Tokens = Items<Token>;

/// An entry: the line on which it begins, whether its first byte is a blank, and its tokens.
#[derive(Drop, Debug)]
pub struct Entry {
    pub line: u64,
    pub blank: bool,
    pub tokens: Tokens,
}
