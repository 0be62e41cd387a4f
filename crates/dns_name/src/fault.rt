//! Why labels make no name.

use thiserror::Error;

/// Why labels make no name (RFC 1035, section 2.3.4).
#[derive(Clone, Copy, Debug, PartialEq, Eq, Error)]
pub enum NameFault {
    /// A label has no octet.
    #[error("a label is empty")]
    EmptyLabel,

    /// A label has more than 63 octets.
    #[error("a label has more than 63 octets")]
    LabelLong,

    /// The wire form has more than 255 octets.
    #[error("a name has more than 255 octets")]
    NameLong,
}
