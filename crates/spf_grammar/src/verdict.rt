//! What a record says of an address.

/// What a record says of an address, by the qualifier of the term that decides (RFC 7208, section 2.6).
#[derive(Clone, Copy, Debug, PartialEq, Eq)]
pub enum Verdict {
    /// `-`: the address may not send for the domain.
    Fail,
    /// `~`: the address probably may not.
    SoftFail,
    /// `+`, which need not be written: the address may.
    Pass,
    /// `?`: the domain says nothing.
    Neutral,
}
