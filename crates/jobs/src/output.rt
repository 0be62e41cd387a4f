//! What a job gives.
use addr_bits::Bytes;
use zone_answers::Questions;

/// What a job gives.
#[derive(Debug, Drop)]
pub struct Output {
    /// What goes to standard output.
    pub bytes: Bytes,
    /// The questions that the job asked of the zones, in order; none where it tells of none.
    pub asked: Questions,
}
