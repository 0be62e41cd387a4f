//! Laws of published records: what their texts spell, where they stand, and what check_host gives over them. They speak
//! of no file, sink or job.
#![tactic(auto)]

mod laws;

pub use laws::{
    fragment_stands, records_are_chain, records_give, records_lead_on, records_spell,
    records_stand_alone, records_stand_patched,
};
