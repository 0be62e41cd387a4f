//! Questions to a list of listeners.
ghost use Rattle.std.specs.Prelude.{OnOk, OnErr, map};
ghost use Rattle.spfc_outer.specs.Auditors.{BrokeOff};
ghost use Rattle.jobs.specs.Turn.{IsTold, hearing};

use crate::row::tell_row;
use spfc_outer::Auditor;
use std::alloc::AllocError;
use zone_answers::Question;

/// Tells each of the questions, in order, to each listener, in order. One that says that it is done leaves the list and
/// is dropped. Where one has no memory, the telling breaks off.
pub(crate) fn tell_all(
    row: &mut Vec<Box<dyn Auditor>>,
    asked: &[Question],
) -> Result<(), AllocError>
    ensures told { OnOk result (IsTold asked.now (hearing (λ b. hears b) row.old row.new)) }
    ensures broke { OnErr result (BrokeOff asked.now (map (λ b. hears b) row.old.items)
        (map (λ b. hears b) row.new.items)) }
{
    for question in asked {
        tell_row(row, question)?;
    }
    Ok(())
}
