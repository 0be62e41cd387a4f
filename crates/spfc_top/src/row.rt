//! One question to a list of listeners.
ghost use Rattle.std.specs.Prelude.{◌≡◌, IfOk, OnOk, OnErr, [], ◌∷◌, map};
ghost use Rattle.spfc_outer.specs.Auditors.{After, HasHeard, IsCut};

use spfc_outer::{Auditor, Keep};
use std::alloc::AllocError;
use zone_answers::Question;

/// Tells each listener the question, in order. One that says that it is done leaves the list and is dropped. Where one
/// has no memory, those behind it are not told.
pub(crate) fn tell_row(
    row: &mut Vec<Box<dyn Auditor>>,
    question: &Question,
) -> Result<(), AllocError>
    ensures told { OnOk result (After (question.now ∷ []) (map (λ b. hears b) row.old.items)
        (map (λ b. hears b) row.new.items)) }
    ensures cut { OnErr result (IsCut question.now (map (λ b. hears b) row.old.items)
        (map (λ b. hears b) row.new.items)) }
{
    let mut i = 0;
    while i < row.len() {
        match tell_one(&mut row[i], question)? {
            Keep::Go => i += 1,
            Keep::Done => {
                let _ = row.remove(i);
            }
        }
    }
    Ok(())
}

/// Tells one listener the question.
fn tell_one(listener: &mut Box<dyn Auditor>, question: &Question) -> Result<Keep, AllocError>
    ensures heard { IfOk result (HasHeard (hears listener.old) question.now (hears listener.new)) }
    ensures unheard { OnErr result (hears listener.new ≡ hears listener.old) }
{
    listener.tell(question)
}
