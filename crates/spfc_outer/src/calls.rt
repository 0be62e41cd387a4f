//! Counts calls, of which some are to fail.
ghost use Rattle.std.specs.Prelude.{◌≡◌, ◌↔◌, IsTrue};
ghost use Rattle.spfc_outer.specs.Calls.{FailsNext, one_more};

/// Counts one more call, and says whether it is one of those that fail.
pub(crate) fn count_call(fails: &[u64], calls: &mut u64) -> bool
    ensures counted { calls.new ≡ one_more calls.old }
    ensures fails { IsTrue result ↔ FailsNext fails.now calls.old }
{
    match calls.checked_add(1) {
        Some(number) => {
            *calls = number;
            fails.contains(&number)
        }
        None => false,
    }
}
