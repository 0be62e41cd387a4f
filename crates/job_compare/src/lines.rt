//! The lines of changes.
ghost use Rattle.std.specs.Prelude.{◌≡◌, ◌∷◌, ◌++◌, IfOk, OnOk, flat_map};
ghost use Rattle.job_compare.specs.Lines.{change_line, changes_text, count_text};
ghost use Rattle.spf_model.specs.Lines.{verdict_word};

use addr_bits::Bytes;
use itoa::Buffer;
use loading::{line, push_address, push_part};
use policy_compare::{Change, Count};
use spf_grammar::Verdict;
use spf_model::{Outcome, write_outcome};
use std::alloc::{AllocError, Global};

/// Appends the word of a verdict behind a space.
fn push_verdict(alloc: Global, bytes: &mut Bytes, verdict: Verdict) -> Result<(), AllocError>
    ensures { OnOk result (bytes.new ≡ bytes.old ++ 32 ∷ verdict_word verdict) }
{
    push_part(
        bytes,
        write_outcome(alloc, &Outcome::Is(verdict))?.as_slice(),
    )
}

/// Appends a count behind a space.
fn push_count(bytes: &mut Bytes, count: Count) -> Result<(), AllocError>
    ensures { OnOk result (bytes.new ≡ bytes.old ++ 32 ∷ count_text count) }
{
    match count {
        Count::All => push_part(bytes, b"all"),
        Count::Number(number) => push_part(bytes, Buffer::new().format(number).as_bytes()),
    }
}

/// Appends the line of a change.
fn push_change(alloc: Global, bytes: &mut Bytes, change: &Change) -> Result<(), AllocError>
    ensures { OnOk result (bytes.new ≡ bytes.old ++ change_line change.now) }
{
    bytes.extend_from_slice(b"differ")?;
    push_verdict(alloc, bytes, change.one)?;
    push_verdict(alloc, bytes, change.two)?;
    bytes.push(b' ')?;
    push_address(bytes, change.least)?;
    push_count(bytes, change.count)?;
    bytes.push(b'\n')
}

/// The lines of the changes.
fn change_lines(alloc: Global, changes: &[Change]) -> Result<Bytes, AllocError>
    ensures { IfOk result (λ bytes. bytes ≡ flat_map change_line changes.now) }
{
    let mut bytes = Bytes::new(alloc);
    for change in changes {
        push_change(alloc, &mut bytes, change)?;
    }
    Ok(bytes)
}

/// The text of the changes: a line for each, or `equal` where there is none.
#[tactic(auto, using(crate::proofs::Texts::text_of_none, crate::proofs::Texts::text_of_some))]
pub(crate) fn write_changes(alloc: Global, changes: &[Change]) -> Result<Bytes, AllocError>
    ensures { IfOk result (λ bytes. bytes ≡ changes_text changes.now) }
{
    if changes.is_empty() {
        return line(alloc, "equal", b"");
    }
    change_lines(alloc, changes)
}
