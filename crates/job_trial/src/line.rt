//! The line of a trial.
ghost use Rattle.std.specs.Prelude.{◌≡◌, ◌++◌, decimal, IfOk, OnOk};
ghost use Rattle.job_trial.specs.Line.{count_text, trial_line};

use addr_bits::Bytes;
use itoa::Buffer;
use policy_trial::Summary;
use std::alloc::{AllocError, Global};

/// Appends some words and a number.
fn push_number(line: &mut Bytes, words: &str, number: u64) -> Result<(), AllocError>
    ensures { OnOk result (line.new ≡ line.old ++ words.now ++ decimal number) }
{
    line.extend_from_slice(words.as_bytes())?;
    line.extend_from_slice(Buffer::new().format(number).as_bytes())
}

/// Appends how many records the list takes, or `none`.
fn push_count(line: &mut Bytes, count: Option<u64>) -> Result<(), AllocError>
    ensures { OnOk result (line.new ≡ line.old ++ count_text count) }
{
    match count {
        Some(count) => push_number(line, " records ", count),
        None => line.extend_from_slice(b" records none"),
    }
}

/// The line of a trial.
pub(crate) fn write_line(
    alloc: Global,
    start: u64,
    networks: u32,
    summary: &Summary,
) -> Result<Bytes, AllocError>
    ensures { IfOk result (λ line. line ≡ trial_line start networks summary.now) }
{
    let mut line = Bytes::new(alloc);
    push_number(&mut line, "trial ", start)?;
    push_number(&mut line, " ", u64::from(networks))?;
    push_number(&mut line, " fewest ", summary.fewest)?;
    push_number(&mut line, " rows ", summary.rows)?;
    push_count(&mut line, summary.records)?;
    line.push(b'\n')?;
    Ok(line)
}
