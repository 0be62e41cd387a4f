//! The top call.
ghost use Rattle.std.specs.Prelude.{◌≡◌, ◌≤◌};
ghost use Rattle.jobs.specs.Turn.{Ended, turn, step, hearing, IsFindingStatus, HasDone, HasBest, HasFound};
ghost use Rattle.jobs.specs.Turn.{HasUsage, HasReadFault, HasWriteFault, HasNone, IsComplete, IsAssured};
ghost use Rattle.spfc_top.specs.AnyJob.{jobs};

use crate::AnyJob;
use crate::telling::tell_all;
use jobs::{Answer, answer_words};
use spfc_outer::{Auditor, Failed, Files, Sink, write_whole};
use std::alloc::{AllocError, Global};

/// Does the job that the words give, and answers the status. Behind all computing and before the first byte is written,
/// each listener is told each question of the job's output; one that says that it is done leaves the list and is
/// dropped.
///
/// | Status | What happened | What was written |
/// |---|---|---|
/// | 0 | the job is done | its output, to `out` |
/// | 1, 2, 3 | the job is refused | the refusal's line, to `err` |
/// | 4 | the words give no job | the line `usage`, to `err` |
/// | 5 | a call of the files failed | the line `read fault FILE`, to `err` |
/// | 6 | a write failed | a first part of what was due, to `out` or `err` |
/// | 7 | there was no memory, perhaps for a listener | nothing |
/// | 8 | a file is not accepted by `verify` | the line `no ..`, to `err` |
pub fn run<F: Files, K: Sink, E: Sink>(
    alloc: Global,
    words: &[String],
    files: &mut F,
    out: &mut K,
    err: &mut E,
    auditors: &mut Vec<Box<dyn Auditor>>,
) -> u8
    ensures range { result ≤ 8 }

    // 0: the words give a job, each listener was told its questions, in order, and left or stayed, and `out` gained its
    // output. Where the job has no question to tell, as without `--trace`, the listeners are as they were.
    ensures done { result ≡ 0 → HasDone jobs (turn words.now
        (step F.seen files.old files.new) (step K.seen out.old out.new) (step E.seen err.old err.new)
        (hearing (λ b. hears b) auditors.old auditors.new)) }

    // That output is the best that the job can have: of `compile`, a shortest list with the verdicts of check_host, in
    // records that fit, of which no cut that fits has fewer, and whose names are free. The bytes are read as these
    // records, over which alone, and over the zones with them in place, check_host gives each address the same verdict,
    // by at most 10 lookups and no void lookup. Of `verify`, the numbers of terms and of records of a file that is read
    // as a chain of records: these fit, and of their list no cut that fits at their names has fewer; over them alone
    // check_host gives each address the verdict that it has over the zones, and no list that does has fewer terms.
    // Of `deps`, the questions that check_host asks for some address: over all other zones that answer them alike,
    // every address has the same outcome. Of `compare`, the changes from the verdicts of the first policy to those of
    // the second: `equal` exactly where these are the same for each address. Of `join`, a shortest list, in such
    // records at the first domain, of the strongest of the verdicts that check_host gives each address for the domains,
    // or of the weakest. Of `keep`, the kept list of the domain, which is read back with its domain, its limits and its
    // lines: over all other zones that agree with each line, every address has the same outcome. Of `stale`, whether
    // each line of the kept list agrees with the zones, or the question of the first that does not: where the file is
    // what was kept of a domain over some other zones, and is fresh, every address has the outcome that it has over
    // these.
    ensures best { result ≡ 0 → HasBest jobs (turn words.now
        (step F.seen files.old files.new) (step K.seen out.old out.new) (step E.seen err.old err.new)
        (hearing (λ b. hears b) auditors.old auditors.new)) }

    // 1, 2, 3 and 8: the words give a job, it is refused so, and `err` gained the line. At these statuses, at 4 and at
    // 5 the listeners are as they were.
    ensures finding { IsFindingStatus result → HasFound jobs (turn words.now
        (step F.seen files.old files.new) (step K.seen out.old out.new) (step E.seen err.old err.new)
        (hearing (λ b. hears b) auditors.old auditors.new)) result }

    // 4: the words give no job.
    ensures usage { result ≡ 4 → HasUsage jobs (turn words.now
        (step F.seen files.old files.new) (step K.seen out.old out.new) (step E.seen err.old err.new)
        (hearing (λ b. hears b) auditors.old auditors.new)) }

    // 5: the files' count rose, nothing before the file of the last fault is refused, and the line names that file.
    ensures read_fault { result ≡ 5 → HasReadFault jobs (turn words.now
        (step F.seen files.old files.new) (step K.seen out.old out.new) (step E.seen err.old err.new)
        (hearing (λ b. hears b) auditors.old auditors.new)) }

    // 6: the count of `out` or of `err` rose, that one gained a proper prefix of what was due; the other is untouched.
    // In the first case the listeners were told the questions, in the second they are as they were.
    ensures write_fault { result ≡ 6 → HasWriteFault jobs (turn words.now
        (step F.seen files.old files.new) (step K.seen out.old out.new) (step E.seen err.old err.new)
        (hearing (λ b. hears b) auditors.old auditors.new)) }

    // 7: nothing was written. The listeners are as they were; or at some question of the job's output the telling broke
    // off: those in front of some place were told it, and the others the questions before it, and left or stayed.
    ensures memory { result ≡ 7 → HasNone jobs (turn words.now
        (step F.seen files.old files.new) (step K.seen out.old out.new) (step E.seen err.old err.new)
        (hearing (λ b. hears b) auditors.old auditors.new)) }

    // Where no count rose, the status is that of what is due, or memory ran out.
    ensures complete { IsComplete jobs (turn words.now
        (step F.seen files.old files.new) (step K.seen out.old out.new) (step E.seen err.old err.new)
        (hearing (λ b. hears b) auditors.old auditors.new)) result }

    // So too where no call of the files fails, and the sinks have room for all that is due.
    ensures assured { IsAssured jobs (turn words.now
        (step F.seen files.old files.new) (step K.seen out.old out.new) (step E.seen err.old err.new)
        (hearing (λ b. hears b) auditors.old auditors.new)) result }
{
    end(alloc, words, files, out, err, auditors)
}

/// All that the top call promises, as one fact by cases: what is due is computed first, then the
/// listeners are told its questions, and then it is written.
fn end<F: Files, K: Sink, E: Sink>(
    alloc: Global,
    words: &[String],
    files: &mut F,
    out: &mut K,
    err: &mut E,
    auditors: &mut Vec<Box<dyn Auditor>>,
) -> u8
    ensures { Ended jobs (turn words.now
        (step F.seen files.old files.new) (step K.seen out.old out.new) (step E.seen err.old err.new)
        (hearing (λ b. hears b) auditors.old auditors.new)) result }
{
    match answer_words::<AnyJob, F>(alloc, words, files) {
        Ok(Answer::Writes(output)) => match tell_all(auditors, output.asked.as_slice()) {
            Ok(()) => match write_whole(out, output.bytes.as_slice()) {
                Ok(()) => 0,
                Err(Failed) => 6,
            },
            Err(AllocError) => 7,
        },
        Ok(Answer::Says { status, line }) => match write_whole(err, line.as_slice()) {
            Ok(()) => status,
            Err(Failed) => 6,
        },
        Err(AllocError) => 7,
    }
}
