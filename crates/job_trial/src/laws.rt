//! A law of the job. The function does nothing: what it promises is the law.
ghost use Rattle.job_trial.specs.Meaning.{NeverRefused};

/// A trial is never refused: whatever was read, no refusal is due.
pub fn never_refused()
    ensures { NeverRefused }
{}
