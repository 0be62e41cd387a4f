//! A job.
ghost use Rattle.std.specs.Prelude.{◌≡◌, List, ℕ};
ghost use Rattle.spfc_words.specs.Words.{texts};
ghost use Rattle.jobs.specs.Meaning.{Meaning, IsLawful, Answers, Reads};

use crate::Output;
use loading::{Loaded, OrMemory, Refusal};
use spfc_words::Input;
use std::alloc::{AllocError, Global};

/// What the program can be asked to do.
pub trait Job: Drop {
    /// Which words spell the job.
    ghost spells: { List (List ℕ) → Self → Type 0 };

    /// What the job means: what it reads, what is due for what was read, and what is best.
    ghost meaning: { Self → Meaning };

    /// The job that the words spell; `None` exactly where they spell none.
    fn read(alloc: Global, words: &[String]) -> Result<Option<Self>, AllocError>
        ensures { Reads spells (texts words.now) result };

    /// The files that the job reads, in order.
    fn inputs(&self) -> &[Input]
        ensures { result.now ≡ (meaning self.now).inputs };

    /// Does the job over what was read.
    fn perform(&self, alloc: Global, loaded: &Loaded) -> Result<Output, OrMemory<Refusal>>
        requires { (meaning self.now).IsReady }
        ensures { Answers (meaning self.now) loaded.now result };

    /// The words of a job make it ready.
    ghost ready: { (words : List (List ℕ)) (job : Self) → spells words job → (meaning job).IsReady };

    /// Words spell one job at most.
    ghost one_spelled: { (words : List (List ℕ)) (a b : Self) → spells words a → spells words b → a ≡ b };

    /// For what was read one thing is due at most, and an output that is due is the best.
    ghost lawful: { (job : Self) → IsLawful (meaning job) };
}
