//! What holds of all loading. The function does nothing: what it promises is the law.
ghost use Rattle.loading.specs.Loading.{OneLoading};

/// For the same contents the files of a job come to one thing at most.
pub fn one_loading()
    ensures { OneLoading }
{}
