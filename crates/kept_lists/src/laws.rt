//! Laws over the definitions. The functions do nothing: their contracts say the law.
ghost use Rattle.kept_lists.specs.Laws.{KeptIsRead, OneKept, TextsTell};

/// A question has one text over some zones, and two zones answer it alike exactly where their texts are equal.
pub fn texts_tell()
    ensures { TextsTell }
{}

/// The lines of a file are one kept list at most; they are never one and none, and at most one line is named.
pub fn one_kept()
    ensures { OneKept }
{}

/// What is written is read back: the domain, the limits, the questions and the answers.
pub fn kept_is_read()
    ensures { KeptIsRead }
{}
