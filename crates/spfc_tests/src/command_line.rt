//! Words, by calls that the program does not make.

use crate::runs::words_of;
use spfc_top::{AnyJob, read_words};
use spfc_words::{FlagRow, Row, read_flag};
use std::test::Fail;

#[test]
fn words_are_read(rt: HostRuntime) -> Result<(), Fail> {
    let words = words_of(rt.alloc(), "check example.com ::1 example.com=z")?;
    assert!(rt; matches!(read_words(rt.alloc(), &words)?, Some(AnyJob::Check(_))));
    let words = words_of(rt.alloc(), "compile example.com example.com=z")?;
    assert!(rt; matches!(read_words(rt.alloc(), &words)?, Some(AnyJob::Compile(_))));
    let words = words_of(rt.alloc(), "deps example.com example.com=z")?;
    assert!(rt; matches!(read_words(rt.alloc(), &words)?, Some(AnyJob::Deps(_))));
    let words = words_of(rt.alloc(), "compile example.com")?;
    assert!(rt; read_words(rt.alloc(), &words)?.is_none());
    Ok(())
}

const TRACE: FlagRow = FlagRow { name: "--trace" };

// Words, and whether the flag is among the options in front.
const FLAGS: [(&str, Option<bool>); 4] = [
    ("--trace z", Some(true)),
    ("z --trace", Some(false)),
    ("", Some(false)),
    ("--trace --trace z", None),
];

#[test]
fn a_flag_is_read(rt: HostRuntime) -> Result<(), Fail> {
    for (text, want) in &FLAGS {
        let words = words_of(rt.alloc(), text)?;
        assert!(rt;
            read_flag(&[Row::Flag(TRACE)], &words, &TRACE) == *want,
            "at {text}"
        );
    }
    Ok(())
}
