//! Runs `run` over files and sinks in memory.

use crate::rows::{COMPILE, File, ROWS, TWO_HALVES, Want};
use addr_bits::Bytes;
use spfc_outer::{Auditor, Calls, FileList, MemFiles, MemSink};
use spfc_top::run;
use std::alloc::{AllocError, Global};
use std::test::Fail;

/// The most bytes that a read takes, and the calls of the files and of each sink that fail.
#[derive(Clone, Copy)]
struct Outside<'a> {
    most: usize,
    reads: &'a [u64],
    writes: &'a [u64],
}

/// What a call of `run` left.
#[derive(Drop)]
struct Left {
    status: u8,
    out: MemSink,
    err: MemSink,
}

/// The bytes of a text.
pub(crate) fn bytes(alloc: Global, text: &str) -> Result<Bytes, AllocError> {
    let mut bytes = Bytes::new(alloc);
    bytes.extend_from_slice(text.as_bytes())?;
    Ok(bytes)
}

pub(crate) fn calls(alloc: Global, numbers: &[u64]) -> Result<Calls, AllocError> {
    let mut calls = Calls::new(alloc);
    calls.extend_from_slice(numbers)?;
    Ok(calls)
}

pub(crate) fn file_list(alloc: Global, files: &[File<'_>]) -> Result<FileList, AllocError> {
    let mut list = FileList::new(alloc);
    for (name, contents) in files {
        list.push((bytes(alloc, name)?, bytes(alloc, contents)?))?;
    }
    Ok(list)
}

/// The words of a command.
pub(crate) fn words_of(alloc: Global, text: &str) -> Result<Vec<String>, AllocError> {
    let mut words = Vec::new(alloc);
    for word in text.split_whitespace() {
        words.push(String::from_str(alloc, word)?)?;
    }
    Ok(words)
}

/// Runs the words over the files, without a listener. A write takes at most 10 bytes.
fn run_over(
    alloc: Global,
    words: &str,
    files: &[File<'_>],
    outside: &Outside<'_>,
) -> Result<Left, AllocError> {
    let mut auditors: Vec<Box<dyn Auditor>> = Vec::new(alloc);
    let words = words_of(alloc, words)?;
    let list = file_list(alloc, files)?;
    let mut files = MemFiles::new(list, outside.most.max(1), calls(alloc, outside.reads)?);
    let mut out = MemSink::new(alloc, 16_384, 10, calls(alloc, outside.writes)?)?;
    let mut err = MemSink::new(alloc, 16_384, 10, calls(alloc, outside.writes)?)?;
    let status = run(alloc, &words, &mut files, &mut out, &mut err, &mut auditors);
    Ok(Left { status, out, err })
}

/// Whether this is what is wanted.
fn is_wanted(left: &Left, want: &Want<'_>) -> bool {
    let out = left.out.bytes();
    let err = left.err.bytes();
    match want {
        Want::Output { begins, ends } => {
            left.status == 0
                && err.is_empty()
                && out.starts_with(begins.as_bytes())
                && out.ends_with(ends.as_bytes())
        }
        Want::Line { status, line } => left.status == *status
            && out.is_empty()
            && err == line.as_bytes(),
    }
}

// Also where the files come in pieces.
#[test]
fn rows(rt: HostRuntime) -> Result<(), Fail> {
    for most in [1, 7, 65_536] {
        let outside = Outside {
            most,
            reads: &[],
            writes: &[],
        };
        for row in &ROWS {
            let left = run_over(rt.alloc(), row.words, row.files, &outside)?;
            assert!(rt;
                is_wanted(&left, &row.want),
                "at {} in pieces of {most}",
                row.words
            );
        }
    }
    Ok(())
}

/// Words and files, the calls that fail, and the status and what the sinks hold.
struct Fault<'a> {
    words: &'a str,
    files: &'a [File<'a>],
    outside: Outside<'a>,
    status: u8,
    out: &'a str,
    err: &'a str,
}

const FAULTS: [Fault<'static>; 4] = [
    // The third call of the files.
    Fault {
        words: COMPILE,
        files: &[("z", TWO_HALVES)],
        outside: Outside {
            most: 16,
            reads: &[3],
            writes: &[],
        },
        status: 5,
        out: "",
        err: "read fault z\n",
    },
    // A call for the second file.
    Fault {
        words: "compile example.com example.com=z net=y",
        files: &[("z", TWO_HALVES), ("y", TWO_HALVES)],
        outside: Outside {
            most: 16,
            reads: &[10],
            writes: &[],
        },
        status: 5,
        out: "",
        err: "read fault y\n",
    },
    // The second write of the output.
    Fault {
        words: COMPILE,
        files: &[("z", TWO_HALVES)],
        outside: Outside {
            most: 16,
            reads: &[],
            writes: &[2],
        },
        status: 6,
        out: "$ORIGIN ex",
        err: "",
    },
    // A write of a line.
    Fault {
        words: "compile example.com example.com=x",
        files: &[("z", TWO_HALVES)],
        outside: Outside {
            most: 16,
            reads: &[],
            writes: &[1],
        },
        status: 6,
        out: "",
        err: "",
    },
];

#[test]
fn faults(rt: HostRuntime) -> Result<(), Fail> {
    for row in &FAULTS {
        let left = run_over(rt.alloc(), row.words, row.files, &row.outside)?;
        assert!(rt; left.status == row.status, "at {}", row.words);
        assert!(rt; left.out.bytes() == row.out.as_bytes(), "at {}", row.words);
        assert!(rt; left.err.bytes() == row.err.as_bytes(), "at {}", row.words);
    }
    Ok(())
}
