//! Compiles the SPF policies of DNS master files. The job is given by the words of the command line.
#![tactic(auto)]

use spfc_outer::{Auditor, HostFiles, HostSink, LineAuditor};
use spfc_top::run;
use std::alloc::{AllocError, Global};
use std::process::ExitCode;
use std::{env, io};

/// The status where there is no memory for the words.
const NO_MEMORY: u8 = 7;

/// The status where the host refuses the words for another cause.
const NO_WORDS: u8 = 9;

fn main(rt: HostRuntime) -> ExitCode {
    ExitCode::from(status(rt))
}

// The status of the top call, or why it was not made.
fn status(rt: HostRuntime) -> u8 {
    match env::args(&rt) {
        Ok(args) => match words_of(rt.alloc(), args) {
            Ok(words) => run_words(rt, &words),
            Err(AllocError) => NO_MEMORY,
        },
        Err(error) if error.kind() == io::ErrorKind::OutOfMemory => NO_MEMORY,
        Err(_) => NO_WORDS,
    }
}

// The status of the top call, to which one listener is handed, which writes to standard error.
fn run_words(rt: HostRuntime, words: &[String]) -> u8 {
    let alloc = rt.alloc();
    let mut auditors: Vec<Box<dyn Auditor>> = Vec::new(alloc);
    let Ok(auditor) = Box::new(alloc, LineAuditor::new(HostSink::error(rt))) else {
        return NO_MEMORY;
    };
    if auditors.push(auditor).is_err() {
        return NO_MEMORY;
    }
    let mut files = HostFiles::new(rt);
    let mut out = HostSink::output(rt);
    let mut err = HostSink::error(rt);
    run(alloc, words, &mut files, &mut out, &mut err, &mut auditors)
}

// The arguments after the program's name.
fn words_of(alloc: Global, args: env::Args) -> Result<Vec<String>, AllocError> {
    let mut words = Vec::new(alloc);
    for word in args.skip(1) {
        words.push(word)?;
    }
    Ok(words)
}
