//! Listeners, alone and in the list that `run` is handed.

use crate::runs::{calls, file_list, words_of};
use dns_name::Name;
use spfc_outer::{Auditor, Keep, KeepAuditor, LineAuditor, MemFiles, MemSink, Sink, TightAuditor};
use spfc_top::run;
use std::alloc::{AllocError, Global};
use std::test::Fail;
use zone_answers::{AskKind, Question};

/// A policy that asks five questions: for the record, and for each host in each family.
const TWO_HOSTS: &str = "@ IN TXT \"v=spf1 a:h1.example.com a:h2.example.com -all\"\n\
    h1 A 192.0.2.1\nh1 AAAA 2001:db8::1\nh2 A 192.0.2.2\nh2 AAAA 2001:db8::2\n";

/// What a call of `run` left of the sinks.
#[derive(Drop)]
struct Left {
    status: u8,
    out: MemSink,
    err: MemSink,
}

/// Runs the words over the policy of two hosts.
fn run_told(
    alloc: Global,
    words: &str,
    auditors: &mut Vec<Box<dyn Auditor>>,
) -> Result<Left, AllocError> {
    let words = words_of(alloc, words)?;
    let list = file_list(alloc, &[("z", TWO_HOSTS)])?;
    let mut files = MemFiles::new(list, 65_536, calls(alloc, &[])?);
    let mut out = MemSink::new(alloc, 16_384, 16_384, calls(alloc, &[])?)?;
    let mut err = MemSink::new(alloc, 16_384, 16_384, calls(alloc, &[])?)?;
    let status = run(alloc, &words, &mut files, &mut out, &mut err, auditors);
    Ok(Left { status, out, err })
}

/// The words of a job, and how many of the two listeners stay.
const STAYING: [(&str, usize); 4] = [
    ("compile example.com --trace example.com=z", 1),
    ("compile example.com example.com=z", 2),
    ("deps example.com example.com=z", 2),
    ("check example.com ::1 example.com=z", 2),
];

// A listener that is done at two questions leaves where questions are told; one without a limit stays.
#[test]
fn a_listener_that_is_done_leaves(rt: HostRuntime) -> Result<(), Fail> {
    let alloc = rt.alloc();
    for (words, staying) in &STAYING {
        let mut auditors: Vec<Box<dyn Auditor>> = Vec::new(alloc);
        auditors.push(Box::new(alloc, KeepAuditor::new(alloc, Some(2)))?)?;
        auditors.push(Box::new(alloc, KeepAuditor::new(alloc, None))?)?;
        let left = run_told(alloc, words, &mut auditors)?;
        assert!(rt; left.status == 0, "at {words}");
        assert!(rt; !left.out.bytes().is_empty(), "at {words}");
        assert!(rt; auditors.len() == *staying, "at {words}");
    }
    Ok(())
}

// One without memory for its third question: nothing is written, and all stay.
#[test]
fn a_listener_without_memory_stops_the_run(rt: HostRuntime) -> Result<(), Fail> {
    let alloc = rt.alloc();
    let mut auditors: Vec<Box<dyn Auditor>> = Vec::new(alloc);
    auditors.push(Box::new(alloc, KeepAuditor::new(alloc, None))?)?;
    auditors.push(Box::new(alloc, TightAuditor::new(alloc, None, 2))?)?;
    auditors.push(Box::new(alloc, KeepAuditor::new(alloc, None))?)?;
    let left = run_told(
        alloc,
        "compile example.com --trace example.com=z",
        &mut auditors,
    )?;
    assert!(rt; left.status == 7);
    assert!(rt; auditors.len() == 3);
    assert!(rt; left.out.bytes().is_empty());
    assert!(rt; left.err.bytes().is_empty());
    Ok(())
}

// One whose sink has no room for a second line leaves.
#[test]
fn a_listener_that_cannot_write_leaves(rt: HostRuntime) -> Result<(), Fail> {
    let alloc = rt.alloc();
    for (room, staying) in [(30, 0), (16_384, 1)] {
        let sink = MemSink::new(alloc, room, 16_384, calls(alloc, &[])?)?;
        let mut auditors: Vec<Box<dyn Auditor>> = Vec::new(alloc);
        auditors.push(Box::new(alloc, LineAuditor::new(sink))?)?;
        let left = run_told(
            alloc,
            "compile example.com --trace example.com=z",
            &mut auditors,
        )?;
        assert!(rt; left.status == 0);
        assert!(rt; auditors.len() == staying);
    }
    Ok(())
}

/// What a listener is asked to take.
fn question(name: &[u8], kind: AskKind) -> Result<Question, Fail> {
    Ok(Question {
        name: Name::from_text(name)?,
        kind,
    })
}

#[test]
fn what_was_heard_is_told(rt: HostRuntime) -> Result<(), Fail> {
    let mut auditor = KeepAuditor::new(rt.alloc(), Some(2));
    assert!(rt; auditor.tell(&question(b"a.example", AskKind::Mx)?)? == Keep::Go);
    assert!(rt; auditor.tell(&question(b"b.example", AskKind::Txt)?)? == Keep::Done);
    assert!(rt; auditor.tell(&question(b"c.example", AskKind::A)?)? == Keep::Go);
    let heard = auditor.heard();
    assert!(rt; heard.len() == 3);
    let first = &heard.as_slice()[0];
    assert!(rt; first.name == Name::from_text(b"a.example")?);
    assert!(rt; first.kind == AskKind::Mx);
    Ok(())
}
