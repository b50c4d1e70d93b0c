use cc_base::{Bytes, Cells, Pid};
use cc_command::{Words, command_one};
use cc_rules::{Event, Journal, Word};
use cc_world::{MemShelf, MemSink, MemSource, Sink, StepClock};
use std::alloc::Global;
use std::process::Abort;
use std::rt::HostRuntime;

/// A command over objects in memory, and what it is to leave.
#[derive(Clone, Copy)]
struct Case {
    /// The words, of which FILE is `a`.
    words: &'static [&'static str],
    /// What the file `a` holds; none where there is no such file.
    text: Option<&'static str>,
    /// The calls that fail, from 1; 0 for none.
    shelf_fails: i64,
    out_fails: i64,
    err_fails: i64,
    /// The most bytes that a put takes.
    piece: usize,
    status: u8,
    printed: &'static str,
    reported: &'static str,
    /// The requests of the journal, all of them of `main`.
    asked: &'static [Word],
}

const RUN: &[&str] = &["run", "a"];

const HI: &str = "main() { putchar(72); putchar(105); }";

/// Runs HI over objects that never fail and take all bytes at once.
fn sound() -> Case {
    Case {
        words: RUN,
        text: Some(HI),
        shelf_fails: 0,
        out_fails: 0,
        err_fails: 0,
        piece: 64,
        status: 0,
        printed: "Hi",
        reported: "",
        asked: &[Word::Print, Word::Print, Word::Done],
    }
}

fn failing(rt: &impl Abort, alloc: Global, call: i64) -> Cells {
    let mut calls = Cells::new(alloc);
    assert!(rt; call == 0 || calls.push(call).is_ok());
    calls
}

fn words_of(rt: &impl Abort, alloc: Global, given: &[&str]) -> Words {
    let mut words = Words::new(alloc);
    for word in given {
        assert!(rt; words.push(word).is_ok());
    }
    words
}

fn asks(journal: &Journal, words: &[Word]) -> bool {
    if journal.len() != words.len() {
        return false;
    }
    for (at, word) in words.iter().enumerate() {
        let wanted = Event::Ask {
            pid: Pid(0),
            word: *word,
        };
        if journal.get(at) != Some(&wanted) {
            return false;
        }
    }
    true
}

fn check(rt: &impl Abort, alloc: Global, case: &Case) {
    let mut shelf = MemShelf::new(alloc, failing(rt, alloc, case.shelf_fails));
    if let Some(text) = case.text {
        let text = Bytes::from_slice(alloc, text.as_bytes()).expect(rt, "memory");
        assert!(rt; shelf.place("a", text).is_ok());
    }
    assert!(rt; case.piece >= 1);
    let out = MemSink::new(alloc, case.piece, failing(rt, alloc, case.out_fails));
    let mut err = MemSink::new(alloc, case.piece, failing(rt, alloc, case.err_fails));
    let mut input = MemSource::new(Bytes::new(alloc), 1, Cells::new(alloc));
    let words = words_of(rt, alloc, case.words);
    let clock = StepClock::new(0);
    let left = command_one(alloc, &words, &mut shelf, &mut input, out, &mut err, clock);
    assert_eq!(rt; left.status, case.status);
    assert!(rt; left.out.bytes().as_slice() == case.printed.as_bytes());
    assert!(rt; err.bytes().as_slice() == case.reported.as_bytes());
    assert!(rt; asks(&left.journal, case.asked));
}

#[test]
fn programs_run(rt: HostRuntime) {
    let empty = Case {
        text: Some("main() { }"),
        printed: "",
        asked: &[Word::Done],
        ..sound()
    };
    let by_single_bytes = Case {
        piece: 1,
        ..sound()
    };
    let hexadecimal = Case {
        text: Some("main() { putchar(0x48); /* i */ }"),
        printed: "H",
        asked: &[Word::Print, Word::Done],
        ..sound()
    };
    for case in &[sound(), empty, by_single_bytes, hexadecimal] {
        check(&rt, rt.alloc(), case);
    }
}

#[test]
fn refusals_are_reported(rt: HostRuntime) {
    let refused = Case {
        printed: "",
        asked: &[],
        ..sound()
    };
    let no_words = Case {
        words: &[],
        status: 1,
        reported: "usage: ccrun ACTION FILE [options]\n",
        ..refused
    };
    let other_action = Case {
        words: &["check", "a"],
        ..no_words
    };
    let too_many = Case {
        words: &["run", "a", "b"],
        ..no_words
    };
    let no_file = Case {
        text: None,
        status: 6,
        reported: "shelf\n",
        ..refused
    };
    for case in &[no_words, other_action, too_many, no_file] {
        check(&rt, rt.alloc(), case);
    }
}

/// Runs this text, which is refused with this report.
fn refused(text: &'static str, reported: &'static str) -> Case {
    Case {
        text: Some(text),
        status: 2,
        printed: "",
        reported,
        asked: &[],
        ..sound()
    }
}

#[test]
fn faults_of_texts_are_reported(rt: HostRuntime) {
    let by_single_bytes = Case {
        piece: 1,
        ..refused("main() {\n  @", "2:3: NoToken\n")
    };
    for case in &[
        refused("", "1:1: Unbuilt\n"),
        refused("main() { putchar(256); }", "1:1: Unbuilt\n"),
        refused("main() { putchar(72) }", "1:22: Syntax\n"),
        refused("main() { putchar(1x); } '", "1:18: BadNumber\n"),
        by_single_bytes,
    ] {
        check(&rt, rt.alloc(), case);
    }
}

#[test]
fn failures_are_told(rt: HostRuntime) {
    let shelf = Case {
        shelf_fails: 1,
        status: 6,
        printed: "",
        reported: "shelf\n",
        asked: &[],
        ..sound()
    };
    let first_put = Case {
        out_fails: 1,
        status: 8,
        printed: "",
        reported: "write\n",
        asked: &[Word::Print],
        ..sound()
    };
    let second_put = Case {
        out_fails: 2,
        piece: 1,
        printed: "H",
        asked: &[Word::Print, Word::Print],
        ..first_put
    };
    let unreported = Case {
        text: Some(""),
        err_fails: 1,
        status: 2,
        printed: "",
        asked: &[],
        ..sound()
    };
    let late_report = Case {
        err_fails: 3,
        reported: "1:",
        ..unreported
    };
    let err_unused = Case {
        err_fails: 1,
        ..sound()
    };
    for case in &[
        shelf,
        first_put,
        second_put,
        unreported,
        late_report,
        err_unused,
    ] {
        check(&rt, rt.alloc(), case);
    }
}

#[test]
fn a_file_is_read_once(rt: HostRuntime) {
    let second_call_fails = Case {
        shelf_fails: 2,
        ..sound()
    };
    check(&rt, rt.alloc(), &second_call_fails);
}

#[test]
fn an_earlier_failure_is_no_cause(rt: HostRuntime) {
    let alloc = rt.alloc();
    let mut out = MemSink::new(alloc, 64, failing(&rt, alloc, 1));
    assert!(rt; out.put(b"x").is_err());
    assert!(rt; out.put(b"x").is_ok());
    let mut shelf = MemShelf::new(alloc, Cells::new(alloc));
    let text = Bytes::from_slice(alloc, HI.as_bytes()).expect(&rt, "memory");
    assert!(rt; shelf.place("a", text).is_ok());
    let mut err = MemSink::new(alloc, 64, Cells::new(alloc));
    let mut input = MemSource::new(Bytes::new(alloc), 1, Cells::new(alloc));
    let words = words_of(&rt, alloc, RUN);
    let left = command_one(
        alloc,
        &words,
        &mut shelf,
        &mut input,
        out,
        &mut err,
        StepClock::new(0),
    );
    assert_eq!(rt; left.status, 0);
    assert!(rt; left.out.bytes().as_slice() == b"xHi".as_slice());
}
