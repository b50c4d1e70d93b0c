use cc_base::{CallId, Memory, Pid};
use cc_rules::{Event, Journal, Word};
use cc_trace::{TraceError, read_journal, write_journal};
use std::alloc::Global;
use std::rt::HostRuntime;
use std::test::*;

/// Each kind of line and each name of a request, with each number at its bound.
const GOOD: [(&str, Event); 29] = [
    (
        "ask 0 pause\n",
        Event::Ask {
            pid: Pid(0),
            word: Word::Pause,
        },
    ),
    (
        "ask 0 create\n",
        Event::Ask {
            pid: Pid(0),
            word: Word::Create,
        },
    ),
    (
        "ask 0 call\n",
        Event::Ask {
            pid: Pid(0),
            word: Word::Call,
        },
    ),
    (
        "ask 0 timedcall\n",
        Event::Ask {
            pid: Pid(0),
            word: Word::TimedCall,
        },
    ),
    (
        "ask 0 send\n",
        Event::Ask {
            pid: Pid(0),
            word: Word::Send,
        },
    ),
    (
        "ask 0 select\n",
        Event::Ask {
            pid: Pid(0),
            word: Word::Select,
        },
    ),
    (
        "ask 0 delay\n",
        Event::Ask {
            pid: Pid(0),
            word: Word::Delay,
        },
    ),
    (
        "ask 0 reply\n",
        Event::Ask {
            pid: Pid(0),
            word: Word::Reply,
        },
    ),
    (
        "ask 0 print\n",
        Event::Ask {
            pid: Pid(0),
            word: Word::Print,
        },
    ),
    (
        "ask 0 get\n",
        Event::Ask {
            pid: Pid(0),
            word: Word::Get,
        },
    ),
    (
        "ask 0 done\n",
        Event::Ask {
            pid: Pid(0),
            word: Word::Done,
        },
    ),
    (
        "ask 0 fault\n",
        Event::Ask {
            pid: Pid(0),
            word: Word::Fault,
        },
    ),
    (
        "ask 4294967295 print\n",
        Event::Ask {
            pid: Pid(4_294_967_295),
            word: Word::Print,
        },
    ),
    (
        "ask 10 call\n",
        Event::Ask {
            pid: Pid(10),
            word: Word::Call,
        },
    ),
    (
        "accept 0 0 0\n",
        Event::Accept {
            pid: Pid(0),
            alt: 0,
            call: CallId(0),
        },
    ),
    (
        "accept 10 200 3000\n",
        Event::Accept {
            pid: Pid(10),
            alt: 200,
            call: CallId(3000),
        },
    ),
    (
        "accept 4294967295 1 2\n",
        Event::Accept {
            pid: Pid(4_294_967_295),
            alt: 1,
            call: CallId(2),
        },
    ),
    (
        "accept 1 4294967295 2\n",
        Event::Accept {
            pid: Pid(1),
            alt: 4_294_967_295,
            call: CallId(2),
        },
    ),
    (
        "accept 1 2 4294967295\n",
        Event::Accept {
            pid: Pid(1),
            alt: 2,
            call: CallId(4_294_967_295),
        },
    ),
    (
        "instant 1 2\n",
        Event::Instant {
            pid: Pid(1),
            alt: 2,
        },
    ),
    (
        "instant 4294967295 4294967295\n",
        Event::Instant {
            pid: Pid(4_294_967_295),
            alt: 4_294_967_295,
        },
    ),
    (
        "expire 1 2\n",
        Event::Expire {
            pid: Pid(1),
            alt: 2,
        },
    ),
    (
        "expire 4294967295 4294967295\n",
        Event::Expire {
            pid: Pid(4_294_967_295),
            alt: 4_294_967_295,
        },
    ),
    ("withdraw 0\n", Event::Withdraw { call: CallId(0) }),
    (
        "withdraw 4294967295\n",
        Event::Withdraw {
            call: CallId(4_294_967_295),
        },
    ),
    ("time 0\n", Event::Time { moment: 0 }),
    (
        "time 4294967296\n",
        Event::Time {
            moment: 4_294_967_296,
        },
    ),
    (
        "time 18446744073709551615\n",
        Event::Time {
            moment: 18_446_744_073_709_551_615,
        },
    ),
    ("end\n", Event::End),
];

/// Texts, and which of their lines is the first that is no event's.
const BAD: [(&str, u64); 81] = [
    ("\n", 1),
    ("\nend\n", 1),
    ("end\n\nend\n", 2),
    ("end\n\n", 2),
    ("end", 1),
    ("end\nend", 2),
    ("ask 0 print", 1),
    ("time 1\nask 0 print", 2),
    ("time 1", 1),
    ("time 1\ntime 2\ntime 3", 3),
    ("ask 4294967296 print\n", 1),
    ("accept 4294967296 0 0\n", 1),
    ("accept 0 4294967296 0\n", 1),
    ("accept 0 0 4294967296\n", 1),
    ("instant 4294967296 0\n", 1),
    ("instant 0 4294967296\n", 1),
    ("expire 4294967296 0\n", 1),
    ("expire 0 4294967296\n", 1),
    ("withdraw 4294967296\n", 1),
    ("time 18446744073709551616\n", 1),
    ("time 99999999999999999999999999\n", 1),
    ("ask 10000000000000000000000 done\n", 1),
    ("ask 00 done\n", 1),
    ("ask 01 done\n", 1),
    ("accept 0 0 00\n", 1),
    ("accept 0 01 0\n", 1),
    ("instant 0 01\n", 1),
    ("expire 00 1\n", 1),
    ("withdraw 01\n", 1),
    ("time 007\n", 1),
    ("ask  0 print\n", 1),
    ("ask 0  print\n", 1),
    (" ask 0 print\n", 1),
    ("ask 0 print \n", 1),
    ("accept 1  2 3\n", 1),
    ("time 1 \n", 1),
    ("end \n", 1),
    (" end\n", 1),
    ("end\n \n", 2),
    ("end\n end\n", 2),
    ("ask\t0 print\n", 1),
    ("ask 0\tprint\n", 1),
    ("end\r\n", 1),
    ("ask 0 print\r\n", 1),
    ("time 1\r\n", 1),
    ("end\r", 1),
    ("end\n\r\n", 2),
    ("Ask 0 print\n", 1),
    ("ask 0 Print\n", 1),
    ("END\n", 1),
    ("ask 0 timedCall\n", 1),
    ("ask 0 print\u{e9}\n", 1),
    ("\u{e9}nd\n", 1),
    ("time \u{661}\n", 1),
    ("end\0\n", 1),
    ("ask +1 print\n", 1),
    ("ask -1 print\n", 1),
    ("time +1\n", 1),
    ("time -1\n", 1),
    ("time 0x1\n", 1),
    ("time 1e3\n", 1),
    ("time 1.0\n", 1),
    ("time 1_000\n", 1),
    ("ask 0\n", 1),
    ("ask print\n", 1),
    ("ask 0 print 1\n", 1),
    ("accept 0 0\n", 1),
    ("accept 0 0 0 0\n", 1),
    ("instant 0\n", 1),
    ("withdraw\n", 1),
    ("withdraw \n", 1),
    ("time\n", 1),
    ("end 1\n", 1),
    ("ask 0 prints\n", 1),
    ("ask 0 prin\n", 1),
    ("asks 0 print\n", 1),
    ("as 0 print\n", 1),
    ("0 print\n", 1),
    ("print\n", 1),
    ("ask 0 print\nask 00 done\n", 2),
    ("end\nend\nend\nbad\nworse\n", 4),
];

/// The number of the first bad line, or that there is none.
fn first_bad_line(alloc: Global, text: &str) -> Result<Option<u64>, Memory> {
    match read_journal(alloc, text.as_bytes()) {
        Ok(_journal) => Ok(None),
        Err(TraceError::BadLine(line)) => Ok(Some(line)),
        Err(TraceError::Memory) => Err(Memory),
    }
}

#[test]
fn each_line_is_read_and_written(rt: HostRuntime) -> Result<(), Fail> {
    let alloc = rt.alloc();
    for (text, event) in GOOD {
        let journal = read_journal(alloc, text.as_bytes())
            .ok()
            .ok_or("it is a line")?;
        assert_eq!(rt; journal.len(), 1, "at {text}");
        assert!(rt;
            matches!(journal.get(0), Some(found) if *found == event),
            "at {text}"
        );
        let written = write_journal(alloc, &journal)
            .ok()
            .ok_or("there is memory")?;
        assert!(rt; written.as_slice() == text.as_bytes(), "at {text}");
    }
    Ok(())
}

#[test]
fn the_first_bad_line_is_told(rt: HostRuntime) -> Result<(), Fail> {
    let alloc = rt.alloc();
    for (text, line) in BAD {
        let found = first_bad_line(alloc, text).ok().ok_or("there is memory")?;
        assert_eq!(rt; found, Some(line), "at {text}");
    }
    Ok(())
}

/// The journal of a program that prints two bytes.
fn two_prints(alloc: Global) -> Result<Journal, Memory> {
    let mut journal = Journal::new(alloc);
    for word in [Word::Print, Word::Print, Word::Done] {
        journal.push(Event::Ask { pid: Pid(0), word })?;
    }
    Ok(journal)
}

#[test]
fn a_journal_is_written_and_read(rt: HostRuntime) -> Result<(), Fail> {
    let alloc = rt.alloc();
    let journal = two_prints(alloc).ok().ok_or("there is memory")?;
    let text = write_journal(alloc, &journal)
        .ok()
        .ok_or("there is memory")?;
    assert_eq!(rt; text.len(), 35);
    assert!(rt; text.as_slice() == b"ask 0 print\nask 0 print\nask 0 done\n".as_slice());
    let again = read_journal(alloc, text.as_slice())
        .ok()
        .ok_or("it is a journal")?;
    assert_eq!(rt; again.len(), 3);
    for at in 0..3 {
        let events = (journal.get(at), again.get(at));
        assert!(rt;
            matches!(events, (Some(was), Some(is)) if *was == *is),
            "at {at}"
        );
    }
    Ok(())
}

#[test]
fn the_empty_text_is_the_empty_journal(rt: HostRuntime) -> Result<(), Fail> {
    let alloc = rt.alloc();
    let journal = read_journal(alloc, b"").ok().ok_or("it is a journal")?;
    assert_eq!(rt; journal.len(), 0);
    let text = write_journal(alloc, &journal)
        .ok()
        .ok_or("there is memory")?;
    assert_eq!(rt; text.len(), 0);
    Ok(())
}
