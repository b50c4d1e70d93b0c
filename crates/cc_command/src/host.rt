use crate::command::command_one;
use crate::report::report_out_of_memory;
use crate::words::words_given;
use cc_world::{DirShelf, RealClock, StdSink, StdSource};
use std::env;
use std::process::ExitCode;
use std::rt::HostRuntime;

/// The whole program: the command that the command line asks for, over the system's files, streams and clock. It ends with the
/// status of the command, or with 9 where there was no memory for the words.
pub fn run_host(rt: HostRuntime) -> ExitCode {
    let alloc = rt.alloc();
    let mut err = StdSink::new(rt.stderr());
    let Ok(words) = words_given(alloc, env::args(&rt)) else {
        return ExitCode::from(report_out_of_memory(&mut err));
    };
    let mut shelf = DirShelf::new(&rt, alloc);
    let mut input = StdSource::new(rt.stdin());
    let finished = command_one(
        alloc,
        &words,
        &mut shelf,
        &mut input,
        StdSink::new(rt.stdout()),
        &mut err,
        RealClock::new(&rt),
    );
    ExitCode::from(finished.status)
}
