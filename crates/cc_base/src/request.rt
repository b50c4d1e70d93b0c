use crate::alternatives::Alts;
use crate::cells::{Bytes, Cells};
use crate::names::{FaultKind, Pid};

/// What a process asks of the machine. It then waits for a [`Grant`] that answers.
#[derive(Debug, Drop)]
pub enum Request {
    /// It has spent its ticks and offers to go on later.
    Pause,
    /// A new process of this kind.
    Create {
        kind: u32,
        args: Cells,
    },
    /// A synchronous transaction call: it waits until the call is accepted and answered.
    Call {
        target: Pid,
        trans: u32,
        args: Cells,
    },
    /// A synchronous call that is withdrawn after `wait` milliseconds where it was not accepted by then.
    TimedCall {
        target: Pid,
        trans: u32,
        args: Cells,
        wait: i64,
    },
    /// An asynchronous call: it goes on at once.
    Send {
        target: Pid,
        trans: u32,
        args: Cells,
    },
    /// It waits for one of these alternatives.
    Select {
        alts: Alts,
    },
    /// It waits for this many milliseconds.
    Delay {
        wait: i64,
    },
    /// It answers the innermost call that it serves.
    Reply {
        value: Cells,
    },
    /// It prints these bytes.
    Print {
        bytes: Bytes,
    },
    /// It takes the next byte of the input.
    Get,
    /// It has come to its end.
    Done,
    /// It is stopped by a fault.
    Fault {
        kind: FaultKind,
    },
}

/// What the machine grants to a process, as the answer to its [`Request`].
#[derive(Debug, Drop)]
pub enum Grant {
    /// It goes on: the answer at its start, and to Pause, Send, Delay, Reply and Print.
    Go,
    /// The process that was made.
    Made(Pid),
    /// The value of the call.
    Value(Cells),
    /// The timed call was withdrawn.
    Late,
    /// The called process is gone.
    Gone,
    /// This alternative took a call with these arguments.
    Took { alt: u32, args: Cells },
    /// This delay or immediate alternative was chosen.
    Chose { alt: u32 },
    /// The next byte of the input, or none at its end.
    Byte(Option<u8>),
}
