ghost use Rattle.std.specs.Prelude.{◌≡◌};
ghost use Rattle.cc_rules.specs.Events.{word_of};

use cc_base::{CallId, Pid, Request};

/// The kind of a request, as the journal names it.
#[derive(Clone, Copy, Debug, Drop, PartialEq, Eq)]
pub enum Word {
    Pause,
    Create,
    Call,
    TimedCall,
    Send,
    Select,
    Delay,
    Reply,
    Print,
    Get,
    Done,
    Fault,
}

impl Word {
    /// The word that names the request.
    pub fn of(request: &Request) -> Word
        ensures word { result ≡ word_of request.now }
    {
        match request {
            Request::Pause => Word::Pause,
            Request::Create { .. } => Word::Create,
            Request::Call { .. } => Word::Call,
            Request::TimedCall { .. } => Word::TimedCall,
            Request::Send { .. } => Word::Send,
            Request::Select { .. } => Word::Select,
            Request::Delay { .. } => Word::Delay,
            Request::Reply { .. } => Word::Reply,
            Request::Print { .. } => Word::Print,
            Request::Get => Word::Get,
            Request::Done => Word::Done,
            Request::Fault { .. } => Word::Fault,
        }
    }
}

/// An event of the machine. A run is a list of events, each legal in its turn.
#[derive(Clone, Copy, Debug, Drop, PartialEq, Eq)]
pub enum Event {
    /// The running process asks its request.
    Ask { pid: Pid, word: Word },
    /// The process takes the call by its accept alternative of this number.
    Accept { pid: Pid, alt: u32, call: CallId },
    /// The process takes its immediate alternative of this number.
    Instant { pid: Pid, alt: u32 },
    /// The process has waited long enough: its delay alternative of this number, or its `delay`, for which the number
    /// is 0.
    Expire { pid: Pid, alt: u32 },
    /// The timed call is withdrawn.
    Withdraw { call: CallId },
    /// It is this moment now, in milliseconds.
    Time { moment: u64 },
    /// The collective end: whoever waits at `terminate` ends.
    End,
}

/// How a run stands.
#[derive(Clone, Copy, Debug, Drop, PartialEq, Eq)]
pub enum Standing {
    /// A process may go on.
    Going,
    /// No process is running, and this is the least deadline that stands, in milliseconds.
    Idle { until: u64 },
    /// Every process has ended; `faulted` says whether one of them by a fault.
    Ended { faulted: bool },
    /// No process can ever go on.
    Stuck,
    /// The allowed turns are used up.
    Spent,
}
