//! The kernel: it keeps the journal of a run, and decides which event comes next.
//!
//! What a kernel is to its callers stands in `specs/Contract`, and speaks of nothing inside.
//!
//! What is kept (`Store`) is a seat for each process by number, the pending calls in the order asked, and of each process the
//! calls that it serves, in the order accepted. A seat says how its process stands and its whereabouts: ready with its next
//! grant, out, waiting, or gone. Beside the seats stand how many processes run, are over, were stopped by a fault or have
//! `terminate` among their alternatives, and the numbers of those that are ready, in the order in which they became so
//! (`AreKept` in `specs/Counted`): a count changes where a standing does. The pending calls stand in the queues of cc_queue,
//! and who waits for each in a map beside them (`specs/Asked`). The calls that a process serves are a stack: each stands in a
//! map by its process and by how many calls are around it, and a second map tells how many each process serves
//! (`specs/Stacks`). The state of the machine isn't stored. It is the run of the journal, and the kernel's invariant says that
//! what is kept is that state (`IsState` in `specs/Store`, `IsKept` in `specs/Invariant`).
//!
//! A step has three parts: what the process asks is performed (`perform`), the journal says so, and the machine settles
//! (`settle`).
//!
//! Before a step no process can take anything: no pending call is eligible for one of its open alternatives, and none of them is
//! immediate (`AllRest` in `specs/Resting`). An Ask changes that for one process at most. A `select` opens alternatives for who
//! asks it; a call and a `send` add a call that is eligible for its target alone. Every other request opens no alternative and
//! adds no call: it lets processes go on, which have no open alternatives then, and takes calls away, by which none becomes
//! eligible. So settling looks at that process alone (`roused_by`): it takes the call that is chosen for the first of its
//! alternatives for which one is eligible, or its immediate alternative where there is none. By that it goes on and a call is
//! gone, so that again no process can take anything. Then a process waits at `terminate` exactly where that is one of its
//! alternatives, and whether the collective end is due is told by the counts.
//!
//! A process that is at a `delay` has a deadline, and so has one that is at a `select` with delay alternatives: the least of theirs
//! (`specs/Due`). A pending call has one where its caller waits for the answer until a moment. The deadlines that stand are kept in
//! the order in which they are due (`Deadlines`, on cc_timer), and each is that of a process or of a pending call that waits for it
//! (`AreDeadlines` in `specs/Timed`): it is added where the process begins to wait or the call is asked, and taken out where the
//! process goes on and where the call is accepted, dropped or withdrawn. Before a step none of them has come. An Ask adds one at most,
//! which may be over as it begins, and a Time may let many come. Where the collective end is not due, whoever has waited long enough
//! goes on, the least deadline first: a process by the first written of its alternatives that are due at it, and the caller of a call,
//! which is withdrawn. Who goes on opens nothing and takes nothing, so that no call can be taken by that, and the end does not come
//! while one is running. So an Ask comes with two events at most, and a Time with no more than there are deadlines.
//!
//! All memory of a step is taken before it (`prepare`), so that no step is ever half done: room for four events and one more for
//! each deadline that stands, for one more pending call, one more served call, one more deadline and one more seat, the process that
//! a Create makes, and the value of a Reply with as many zeros at its end as the value of any call has cells that a process took so
//! far (`most` in `Store`): the call that will be answered is one of these.
//!
//! `pick` takes constant time and `state` that to find the least deadline, and the process that has been ready for longest is picked. `prepare` takes the time to
//! copy what a Create or a Reply has. A step takes the time to compare the pending calls of the transactions that the process
//! accepts at its `select`, or to drop the calls of a process that is over, those that wait for it and those that it serves. The
//! End, which comes once, walks the seats.
#![tactic(auto)]

mod asks;
mod choice;
mod counts;
mod deadlines;
mod due;
mod faults;
mod kernel;
mod need;
mod pending;
mod perform;
mod prepare;
mod seat;
mod seats;
mod served;
mod settle;
mod store;

pub use kernel::Kernel;
