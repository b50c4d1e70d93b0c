//! A lock round one value that knows what each of its users has out.
//!
//! A [`Desk`] keeps one value of a type that is [`Held`]: it has a list of events that only grows, and a list of the
//! processes that are out, each with what it was handed. Whoever works at the desk has a [`DeskSeat`]. `enter` waits for the
//! turn and gives the value, `leave` gives both back, and between the two nobody else sees the value.
//!
//! # What the lock protects
//!
//! The value, whole: its events, its list of what is out, and whatever else it holds. A seat keeps, outside the lock, the
//! events that it has seen and the one entry that it has out; what it knows of them stays true while others hold the value.
//!
//! # The rule
//!
//! It holds before and after each step on the turn word, whatever the order in which the seats take their steps:
//!
//! 1. The turn word is 0 or 1. It is 1 exactly where one seat has the turn, and no two seats have it.
//! 2. Where it is 0 the value is there, each seat has seen a beginning of the value's events, and what is out in the value
//!    is what the seats have out, each once.
//! 3. Where it is 1 the same holds of the events and entries that the value had when the turn was taken. The seat that has
//!    the turn holds the value. It may give the turn back only with a value that began at the same root, whose events go on
//!    from those, and whose entries are those without the seat's own, in their order, with at most one more among them.
//! 4. No process is out twice. All seats have the root with which the desk was opened, and the value is one to which what
//!    began at that root may have led. A seat that was joined into another has nothing any more.
//!
//! `specs/Rule.antt` says it of every state of the table.
//!
//! # What may be done while holding the turn
//!
//! Anything that ends: the value is the holder's own, and no call of the desk is refused or takes memory but `open`. Waiting
//! for another seat while holding the turn would wait for ever, and whoever drops the value in place of leaving makes all
//! others wait for ever.
//!
//! # Why one lock
//!
//! Each event of the machine is decided on all of its state, as which calls are pending, who waits for whom and whether all
//! may end; parts under locks of their own would each need every other lock. What takes long runs between two holds.
#![tactic(auto)]

mod desk;
mod held;
mod law;
mod view;

pub use desk::{Back, Desk, DeskSeat};
pub use held::Held;
