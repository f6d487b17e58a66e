//! Stories of sessions, for tests: what comes to a session, what is done with it between its inputs,
//! and what its link is told, by lines of plain values, which are played on a session with a handler
//! that answers by a plan.
#![tactic(auto)]

mod answering;
mod around;
mod calls;
mod messages;
mod recording;
mod runs;
mod sides;
mod stories;
mod wishes;

pub use answering::{Answering, Lent, Plan, QUIET, Tired, Told};
pub use around::{Around, NOTHING, are_true};
pub use messages::Message;
pub use recording::record;
pub use runs::{BEHIND_LOGIN, Run};
pub use sides::{ACCEPT, End, PASSWORD, SERVICE, takes_a_request};
pub use stories::{
    ACCEPTED, ALIVE, CHANNELS, CONFIRMED, Line, OPEN, OPEN_SMALL, SMALL, SMALL_CONFIRMED, STANDARD,
    Story, Turn, are_sent,
};
pub use wishes::{Wish, command};
