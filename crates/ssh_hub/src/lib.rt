//! A hub that threads share: what they ask of a session waits in it, and what the session tells
//! them.
//!
//! What the crates above rely on: each call of a seat ends a history which is legal, begins with
//! all that the seat had seen, and has of this seat just the calls that it made; and what holds of
//! every legal history (the laws).
#![tactic(auto)]

mod answers;
mod channel;
mod history;
mod hub;
mod laws;
mod laws_of_seats;
mod lock;
mod queued;
mod reservations;
mod rule;

pub use answers::{
    Config2, Deliver, HandleError, Look, Put, PutReply, Received, Reserve, SlotAnswer, Taken,
};
pub use history::{Entry, HubCall, HubReply, Stage, View};
pub use laws::{
    answers_before_commands, beginnings_are_legal, bytes_are_conserved, bytes_fit, calls_add_up,
    commands_in_order, ends_at_the_first_end, inboxes_are_of_one_size, one_call_does,
    replies_in_order, reservations_add_up, reserved_by_own_calls,
};
pub use laws_of_seats::{
    all_answers_fit, answers_fit_their_calls, ends_are_named, learning_is_no_call,
    meeting_is_no_call, others_stay, own_takes_in_order, puts_spend_whole, reserved_call_by_call,
};
pub use lock::{HubLock, Seat, crosses};
pub use reservations::Reservation;
