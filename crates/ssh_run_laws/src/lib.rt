//! Laws of every run that keeps to the reply table, beyond those of `ssh_rules`. The definitions
//! stand in `specs/`, the laws are proved in `proofs/`.
//!
//! What the crates above rely on: the data that a channel accepted are those of the commands that
//! were accepted on it, and what was sent there holds the first of them; a channel stands until
//! something ends it, and an open of the peer's waits until it is answered; and the user who was
//! let in is the one of the first call that accepted one.
#![tactic(auto)]

mod laws;

pub use laws::{
    answered_opens_stand, channels_accept_data, channels_stand, opens_wait, traces_tell, users_stay,
};
