//! Questions of a session that own what a callback borrows, for a handler that keeps what it was
//! asked: each function copies the arguments of one callback.
#![tactic(auto)]

pub mod made;
