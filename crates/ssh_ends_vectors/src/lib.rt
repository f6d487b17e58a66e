//! Tests of two ends of a connection: frames that are carried by hand, lists of events, and ten
//! thousand events drawn by a fixed generator.
#![tactic(auto)]

#[cfg(test)]
mod drawn;
#[cfg(test)]
mod rows;
#[cfg(test)]
mod two;
