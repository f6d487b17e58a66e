//! Worked examples of a connection, as tests: scripts with the bytes that the program prints for the
//! opens of both sides (RFC 4254 section 5.1), data within windows, ends, closes and requests
//! (sections 5.2 to 6.10), global requests (section 4), ticks, and exchanges of keys in between
//! (RFC 4253 section 9).
#![tactic(auto)]

#[cfg(test)]
mod channels;
#[cfg(test)]
mod exchanges;
#[cfg(test)]
mod globals;
#[cfg(test)]
mod opens;
#[cfg(test)]
mod requests;
