//! Worked examples of messages of no channel (RFC 4254 section 4, RFC 4253 section 11), of ticks,
//! exchanges of keys and commands between inputs, as tests: sessions, and what they tell their link.
#![tactic(auto)]

#[cfg(test)]
mod asked;
#[cfg(test)]
mod between;
#[cfg(test)]
mod disconnects;
#[cfg(test)]
mod exchanges;
#[cfg(test)]
mod own;
#[cfg(test)]
mod refusals;
#[cfg(test)]
mod ticks;
