//! Worked examples of sessions of channels, as tests: sessions that are driven input by input, by
//! `drive` and by `serve_payloads`, runs over links and handlers that fail, and what a callback
//! records and is lent. Those of messages of no channel stand in `ssh_globals_vectors`.
#![tactic(auto)]

#[cfg(test)]
mod callbacks;
#[cfg(test)]
mod runs;
#[cfg(test)]
mod sending;
#[cfg(test)]
mod sessions;
