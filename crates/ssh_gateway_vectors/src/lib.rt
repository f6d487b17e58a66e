//! Worked examples of gateways, as tests: what goes to the peer and to the targets for a script of
//! payloads.
#![tactic(auto)]

#[cfg(test)]
mod many;
#[cfg(test)]
mod playing;
#[cfg(test)]
mod rows;
