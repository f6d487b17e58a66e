//! Worked examples of a file server on a stream and on a channel, as tests: packets with the bytes
//! that answer them (draft-ietf-secsh-filexfer-02).
#![tactic(auto)]

#[cfg(test)]
mod cuts;
#[cfg(test)]
mod limits;
#[cfg(test)]
mod requests;
#[cfg(test)]
mod talk;
#[cfg(test)]
mod threads;
