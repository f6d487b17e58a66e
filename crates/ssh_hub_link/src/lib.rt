//! The link of a session whose commands and replies come out of a hub, which threads share.
//!
//! What the crates above rely on: what the link tells is what its seat took out of the hub, what
//! its feed gave and what its feed took, each of them whole and in order; and each notice and each
//! answer makes the calls of the hub that belong to it, and no others.
#![tactic(auto)]

mod entries;
mod feed;
mod hub_link;
mod journal;
mod notices;

pub use feed::Feed;
pub use hub_link::HubLink;
