//! Tests of a session that several threads share, and of its link over a hub.
#![tactic(auto)]

#[cfg(test)]
mod answered;
#[cfg(test)]
mod linked;
#[cfg(test)]
mod meeting;
#[cfg(test)]
mod odd_peer;
#[cfg(test)]
mod planned_feed;
#[cfg(test)]
mod programs;
#[cfg(test)]
mod scene;
