//! Worked examples of handlers, as tests: what a handler that records its calls tells of each
//! callback, and what one answers that does not write it.
#![tactic(auto)]

#[cfg(test)]
mod accepting;
#[cfg(test)]
mod events;
#[cfg(test)]
mod failing;
#[cfg(test)]
mod lender;
#[cfg(test)]
mod numbers;
#[cfg(test)]
mod responses;
#[cfg(test)]
mod sessions;
#[cfg(test)]
mod told;
#[cfg(test)]
mod users;
