//! Tests of handles, halves, readers and writers.
#![tactic(auto)]

#[cfg(test)]
mod ample;
#[cfg(test)]
mod answered;
#[cfg(test)]
mod polling;
#[cfg(test)]
mod scene;
#[cfg(test)]
mod sources;
#[cfg(test)]
mod threads;
#[cfg(test)]
mod writing;
