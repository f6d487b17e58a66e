//! What the word `threads` prints of a run: how many bytes of data were sent on each channel, or the
//! error by which the session ended.
//!
//! What the crates above rely on: status and text are those of the frames in the trace, counted
//! channel by channel, and of the outcome.
#![tactic(auto)]

mod lines;

pub use lines::{Outcome, Report, report_run};
