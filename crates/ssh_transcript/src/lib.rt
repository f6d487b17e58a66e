//! What a run prints, line by line: the callbacks, the calls of the link, and how the run ended.
//!
//! What stands above it relies on the contract of `print_run`: the text is that of the callbacks,
//! of the calls of the link and of the answer of the run, line by line.
#![tactic(auto)]

mod argument;
mod happenings;
mod print;
mod print_call;
mod print_notice;
mod summary;
mod whole_run;

pub use print::{print_hex, print_number, print_trace};
pub use summary::print_summary;
pub use whole_run::print_run;
