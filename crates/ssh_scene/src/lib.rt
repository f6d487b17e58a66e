//! What a script says: how its lines are written, and what they say together.
//!
//! What stands above it relies on the contract of `read_script`: it reads the scene that the lines
//! give, or the number of the first bad one.
#![tactic(auto)]

mod answers;
mod command_lines;
mod faults;
mod generated;
mod grammar;
mod lines;
mod pieces;
mod scene;
mod script;

pub use answers::{
    Answers, DataVerdict, ForwardVerdict, InteractiveVerdict, OpenVerdict, RequestVerdict,
    Standing, Verdict,
};
pub use command_lines::{channel_in, small_in};
pub use faults::{BadLine, LineFault, bad_line};
pub use generated::generated_script;
pub use grammar::{bytes_in, number_in, text_in};
pub use pieces::read_pieces;
pub use scene::{first_line, read_script};
pub use script::{Script, Stage};
