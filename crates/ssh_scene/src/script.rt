// What a script says.
ghost use Rattle.std.specs.Prelude.{◌<◌, ◌^◌, length};

use crate::answers::Answers;
use bytes::Bytes;
use ssh_handler::Config;
use ssh_keys::TableVerifier;
use ssh_link::Input;

/// Which lines may follow.
#[derive(Clone, Copy, Debug, PartialEq, Eq)]
pub enum Stage {
    /// All.
    Settings,
    /// All but settings: there was an input line.
    Inputs,
    /// All but settings, and input lines are not taken: the peer is gone.
    Ended,
}

/// What a script says.
#[derive(Drop)]
pub struct Script {
    /// The session id.
    pub session_id: Bytes,
    /// After how many inputs the run stops.
    pub max_inputs: u64,
    /// How the server is set up.
    pub config: Config,
    /// The signatures that are accepted.
    pub verifier: TableVerifier,
    /// What the callbacks are answered.
    pub answers: Answers,
    /// How many of the inputs are commands and answers to opens: these have the tickets from 1 to
    /// this.
    pub tickets: u64,
    /// The inputs, in order.
    pub inputs: Vec<Input>,
    /// The moment in force, in milliseconds.
    pub moment: u64,
    /// Which lines may follow.
    pub stage: Stage,
    ghost short: { length session_id < 2 ^ 32 },
}
