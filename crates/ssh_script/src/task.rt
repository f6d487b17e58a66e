// What the words after the program's name ask for.
ghost use Rattle.std.specs.Prelude.{◌≡◌, ◌≢◌, ℕ, [], ◌∷◌, map, IfOk, MatchOption};
ghost use Rattle.std.specs.Fmt.{decimal};
ghost use Rattle.ssh_script.specs.Transcript.{IsSize, IsTask};

use ssh_scene::{number_in, small_in};
use std::alloc::{AllocError, Global};

/// The most channels of a session that the program makes up.
const MOST_CHANNELS: u64 = 1000;

/// What the program does.
#[derive(Clone, Copy, Debug, PartialEq, Eq)]
pub(crate) enum Task {
    /// It runs a script.
    Run,
    /// It serves files to the client that a script has.
    ServeFiles,
    /// It runs a session of so many channels, which it makes up.
    Generate(u32),
    /// It joins two ends, each of which gives this window and takes this packet size.
    JoinEnds(u32, u32),
    /// It plays a gateway.
    Forward,
    /// It writes the usage line.
    ShowUsage,
    /// It writes its name and its version.
    ShowVersion,
    /// It refuses words that ask for nothing.
    Refuse,
}

/// How many channels the digits ask for; None where it is no number from 1 to 1000.
fn size_in(alloc: Global, digits: &str) -> Result<Option<u32>, AllocError>
    ensures { IfOk result (λ size. MatchOption size
        ((channels : ℕ) → IsSize channels → digits.now ≢ decimal channels)
        (λ channels. IsSize channels × (digits.now ≡ decimal channels))) }
{
    let Some(channels) = number_in(alloc, digits)? else {
        return Ok(None);
    };
    if channels == 0 || channels > MOST_CHANNELS {
        return Ok(None);
    }
    Ok(Some(channels as u32))
}

/// What this one word asks for.
fn lone_task(word: &str) -> Task
    ensures { IsTask result (word.now ∷ []) }
{
    match word {
        "run" => Task::Run,
        "sftp" => Task::ServeFiles,
        "gateway" => Task::Forward,
        "--help" => Task::ShowUsage,
        "--version" => Task::ShowVersion,
        _ => Task::Refuse,
    }
}

/// What a word asks for with these digits behind it.
fn sized_task(alloc: Global, word: &str, digits: &str) -> Result<Task, AllocError>
    ensures { IfOk result (λ task. IsTask task (word.now ∷ digits.now ∷ [])) }
{
    if word != "generate" {
        return Ok(Task::Refuse);
    }
    match size_in(alloc, digits)? {
        Some(channels) => Ok(Task::Generate(channels)),
        None => Ok(Task::Refuse),
    }
}

/// What a word asks for with these digits behind it, of a window and of a packet size.
#[tactic(auto, using(crate::proofs::Sizes::no_window, crate::proofs::Sizes::no_packet, crate::proofs::Sizes::packet_of_none))]
fn joined_task(alloc: Global, word: &str, window: &str, packet: &str) -> Result<Task, AllocError>
    ensures { IfOk result (λ task. IsTask task (word.now ∷ window.now ∷ packet.now ∷ [])) }
{
    if word != "ends" {
        return Ok(Task::Refuse);
    }
    let Some(window_size) = small_in(alloc, window)? else {
        return Ok(Task::Refuse);
    };
    let Some(packet_size) = small_in(alloc, packet)? else {
        return Ok(Task::Refuse);
    };
    if packet_size == 0 {
        return Ok(Task::Refuse);
    }
    Ok(Task::JoinEnds(window_size, packet_size))
}

/// What these words ask for.
pub(crate) fn task_of(alloc: Global, words: &[&str]) -> Result<Task, AllocError>
    ensures { IfOk result (λ task. IsTask task (map (λ word. word.now) words.now)) }
{
    match words {
        [word] => Ok(lone_task(word)),
        [word, digits] => sized_task(alloc, word, digits),
        [word, window, packet] => joined_task(alloc, word, window, packet),
        _ => Ok(Task::Refuse),
    }
}
