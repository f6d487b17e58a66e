// The program, with its word for a session that threads share.
ghost use Rattle.std.specs.Prelude.{◌≡◌, ◌≢◌, ◌⊎◌, ◌+◌, ℕ, [], ◌∷◌, map, IfOk, MatchOption};
ghost use Rattle.std.specs.Fmt.{decimal};
ghost use Rattle.ssh_link.specs.Faults.{Rose, RoseOrFull};
ghost use Rattle.ssh_link.specs.Told.{Adds};
ghost use Rattle.ssh_script.specs.Transfer.{IsReadTo, IsReadWithin};
ghost use Rattle.ssh_script.specs.Transcript.{AskForScript, NoScript, Owed, IsUnread, IsCutShort};
ghost use Rattle.ssh_script.specs.Transcript.{Ends, longest};
ghost use Rattle.ssh_threads_lines.specs.Lines.{full_text};
ghost use Rattle.ssh_threads.specs.Programs.{IsCount, threads_words, IsAsked, NoThreads};
ghost use Rattle.ssh_threads.specs.Programs.{ShowsThreads};

use crate::peer::Peer;
use crate::threads::run_threads;
use ssh_handles::NoGate;
use ssh_link::{Sink, Source};
use ssh_scene::number_in;
use ssh_script::{run_script, write_all};
use ssh_threads_lines::{Report, report_run};
use std::alloc::{AllocError, Global};
use std::sync::Wait;
use std::thread::Threads;

/// The most channels that the word takes.
const MOST_CHANNELS: u64 = 8;

/// The status where the sink failed.
const WRITE_FAULT: u8 = 4;
/// The status where there was no memory.
const NO_MEMORY: u8 = 5;

/// How many channels the digits ask for; None where it is no number from 1 to 8.
fn count_in(alloc: Global, digits: &str) -> Result<Option<u32>, AllocError>
    ensures { IfOk result (λ count. MatchOption count
        ((n : ℕ) → IsCount n → digits.now ≢ decimal n)
        (λ n. IsCount n × (digits.now ≡ decimal n))) }
{
    let Some(count) = number_in(alloc, digits)? else {
        return Ok(None);
    };
    if count == 0 {
        return Ok(None);
    }
    if count > MOST_CHANNELS {
        return Ok(None);
    }
    Ok(Some(count as u32))
}

/// How many channels a word asks for with these digits behind it.
fn threads_in(alloc: Global, word: &str, digits: &str) -> Result<Option<u32>, AllocError>
    ensures { IfOk result (λ count. IsAsked count (word.now ∷ digits.now ∷ [])) }
{
    if word != "threads" {
        return Ok(None);
    }
    count_in(alloc, digits)
}

/// How many channels the words ask for; None where they ask for something else.
fn channels_in(alloc: Global, words: &[&str]) -> Result<Option<u32>, AllocError>
    ensures { IfOk result (λ count. IsAsked count (map (λ word. word.now) words.now)) }
{
    match words {
        [word, digits] => threads_in(alloc, word, digits),
        _ => Ok(None),
    }
}

/// Runs a session of so many channels, and writes what comes of it.
fn threads<R: Threads + Wait + Clone + Drop + Sync, W: Sink, P: Peer + Send>(
    rt: &R,
    alloc: Global,
    n: u32,
    sink: &mut W,
    peer: &mut P,
) -> u8
    requires { IsCount n }
    ensures { Ends (ShowsThreads n
        (Rose (P.Feed.faults peer.old) (P.Feed.faults peer.new))
        (P.Feed.inputs peer.old) (P.Feed.inputs peer.new)
        (P.Feed.frames peer.old) (P.Feed.frames peer.new))
        ⊥ (RoseOrFull (W.faults sink.old) (W.faults sink.new)) (W.held sink.old)
        (W.held sink.new) result }
{
    let Ok(run) = run_threads(rt, alloc, n, &NoGate, peer) else {
        return NO_MEMORY;
    };
    let report = report_run(alloc, n, &run.trace, &run.outcome);
    drop(run);
    let Ok(Report { status, text }) = report else {
        return NO_MEMORY;
    };
    match write_all(sink, text.as_bytes()) {
        Ok(()) => status,
        Err(_) => WRITE_FAULT,
    }
}

/// Does what the words ask for, and answers the status of the program: for `threads` with a number
/// from 1 to 8 a session of so many channels with this peer, on each of which a thread writes, and
/// for all other words as `run_script` does. With `threads` the status is 0 where the run was Ok
/// and 100000 bytes of data were sent on each channel, 1 where not, 4 where the sink failed, and 5
/// where there was no memory.
pub fn run_program<R: Threads + Wait + Clone + Drop + Sync, S: Source, W: Sink, P: Peer + Send>(
    rt: &R,
    alloc: Global,
    words: &[&str],
    source: &mut S,
    sink: &mut W,
    peer: &mut P,
) -> u8
    ensures threads { (n : ℕ) → IsCount n → map (λ word. word.now) words.now ≡ threads_words n
        → Ends (ShowsThreads n
        (Rose (P.Feed.faults peer.old) (P.Feed.faults peer.new))
        (P.Feed.inputs peer.old) (P.Feed.inputs peer.new)
        (P.Feed.frames peer.old) (P.Feed.frames peer.new))
        ⊥ (RoseOrFull (W.faults sink.old) (W.faults sink.new)) (W.held sink.old)
        (W.held sink.new) result }
    ensures full { (n : ℕ) → IsCount n → map (λ word. word.now) words.now ≡ threads_words n
        → result ≡ 0 → Adds (W.held sink.old) (W.held sink.new) (full_text n) }
    ensures others { NoThreads (map (λ word. word.now) words.now)
        → Ends (Owed (map (λ word. word.now) words.now) (S.left source.old))
        (IsUnread (map (λ word. word.now) words.now) (S.faults source.old) (S.faults source.new))
        (RoseOrFull (W.faults sink.old) (W.faults sink.new)) (W.held sink.old)
        (W.held sink.new) result }
    ensures peer { NoThreads (map (λ word. word.now) words.now) → peer.new ≡ peer.old }
    ensures unread { NoScript (map (λ word. word.now) words.now) → source.new ≡ source.old }
    ensures whole { AskForScript (map (λ word. word.now) words.now) →
        IsReadTo (longest + 1) (S.left source.old) (S.left source.new)
        ⊎ IsCutShort (S.faults source.old) (S.faults source.new) result }
    ensures no_further { IsReadWithin (longest + 1) (S.left source.old) (S.left source.new) }
{
    match channels_in(alloc, words) {
        Ok(Some(n)) => threads(rt, alloc, n, sink, peer),
        Ok(None) => run_script(alloc, words, source, sink),
        Err(_) => NO_MEMORY,
    }
}
