// A script is read and run, and what comes of it is written.
ghost use Rattle.std.specs.Prelude.{◌≡◌, ◌<◌, ◌≤◌, ◌+◌, ◌++◌, ◌↔◌, ◌⊎◌, ℕ, List, map, codes};
ghost use Rattle.std.specs.Prelude.{length, IfOk, OnOk, IsErrOf, Err, true, false};
ghost use Rattle.std.specs.Fmt.{decimal};
ghost use Rattle.std.specs.String.{string_bytes};
ghost use Rattle.ssh_link.specs.Faults.{RoseOrFull};
ghost use Rattle.ssh_scene.specs.Scene.{scene_of};
ghost use Rattle.ssh_script.specs.Transfer.{IsReadTo, IsReadWithin};
ghost use Rattle.ssh_script.specs.Transcript.{status_of, IsRun, Scripted, FilesScripted, IsUnknown};
ghost use Rattle.ssh_script.specs.Transcript.{IsMisused, AskForScript, NoScript, EndsScripted};
ghost use Rattle.ssh_script.specs.Transcript.{GatewayScripted};
ghost use Rattle.ssh_script.specs.Files.{IsServed};
ghost use Rattle.ssh_script.specs.Transcript.{Transcript, Owed, IsUnread, IsCutShort, Ends};
ghost use Rattle.ssh_script.specs.Transcript.{longest, in_numbers};
ghost use Rattle.ssh_script.specs.Writings.{text_in, writing_of};
ghost use Rattle.ssh_scene.specs.Generated.{generated};

use crate::files::{print_ending, serve_pieces};
use crate::task::{Task, task_of};
use crate::transfer::{ReadError, read_front, write_all};
use bytes::Bytes;
use ssh_auth::Question;
use ssh_handler::RecordError;
use ssh_link::{PlainKexError, Sink, Source, TraceEntry};
use ssh_players::{ScriptError, ScriptHandler, ScriptKex, ScriptLink};
use ssh_scene::{Script, generated_script, read_pieces, read_script};
use ssh_scene_ends::{read_events, tell_events};
use ssh_scene_gateway::{Forwarded, forward, read_gateway};
use ssh_session::{RunError, run_stream};
use ssh_transcript::{print_number, print_run, print_summary};
use std::alloc::{AllocError, Global};

/// The status where nothing went wrong.
pub(crate) const DONE: u8 = 0;
/// The status where a run ended by an error.
pub(crate) const ENDED_BY_ERROR: u8 = 1;
/// The status where words ask for nothing, or a script is not run.
const REFUSED: u8 = 2;
/// The status where the source failed.
const READ_FAULT: u8 = 3;
/// The status where the sink failed.
const WRITE_FAULT: u8 = 4;
/// The status where there was no memory.
const NO_MEMORY: u8 = 5;

/// The longest script, in bytes.
pub const LONGEST: usize = 16_777_216;

/// How much of a source is read at most: one byte more shows that a script is too long.
const READ_AT_MOST: usize = LONGEST + 1;

const USAGE: &str =
    "usage: ssh_script run | generate <n> | threads <n> | sftp | ends <window> <packet> | gateway\n";

const VERSION: &str = "ssh_script 0.1.0\n";

/// What a script comes to: the program's status, and what it writes.
#[derive(Drop)]
struct Report {
    status: u8,
    text: String,
}

/// The status of a run that ended by this error; none where memory was wanting.
fn error_status(error: &RunError<RecordError<ScriptError>, PlainKexError>) -> Option<u8>
    ensures { result ≡ status_of (Err error.now) }
{
    match error {
        RunError::NoMemory | RunError::Handler(RecordError::NoMemory) => None,
        RunError::LinkFault
        | RunError::InputLimit
        | RunError::Encoding(_)
        | RunError::Inconsistent
        | RunError::Pending
        | RunError::Key(_)
        | RunError::UnsupportedAuthMethod
        | RunError::Handler(RecordError::Inner(_) | RecordError::Untold)
        | RunError::Kex(_)
        | RunError::ChannelsFull
        | RunError::KeepaliveTimeout
        | RunError::InactivityTimeout => Some(ENDED_BY_ERROR),
    }
}

/// The status of a run; none where memory was wanting.
pub fn status_of(run: &Result<(), RunError<RecordError<ScriptError>, PlainKexError>>) -> Option<u8>
    ensures { result ≡ status_of run.now }
{
    match run {
        Ok(()) => Some(DONE),
        Err(error) => error_status(error),
    }
}

/// How a run is written.
#[derive(Clone, Copy, Debug, PartialEq, Eq)]
enum Writing {
    /// Line by line: the callbacks, the calls of the link, and how it ended.
    LineByLine,
    /// In numbers: what was sent, and how it ended.
    InNumbers,
}

impl Writing {
    /// The text of a run with these callbacks, these calls of the link, and this end.
    fn text(
        self,
        alloc: Global,
        asked: &[Question],
        trace: &[TraceEntry],
        run: &Result<(), RunError<RecordError<ScriptError>, PlainKexError>>,
    ) -> Result<String, AllocError>
        ensures { IfOk result (λ text. string_bytes text
            ≡ text_in self asked.now trace.now run.now) }
    {
        match self {
            Writing::LineByLine => print_run(alloc, asked, trace, run),
            Writing::InNumbers => print_summary(alloc, trace, run),
        }
    }
}

/// Runs what a script says.
fn run_scene(alloc: Global, script: Script, writing: Writing) -> Result<Report, AllocError>
    ensures { IfOk result (λ report. IsRun (writing_of writing) (scene_of script) report.status
        (string_bytes report.text)) }
{
    let Ok(mut link) = ScriptLink::new(alloc, script.inputs, script.moment) else {
        return Err(AllocError);
    };
    let mut handler = ScriptHandler::new(alloc, script.answers);
    let mut kex = ScriptKex::new(alloc, true);
    let run = run_stream(
        alloc,
        &script.config,
        script.session_id.as_slice(),
        &[],
        &mut handler,
        &script.verifier,
        &mut kex,
        &mut link,
        script.max_inputs,
    );
    let Some(status) = status_of(&run) else {
        return Err(AllocError);
    };
    if handler.lost {
        return Err(AllocError);
    }
    let text = writing.text(alloc, &handler.asked, link.memory.trace(), &run)?;
    Ok(Report { status, text })
}

/// One line, where no script is run.
fn one_line(alloc: Global, status: u8, line: &str) -> Result<Report, AllocError>
    ensures status { IfOk result (λ report. report.status ≡ status) }
    ensures text { IfOk result (λ report. string_bytes report.text ≡ line.now) }
{
    let mut text = String::new(alloc);
    text.push_str(line)?;
    Ok(Report { status, text })
}

/// The script has a bad line of this number.
fn bad_line(alloc: Global, number: u64) -> Result<Report, AllocError>
    ensures status { IfOk result (λ report. report.status ≡ 2) }
    ensures text { IfOk result (λ report. string_bytes report.text ≡ codes "bad line "
        ++ decimal number ++ codes "\n") }
{
    let mut text = String::new(alloc);
    text.push_str("bad line ")?;
    print_number(alloc, &mut text, number)?;
    text.push_str("\n")?;
    Ok(Report {
        status: REFUSED,
        text,
    })
}

/// What a script of these bytes comes to.
fn show(alloc: Global, bytes: &[u8]) -> Result<Report, AllocError>
    ensures { IfOk result (λ report. Scripted bytes.now report.status (string_bytes report.text)) }
{
    if bytes.len() > LONGEST {
        return one_line(alloc, REFUSED, "script too long\n");
    }
    show_lines(alloc, bytes)
}

/// What a script comes to that is not too long.
fn show_lines(alloc: Global, bytes: &[u8]) -> Result<Report, AllocError>
    requires { length bytes.now ≤ longest }
    ensures { IfOk result (λ report. Scripted bytes.now report.status (string_bytes report.text)) }
{
    match read_script(alloc, bytes)? {
        Ok(script) => run_scene(alloc, script, Writing::LineByLine),
        Err(number) => bad_line(alloc, number),
    }
}

/// What a file server comes to whose client sends these pieces.
fn serve_files(alloc: Global, pieces: &[Bytes]) -> Result<Report, AllocError>
    ensures { IfOk result (λ report. IsServed pieces.now report.status
        (string_bytes report.text)) }
{
    let mut text = String::new(alloc);
    let ended = serve_pieces(alloc, pieces, &mut text)?;
    let status = print_ending(&mut text, ended)?;
    Ok(Report { status, text })
}

/// What a file server comes to whose client has a script of these bytes.
fn show_files(alloc: Global, bytes: &[u8]) -> Result<Report, AllocError>
    ensures { IfOk result (λ report. FilesScripted bytes.now report.status
        (string_bytes report.text)) }
{
    if bytes.len() > LONGEST {
        return one_line(alloc, REFUSED, "script too long\n");
    }
    show_pieces(alloc, bytes)
}

/// What a file server comes to whose client has a script that is not too long.
fn show_pieces(alloc: Global, bytes: &[u8]) -> Result<Report, AllocError>
    requires { length bytes.now ≤ longest }
    ensures { IfOk result (λ report. FilesScripted bytes.now report.status
        (string_bytes report.text)) }
{
    match read_pieces(alloc, bytes)? {
        Ok(pieces) => serve_files(alloc, &pieces),
        Err(number) => bad_line(alloc, number),
    }
}

/// What two ends come to of which a script of these bytes tells.
fn show_ends(alloc: Global, window: u32, packet: u32, bytes: &[u8]) -> Result<Report, AllocError>
    requires { 0 < packet }
    ensures { IfOk result (λ report. EndsScripted window packet bytes.now report.status
        (string_bytes report.text)) }
{
    if bytes.len() > LONGEST {
        return one_line(alloc, REFUSED, "script too long\n");
    }
    show_events(alloc, window, packet, bytes)
}

/// What two ends come to of which a script tells that is not too long.
#[tactic(auto, using(crate::proofs::Sizes::few_told))]
fn show_events(alloc: Global, window: u32, packet: u32, bytes: &[u8]) -> Result<Report, AllocError>
    requires some { 0 < packet }
    requires short { length bytes.now ≤ longest }
    ensures { IfOk result (λ report. EndsScripted window packet bytes.now report.status
        (string_bytes report.text)) }
{
    match read_events(alloc, bytes)? {
        Ok(events) => Ok(Report {
            status: DONE,
            text: tell_events(alloc, window, packet, events)?,
        }),
        Err(number) => bad_line(alloc, number),
    }
}

/// What a gateway comes to that has a script of these bytes.
fn show_gateway(alloc: Global, bytes: &[u8]) -> Result<Report, AllocError>
    ensures { IfOk result (λ report. GatewayScripted bytes.now report.status
        (string_bytes report.text)) }
{
    if bytes.len() > LONGEST {
        return one_line(alloc, REFUSED, "script too long\n");
    }
    show_forwarding(alloc, bytes)
}

/// What a gateway comes to that has a script which is not too long.
fn show_forwarding(alloc: Global, bytes: &[u8]) -> Result<Report, AllocError>
    requires { length bytes.now ≤ longest }
    ensures { IfOk result (λ report. GatewayScripted bytes.now report.status
        (string_bytes report.text)) }
{
    match read_gateway(alloc, bytes)? {
        Ok(script) => {
            let Forwarded { status, text } = forward(alloc, script)?;
            Ok(Report { status, text })
        }
        Err(number) => bad_line(alloc, number),
    }
}

/// What a session of so many channels comes to.
fn generate(alloc: Global, channels: u32) -> Result<Report, AllocError>
    requires { channels ≤ 1000 }
    ensures { IfOk result (λ report. IsRun in_numbers (generated channels) report.status
        (string_bytes report.text)) }
{
    let Ok(script) = generated_script(alloc, channels) else {
        return Err(AllocError);
    };
    run_scene(alloc, script, Writing::InNumbers)
}

/// What these words and the source's script come to.
fn transcript<S: Source>(alloc: Global, words: &[&str], source: &mut S) -> Result<Report, ReadError>
    ensures owed { IfOk result (λ report. Owed (map (λ word. word.now) words.now)
        (S.left source.old) report.status (string_bytes report.text)) }
    ensures unread { NoScript (map (λ word. word.now) words.now) → source.new ≡ source.old }
    ensures whole { AskForScript (map (λ word. word.now) words.now)
        → OnOk result (IsReadTo (longest + 1) (S.left source.old) (S.left source.new)) }
    ensures no_further { IsReadWithin (longest + 1) (S.left source.old) (S.left source.new) }
    ensures cause { IsErrOf result ReadError.Failed → IsUnread (map (λ word. word.now) words.now)
        (S.faults source.old) (S.faults source.new) }
    ensures later { S.faults source.old ≤ S.faults source.new }
{
    match task_of(alloc, words)? {
        Task::Run => {
            let bytes = read_front(alloc, source, READ_AT_MOST)?;
            Ok(show(alloc, bytes.as_slice())?)
        }
        Task::ServeFiles => {
            let bytes = read_front(alloc, source, READ_AT_MOST)?;
            Ok(show_files(alloc, &bytes)?)
        }
        Task::JoinEnds(window, packet) => {
            let bytes = read_front(alloc, source, READ_AT_MOST)?;
            Ok(show_ends(alloc, window, packet, &bytes)?)
        }
        Task::Forward => {
            let bytes = read_front(alloc, source, READ_AT_MOST)?;
            Ok(show_gateway(alloc, &bytes)?)
        }
        Task::Generate(channels) => Ok(generate(alloc, channels)?),
        Task::ShowUsage => Ok(one_line(alloc, DONE, USAGE)?),
        Task::ShowVersion => Ok(one_line(alloc, DONE, VERSION)?),
        Task::Refuse => Ok(one_line(alloc, REFUSED, USAGE)?),
    }
}

/// Does what the words ask for with the script that the source holds, and answers the status of
/// the program: 0 where the run was Ok, and for `--help` and `--version`; 1 where the run ended
/// or the stream of a client of files ended by an error; 2 for other words, a bad line, or more than
/// 16777216 bytes; 3 where the source failed, 4 where the sink failed, 5 where there was no memory.
/// The source is read for the words `run`, `sftp`, `ends` and `gateway` alone: to its end, or to
/// byte 16777217.
pub fn run_script<S: Source, W: Sink>(
    alloc: Global,
    words: &[&str],
    source: &mut S,
    sink: &mut W,
) -> u8
    ensures ends { Ends (Owed (map (λ word. word.now) words.now) (S.left source.old))
        (IsUnread (map (λ word. word.now) words.now) (S.faults source.old) (S.faults source.new))
        (RoseOrFull (W.faults sink.old) (W.faults sink.new)) (W.held sink.old)
        (W.held sink.new) result }
    ensures unread { NoScript (map (λ word. word.now) words.now) → source.new ≡ source.old }
    ensures whole { AskForScript (map (λ word. word.now) words.now) →
        IsReadTo (longest + 1) (S.left source.old) (S.left source.new)
        ⊎ IsCutShort (S.faults source.old) (S.faults source.new) result }
    ensures no_further { IsReadWithin (longest + 1) (S.left source.old) (S.left source.new) }
{
    match transcript(alloc, words, source) {
        Ok(report) => match write_all(sink, report.text.as_bytes()) {
            Ok(()) => report.status,
            Err(_) => WRITE_FAULT,
        },
        Err(ReadError::NoMemory) => NO_MEMORY,
        Err(ReadError::Failed) => match write_all(sink, b"read fault\n") {
            Ok(()) => READ_FAULT,
            Err(_) => WRITE_FAULT,
        },
    }
}

/// Words and a script owe one status and one text, and the status is 2 exactly with words that
/// ask for nothing, and with `run`, `sftp`, `ends` or `gateway` and a script that is too long or has a
/// bad line.
pub fn one_transcript()
    ensures once { (words : List (List ℕ)) (script : List ℕ) (m n : ℕ) (s t : List ℕ)
        → Transcript words script m s → Transcript words script n t → (m ≡ n) × (s ≡ t) }
    ensures two { (words : List (List ℕ)) (script : List ℕ) (m : ℕ) (text : List ℕ)
        → Transcript words script m text →
        (m ≡ 2) ↔ (IsUnknown words ⊎ IsMisused words script) }
{}
