// How the lines of a script are written: words with one space between each two.
ghost use Rattle.std.specs.Prelude.{◌≡◌, IfOk};
ghost use Rattle.ssh_scene.specs.Grammar.{IsNumberIn, IsHexIn, IsTextIn, IsKeyIn, IsSignatureIn};
ghost use Rattle.ssh_scene.specs.Grammar.{Fits, Reads, word_form, config_form, number_form};
ghost use Rattle.ssh_scene.specs.Grammar.{window_form, packet_form, answer_form, sign_form};
ghost use Rattle.ssh_scene.specs.Grammar.{lone_form, verdict_form, banner_form, interactive_form};
ghost use Rattle.ssh_scene.specs.Grammar.{open_form, data_answer_form, request_form};
ghost use Rattle.ssh_scene.specs.Grammar.{forward_answer_form, forward_no_form, forward_yes_form};
ghost use Rattle.ssh_scene.specs.Grammar.{banner_text_form, tick_form};
ghost use Rattle.ssh_scene.specs.Verdicts.{verdict_of, interactive_verdict_of, open_verdict_of};
ghost use Rattle.ssh_scene.specs.Verdicts.{data_verdict_of, request_verdict_of, answer_to};

use crate::answers::{
    DataVerdict, ForwardVerdict, InteractiveVerdict, OpenVerdict, RequestVerdict, Verdict,
};
use crate::command_lines::{accept_line, command_line, reject_line, small_in};
use crate::lines::{InputLine, Line, Setting};
use bytes::Bytes;
use hex::FromHexError;
use ssh_keys::{AcceptedSignature, Algorithm, KeyError, PublicKey};
use ssh_wire::Text;
use std::alloc::{AllocError, Global};

/// The number that the digits write: decimal, without sign or leading zero, below 2^64.
pub fn number_in(alloc: Global, digits: &str) -> Result<Option<u64>, AllocError>
    ensures { IfOk result (IsNumberIn digits.now) }
{
    let Ok(n) = digits.parse::<u64>() else {
        return Ok(None);
    };
    let written = n.to_string(alloc)?;
    if written.as_str() != digits {
        return Ok(None);
    }
    Ok(Some(n))
}

/// The bytes that the digits write in hex, with `-` for none.
pub fn bytes_in(alloc: Global, digits: &str) -> Result<Option<Bytes>, AllocError>
    ensures { IfOk result (IsHexIn digits.now) }
{
    if digits.is_empty() {
        return Ok(None);
    }
    if digits == "-" {
        return Ok(Some(Bytes::copy_from_slice(alloc, &[])?));
    }
    match hex::decode(alloc, digits) {
        Ok(bytes) => Ok(Some(Bytes::from_vec(bytes)?)),
        Err(FromHexError::OutOfMemory) => Err(AllocError),
        Err(_) => Ok(None),
    }
}

/// The text whose bytes the digits write in hex, with `-` for none.
pub fn text_in(alloc: Global, digits: &str) -> Result<Option<Text>, AllocError>
    ensures { IfOk result (IsTextIn digits.now) }
{
    let Some(bytes) = bytes_in(alloc, digits)? else {
        return Ok(None);
    };
    let Ok(text) = str::from_utf8(bytes.as_slice()) else {
        return Ok(None);
    };
    match Text::new(alloc, text) {
        Ok(text) => Ok(Some(text)),
        Err(_) => Err(AllocError),
    }
}

/// The key whose blob the digits write in hex.
pub(crate) fn key_in(alloc: Global, digits: &str) -> Result<Option<PublicKey>, AllocError>
    ensures { IfOk result (IsKeyIn digits.now) }
{
    let Some(blob) = bytes_in(alloc, digits)? else {
        return Ok(None);
    };
    match PublicKey::decode(alloc, blob.as_slice()) {
        Ok(key) => Ok(Some(key)),
        Err(why) => match why {
            KeyError::NoMemory => Err(AllocError),
            _ => Ok(None),
        },
    }
}

/// The signature that the words write: a key, the name of an algorithm of keys, a message and
/// the signature's own bytes.
fn signature_in(
    alloc: Global,
    key: &str,
    algorithm: &str,
    message: &str,
    signature: &str,
) -> Result<Option<AcceptedSignature>, AllocError>
    ensures { IfOk result (IsSignatureIn key.now algorithm.now message.now signature.now) }
{
    let Some(algorithm) = Algorithm::new(algorithm) else {
        return Ok(None);
    };
    let Some(message) = bytes_in(alloc, message)? else {
        return Ok(None);
    };
    let Some(signature) = bytes_in(alloc, signature)? else {
        return Ok(None);
    };
    let Some(key) = key_in(alloc, key)? else {
        return Ok(None);
    };
    Ok(Some(AcceptedSignature {
        key,
        algorithm,
        message,
        signature,
    }))
}

/// A line of one word.
fn lone_line(word: &str) -> Option<Line>
    ensures { Fits (lone_form word.now) result }
{
    match word {
        "end" => Some(Line::Input(InputLine::End)),
        _ => None,
    }
}

fn verdict_in(word: &str) -> Option<Verdict>
    ensures { result ≡ verdict_of word.now }
{
    match word {
        "accept" => Some(Verdict::Accept),
        "reject" => Some(Verdict::Reject),
        "fail" => Some(Verdict::Fail),
        _ => None,
    }
}

/// The answer to the requests of this name.
fn answer_to(name: &str, verdict: Verdict) -> Option<Setting>
    ensures { result ≡ answer_to name.now verdict }
{
    match name {
        "none" => Some(Setting::AnswerNone(verdict)),
        "password" => Some(Setting::AnswerPassword(verdict)),
        "offered" => Some(Setting::AnswerOffered(verdict)),
        "publickey" => Some(Setting::AnswerPublickey(verdict)),
        "certificate" => Some(Setting::AnswerCertificate(verdict)),
        _ => None,
    }
}

fn verdict_line(name: &str, word: &str) -> Option<Line>
    ensures { Fits (verdict_form name.now (verdict_of word.now)) result }
{
    let verdict = verdict_in(word)?;
    let setting = answer_to(name, verdict)?;
    Some(Line::Setting(setting))
}

fn banner_line(word: &str) -> Option<Line>
    ensures { Fits (banner_form word.now) result }
{
    match word {
        "fail" => Some(Line::Setting(Setting::FailBanner)),
        _ => None,
    }
}

fn interactive_verdict_in(word: &str) -> Option<InteractiveVerdict>
    ensures { result ≡ interactive_verdict_of word.now }
{
    match word {
        "unsupported" => Some(InteractiveVerdict::Unsupported),
        "ask" => Some(InteractiveVerdict::Ask),
        _ => verdict_in(word).map(InteractiveVerdict::Plain),
    }
}

fn interactive_line(word: &str) -> Option<Line>
    ensures { Fits (interactive_form word.now) result }
{
    let verdict = interactive_verdict_in(word)?;
    Some(Line::Setting(Setting::AnswerInteractive(verdict)))
}

fn open_verdict_in(word: &str) -> Option<OpenVerdict>
    ensures { result ≡ open_verdict_of word.now }
{
    match word {
        "accept" => Some(OpenVerdict::Accept),
        "reject" => Some(OpenVerdict::Reject),
        "hold" => Some(OpenVerdict::Hold),
        _ => None,
    }
}

fn open_line(word: &str) -> Option<Line>
    ensures { Fits (open_form word.now) result }
{
    let verdict = open_verdict_in(word)?;
    Some(Line::Setting(Setting::AnswerOpen(verdict)))
}

fn data_verdict_in(word: &str) -> Option<DataVerdict>
    ensures { result ≡ data_verdict_of word.now }
{
    match word {
        "echo" => Some(DataVerdict::Echo),
        "silent" => Some(DataVerdict::Silent),
        _ => None,
    }
}

fn data_answer_line(word: &str) -> Option<Line>
    ensures { Fits (data_answer_form word.now) result }
{
    let verdict = data_verdict_in(word)?;
    Some(Line::Setting(Setting::AnswerData(verdict)))
}

fn request_verdict_in(word: &str) -> Option<RequestVerdict>
    ensures { result ≡ request_verdict_of word.now }
{
    match word {
        "success" => Some(RequestVerdict::Success),
        "failure" => Some(RequestVerdict::Failure),
        "silent" => Some(RequestVerdict::Silent),
        _ => None,
    }
}

fn request_line(word: &str) -> Option<Line>
    ensures { Fits (request_form word.now) result }
{
    let verdict = request_verdict_in(word)?;
    Some(Line::Setting(Setting::AnswerRequest(verdict)))
}

fn forward_no_line(word: &str) -> Option<Line>
    ensures { Fits (forward_no_form word.now) result }
{
    match word {
        "no" => Some(Line::Setting(Setting::AnswerForward(ForwardVerdict::No))),
        _ => None,
    }
}

fn forward_yes_line(alloc: Global, digits: &str) -> Result<Option<Line>, AllocError>
    ensures { IfOk result (Fits (forward_yes_form digits.now)) }
{
    let Some(port) = small_in(alloc, digits)? else {
        return Ok(None);
    };
    let verdict = ForwardVerdict::Yes(port);
    Ok(Some(Line::Setting(Setting::AnswerForward(verdict))))
}

fn forward_answer_line(alloc: Global, rest: &str) -> Result<Option<Line>, AllocError>
    ensures { IfOk result (Fits (forward_answer_form rest.now)) }
{
    match rest.split_once(' ') {
        Some(("yes", digits)) => forward_yes_line(alloc, digits),
        Some(_) => Ok(None),
        None => Ok(forward_no_line(rest)),
    }
}

/// The rest of a line `answer`.
fn answer_line(alloc: Global, rest: &str) -> Result<Option<Line>, AllocError>
    ensures { IfOk result (Fits (answer_form rest.now)) }
{
    match rest.split_once(' ') {
        Some(("banner", word)) => Ok(banner_line(word)),
        Some(("interactive", word)) => Ok(interactive_line(word)),
        Some(("open", word)) => Ok(open_line(word)),
        Some(("data", word)) => Ok(data_answer_line(word)),
        Some(("request", word)) => Ok(request_line(word)),
        Some(("forward", words)) => forward_answer_line(alloc, words),
        Some((name, word)) => Ok(verdict_line(name, word)),
        None => Ok(None),
    }
}

/// The rest of a line `config window`.
fn window_line(alloc: Global, digits: &str) -> Result<Option<Line>, AllocError>
    ensures { IfOk result (Fits (window_form digits.now)) }
{
    let Some(size) = small_in(alloc, digits)? else {
        return Ok(None);
    };
    Ok(Some(Line::Setting(Setting::Window(size))))
}

/// The rest of a line `config packet`.
fn packet_line(alloc: Global, digits: &str) -> Result<Option<Line>, AllocError>
    ensures { IfOk result (Fits (packet_form digits.now)) }
{
    let Some(size) = small_in(alloc, digits)? else {
        return Ok(None);
    };
    Ok(Some(Line::Setting(Setting::Packet(size))))
}

/// The rest of a line `config`, by another name.
fn number_line(alloc: Global, name: &str, digits: &str) -> Result<Option<Line>, AllocError>
    ensures { IfOk result (Fits (number_form name.now digits.now)) }
{
    let number = number_in(alloc, digits)?;
    match name {
        "attempts" => Ok(number.map(|count| Line::Setting(Setting::Attempts(count)))),
        "keepalive" => Ok(number.map(|count| Line::Setting(Setting::Keepalive(count)))),
        "rekey-write" => Ok(number.map(|bytes| Line::Setting(Setting::RekeyWrite(bytes)))),
        "rekey-read" => Ok(number.map(|bytes| Line::Setting(Setting::RekeyRead(bytes)))),
        "reject" => Ok(number.map(|time| Line::Setting(Setting::Reject(time)))),
        "reject-initial" => Ok(number.map(|time| Line::Setting(Setting::RejectInitial(time)))),
        _ => Ok(None),
    }
}

/// The rest of a line `config`.
fn config_line(alloc: Global, rest: &str) -> Result<Option<Line>, AllocError>
    ensures { IfOk result (Fits (config_form rest.now)) }
{
    let Some((name, digits)) = rest.split_once(' ') else {
        return Ok(None);
    };
    match name {
        "window" => window_line(alloc, digits),
        "packet" => packet_line(alloc, digits),
        _ => number_line(alloc, name, digits),
    }
}

/// The rest of a line `sign`.
fn sign_line(alloc: Global, rest: &str) -> Result<Option<Line>, AllocError>
    ensures { IfOk result (Fits (sign_form rest.now)) }
{
    let Some((key, rest)) = rest.split_once(' ') else {
        return Ok(None);
    };
    let Some((algorithm, rest)) = rest.split_once(' ') else {
        return Ok(None);
    };
    let Some((message, signature)) = rest.split_once(' ') else {
        return Ok(None);
    };
    let accepted = signature_in(alloc, key, algorithm, message, signature)?;
    Ok(accepted.map(|accepted| Line::Setting(Setting::Sign(accepted))))
}

/// The rest of a line `banner`.
fn banner_text_line(alloc: Global, digits: &str) -> Result<Option<Line>, AllocError>
    ensures { IfOk result (Fits (banner_text_form digits.now)) }
{
    let Some(text) = text_in(alloc, digits)? else {
        return Ok(None);
    };
    Ok(Some(Line::Setting(Setting::Banner(text))))
}

/// The rest of a line `tick`.
fn tick_line(word: &str) -> Option<Line>
    ensures { Fits (tick_form word.now) result }
{
    match word {
        "keepalive" => Some(Line::Input(InputLine::KeepaliveTick)),
        "inactivity" => Some(Line::Input(InputLine::InactivityTick)),
        "rekey" => Some(Line::Input(InputLine::RekeyTick)),
        _ => None,
    }
}

/// A line of more than one word.
fn word_line(alloc: Global, word: &str, rest: &str) -> Result<Option<Line>, AllocError>
    ensures { IfOk result (Fits (word_form word.now rest.now)) }
{
    match word {
        "session" => Ok(bytes_in(alloc, rest)?.map(|id| Line::Setting(Setting::Session(id)))),
        "inputs" => Ok(number_in(alloc, rest)?.map(|n| Line::Setting(Setting::Inputs(n)))),
        "banner" => banner_text_line(alloc, rest),
        "config" => config_line(alloc, rest),
        "answer" => answer_line(alloc, rest),
        "sign" => sign_line(alloc, rest),
        "at" => Ok(number_in(alloc, rest)?.map(|ms| Line::Input(InputLine::At(ms)))),
        "recv" => Ok(bytes_in(alloc, rest)?.map(|bytes| Line::Input(InputLine::Recv(bytes)))),
        "accept" => accept_line(alloc, rest),
        "reject" => reject_line(alloc, rest),
        "tick" => Ok(tick_line(rest)),
        _ => command_line(alloc, word, rest),
    }
}

/// What a line says; None where it is in no form.
pub(crate) fn read_line(alloc: Global, line: &[u8]) -> Result<Option<Line>, AllocError>
    ensures { IfOk result (Reads line.now) }
{
    if let [] | [b'#', ..] = line {
        return Ok(Some(Line::Passed));
    }
    let Ok(text) = str::from_utf8(line) else {
        return Ok(None);
    };
    match text.split_once(' ') {
        Some((word, rest)) => word_line(alloc, word, rest),
        None => Ok(lone_line(text)),
    }
}
