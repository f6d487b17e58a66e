// The lines of a gateway's script that name hosts.
ghost use Rattle.std.specs.Prelude.{◌≡◌, IfOk, option_map};
ghost use Rattle.ssh_scene.specs.Grammar.{cut};
ghost use Rattle.ssh_scene_gateway.specs.HostLines.{FitsHost, allow_words, target_words};
ghost use Rattle.ssh_scene_gateway.specs.HostLines.{target_form, host_form, host_word};
ghost use Rattle.ssh_scene_gateway.specs.GatewayScene.{IsHostLine};

use crate::targets::ScriptHost;
use ssh_scene::{bytes_in, small_in, text_in};
use ssh_wire::Text;
use std::alloc::{AllocError, Global};

/// What such a line says of a host and a port of it.
#[derive(Drop)]
pub(crate) enum HostLine {
    /// Every user may reach it.
    Allow(Text, u32),
    /// It can be reached, and gives these bytes and then the end.
    Target(ScriptHost),
}

/// The rest of a line `allow`: a host, and a port.
fn allow_line(alloc: Global, rest: &str) -> Result<Option<HostLine>, AllocError>
    ensures { IfOk result (FitsHost (allow_words (cut rest.now))) }
{
    let Some((digits, number)) = rest.split_once(' ') else {
        return Ok(None);
    };
    let Some(host) = text_in(alloc, digits)? else {
        return Ok(None);
    };
    let Some(port) = small_in(alloc, number)? else {
        return Ok(None);
    };
    Ok(Some(HostLine::Allow(host, port)))
}

/// The rest of a line `target` behind its host: a port, and bytes.
fn target_of(alloc: Global, host: Text, rest: &str) -> Result<Option<HostLine>, AllocError>
    ensures { IfOk result (FitsHost (target_words host (cut rest.now))) }
{
    let Some((number, digits)) = rest.split_once(' ') else {
        return Ok(None);
    };
    let Some(port) = small_in(alloc, number)? else {
        return Ok(None);
    };
    let Some(bytes) = bytes_in(alloc, digits)? else {
        return Ok(None);
    };
    Ok(Some(HostLine::Target(ScriptHost { host, port, bytes })))
}

/// The rest of a line `target`: a host, a port, and bytes.
fn target_line(alloc: Global, rest: &str) -> Result<Option<HostLine>, AllocError>
    ensures { IfOk result (FitsHost (target_form (cut rest.now))) }
{
    let Some((digits, words)) = rest.split_once(' ') else {
        return Ok(None);
    };
    match text_in(alloc, digits)? {
        Some(host) => target_of(alloc, host, words),
        None => Ok(None),
    }
}

/// What a line says that begins with this word; None where it is bad.
pub(crate) fn host_line(
    alloc: Global,
    word: HostWord,
    rest: &str,
) -> Result<Option<HostLine>, AllocError>
    ensures { IfOk result (FitsHost (host_form word rest.now)) }
{
    match word {
        HostWord::Allow => allow_line(alloc, rest),
        HostWord::Target => target_line(alloc, rest),
    }
}

/// The words by which such lines begin.
#[derive(Clone, Copy, Debug, PartialEq, Eq)]
pub(crate) enum HostWord {
    /// `allow`.
    Allow,
    /// `target`.
    Target,
}

fn host_word(word: &str) -> Option<HostWord>
    ensures { result ≡ host_word word.now }
{
    match word {
        "allow" => Some(HostWord::Allow),
        "target" => Some(HostWord::Target),
        _ => None,
    }
}

/// The word by which a line begins, and what stands behind it, where it names a host.
pub(crate) fn host_words(line: &[u8]) -> Option<(HostWord, &str)>
    ensures { IsHostLine line.now (option_map (λ pair. (pair.0, pair.1.now)) result) }
{
    let Ok(text) = str::from_utf8(line) else {
        return None;
    };
    match text.split_once(' ') {
        Some((word, rest)) => match host_word(word) {
            Some(word) => Some((word, rest)),
            None => None,
        },
        None => None,
    }
}
