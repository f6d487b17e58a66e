// Requests of the peer on a channel, as they are read (RFC 4254 section 6).
ghost use Rattle.std.specs.Prelude.{◌≡◌, ℕ, Bool, Some, IfOk, IfErr};
ghost use Rattle.ssh_wire.specs.declared.error.WireError.TheVariants.{NoMemory};
ghost use Rattle.ssh_link.specs.declared.notice.ChannelMsg.TheVariants as msg;
ghost use Rattle.ssh_auth.specs.declared.question.Happening.TheVariants as what;
ghost use Rattle.ssh_channels.specs.Line.{is_established};
ghost use Rattle.ssh_channels.specs.Table.{has};
ghost use Rattle.ssh_rules.specs.Spelling.{IsRead};
ghost use Rattle.ssh_rules.specs.Messages.{request};
ghost use Rattle.ssh_rules.specs.ChannelRequests.{request_layout, request_named, signal_named};
ghost use Rattle.ssh_rules.specs.ChannelRequests.{to_the_end, terminal_request, request_said};
ghost use Rattle.ssh_rules.specs.ChannelRequests as known;

use crate::message::{
    Terminal, read_data, read_end, read_request, read_size, read_terminal, read_text, read_texts,
    read_x11,
};
use crate::terminal::read_modes;
use bytes::Bytes;
use ssh_auth::Happening;
use ssh_channels::Encrypted;
use ssh_link::ChannelMsg;
use ssh_rules::Spoken;
use ssh_wire::{ChannelId, Modes, Sig, Text, WireError};
use std::alloc::Global;

/// A request as far as all are alike: its channel, and whether a reply is wanted.
#[derive(Clone, Copy)]
struct ChannelRequestHead {
    /// Where memory is taken.
    alloc: Global,
    /// This side's number of the channel.
    channel: ChannelId,
    /// Whether a reply is wanted.
    wanted: bool,
}

/// What the user of the channel and the handler are told of a request.
type Told = (ChannelMsg, Happening);

/// The request says what is told of it, where there was memory for that.
fn requests(asking: ChannelRequestHead, told: Result<Told, WireError>) -> Result<Spoken, WireError>
    ensures { result ≡ request_said asking.channel asking.wanted told }
{
    match told {
        Ok((message, happening)) => Ok(Spoken::Requests(
            asking.channel,
            asking.wanted,
            message,
            happening,
        )),
        Err(e) => Err(e),
    }
}

/// A terminal is asked for (section 6.2).
fn terminal_told(
    asking: ChannelRequestHead,
    terminal: Terminal<'_>,
    modes: Modes,
) -> Result<Told, WireError>
    ensures ok { IfOk result (λ told. told ≡ (
      msg.RequestPty asking.wanted terminal.entry.term.now terminal.entry.col_width
          terminal.entry.row_height terminal.entry.pix_width terminal.entry.pix_height modes,
      what.PtyRequest terminal.entry.term.now terminal.entry.col_width terminal.entry.row_height
          terminal.entry.pix_width terminal.entry.pix_height modes,
    )) }
    ensures memory { IfErr result (λ e. e ≡ NoMemory) }
{
    let term = Text::new(asking.alloc, terminal.term)?;
    let message = ChannelMsg::RequestPty {
        want_reply: asking.wanted,
        term: term.copy()?,
        col_width: terminal.col_width,
        row_height: terminal.row_height,
        pix_width: terminal.pix_width,
        pix_height: terminal.pix_height,
        terminal_modes: modes.copy()?,
    };
    let happening = Happening::PtyRequest {
        term,
        col_width: terminal.col_width,
        row_height: terminal.row_height,
        pix_width: terminal.pix_width,
        pix_height: terminal.pix_height,
        modes,
    };
    Ok((message, happening))
}

/// X11 is to be forwarded (section 6.3.1).
fn x11_told(
    asking: ChannelRequestHead,
    single: bool,
    protocol: &str,
    cookie: &str,
    screen: u32,
) -> Result<Told, WireError>
    ensures ok { IfOk result (λ told. told ≡ (
      msg.RequestX11 asking.wanted single protocol.now cookie.now screen,
      what.X11Request single protocol.now cookie.now screen,
    )) }
    ensures memory { IfErr result (λ e. e ≡ NoMemory) }
{
    let x11_auth_protocol = Text::new(asking.alloc, protocol)?;
    let x11_auth_cookie = Text::new(asking.alloc, cookie)?;
    let message = ChannelMsg::RequestX11 {
        want_reply: asking.wanted,
        single_connection: single,
        x11_authentication_protocol: x11_auth_protocol.copy()?,
        x11_authentication_cookie: x11_auth_cookie.copy()?,
        x11_screen_number: screen,
    };
    let happening = Happening::X11Request {
        single_connection: single,
        x11_auth_protocol,
        x11_auth_cookie,
        x11_screen_number: screen,
    };
    Ok((message, happening))
}

/// A variable of the environment is set (section 6.4).
fn environment_told(asking: ChannelRequestHead, name: &str, value: &str) -> Result<Told, WireError>
    ensures ok { IfOk result (λ told. told ≡ (
      msg.SetEnv asking.wanted name.now value.now,
      what.EnvRequest name.now value.now,
    )) }
    ensures memory { IfErr result (λ e. e ≡ NoMemory) }
{
    let variable_name = Text::new(asking.alloc, name)?;
    let variable_value = Text::new(asking.alloc, value)?;
    let message = ChannelMsg::SetEnv {
        want_reply: asking.wanted,
        variable_name: variable_name.copy()?,
        variable_value: variable_value.copy()?,
    };
    let happening = Happening::EnvRequest {
        variable_name,
        variable_value,
    };
    Ok((message, happening))
}

/// A program is to be run (section 6.5).
fn exec_told(asking: ChannelRequestHead, command: &[u8]) -> Result<Told, WireError>
    ensures ok { IfOk result (λ told. told
        ≡ (msg.Exec asking.wanted command.now, what.ExecRequest command.now)) }
    ensures memory { IfErr result (λ e. e ≡ NoMemory) }
{
    let bytes = Bytes::copy_from_slice(asking.alloc, command)?;
    let message = ChannelMsg::Exec {
        want_reply: asking.wanted,
        command: bytes.clone()?,
    };
    Ok((message, Happening::ExecRequest { bytes }))
}

/// A subsystem is asked for (section 6.5).
fn subsystem_told(asking: ChannelRequestHead, name: &str) -> Result<Told, WireError>
    ensures ok { IfOk result (λ told. told
        ≡ (msg.RequestSubsystem asking.wanted name.now, what.SubsystemRequest name.now)) }
    ensures memory { IfErr result (λ e. e ≡ NoMemory) }
{
    let name = Text::new(asking.alloc, name)?;
    let message = ChannelMsg::RequestSubsystem {
        want_reply: asking.wanted,
        name: name.copy()?,
    };
    Ok((message, Happening::SubsystemRequest { name }))
}

/// The program is sent a signal (section 6.9).
fn signal_told(alloc: Global, name: &str) -> Result<Told, WireError>
    ensures ok { IfOk result (λ told. told
        ≡ (msg.Signal (signal_named name.now), what.Signal (signal_named name.now))) }
    ensures memory { IfErr result (λ e. e ≡ NoMemory) }
{
    let signal = Sig::from_name(alloc, name)?;
    let message = ChannelMsg::Signal {
        signal: signal.copy()?,
    };
    Ok((message, Happening::Signal { signal }))
}

fn request_terminal(asking: ChannelRequestHead, rest: &[u8]) -> Result<Spoken, WireError>
    ensures { IsRead (request_layout (Some known.terminal) asking.channel asking.wanted) rest.now result }
{
    match read_terminal(rest) {
        Ok((terminal, after)) => match read_modes(asking.alloc, terminal.modes) {
            Ok(modes) => request_with_modes(asking, terminal, modes, after),
            Err(e) => Err(e),
        },
        Err(e) => Err(e),
    }
}

/// Modes that are none are found before the end of the message is.
fn request_with_modes(
    asking: ChannelRequestHead,
    terminal: Terminal<'_>,
    modes: Option<Modes>,
    after: &[u8],
) -> Result<Spoken, WireError>
    ensures { IsRead (to_the_end (terminal_request asking.channel asking.wanted
        terminal.entry.term.now terminal.entry.col_width terminal.entry.row_height
        terminal.entry.pix_width terminal.entry.pix_height modes)) after.now result }
{
    match modes {
        Some(modes) => request_at_end(asking, terminal, modes, after),
        None => Ok(Spoken::Inconsistent),
    }
}

fn request_at_end(
    asking: ChannelRequestHead,
    terminal: Terminal<'_>,
    modes: Modes,
    after: &[u8],
) -> Result<Spoken, WireError>
    ensures { IsRead (to_the_end (terminal_request asking.channel asking.wanted
        terminal.entry.term.now terminal.entry.col_width terminal.entry.row_height
        terminal.entry.pix_width terminal.entry.pix_height (Some modes))) after.now result }
{
    match read_end(after) {
        Ok(()) => requests(asking, terminal_told(asking, terminal, modes)),
        Err(e) => {
            drop(modes);
            Err(e)
        }
    }
}

fn request_x11(asking: ChannelRequestHead, rest: &[u8]) -> Result<Spoken, WireError>
    ensures { IsRead (request_layout (Some known.x11) asking.channel asking.wanted) rest.now result }
{
    match read_x11(rest) {
        Ok((single, protocol, cookie, screen)) => {
            requests(asking, x11_told(asking, single, protocol, cookie, screen))
        }
        Err(e) => Err(e),
    }
}

fn request_environment(asking: ChannelRequestHead, rest: &[u8]) -> Result<Spoken, WireError>
    ensures { IsRead (request_layout (Some known.environment) asking.channel asking.wanted) rest.now
        result }
{
    match read_texts(rest) {
        Ok((name, value)) => requests(asking, environment_told(asking, name, value)),
        Err(e) => Err(e),
    }
}

fn request_shell(asking: ChannelRequestHead, rest: &[u8]) -> Result<Spoken, WireError>
    ensures { IsRead (request_layout (Some known.shell) asking.channel asking.wanted) rest.now result }
{
    let message = ChannelMsg::RequestShell {
        want_reply: asking.wanted,
    };
    match read_end(rest) {
        Ok(()) => requests(asking, Ok((message, Happening::ShellRequest))),
        Err(e) => {
            drop(message);
            Err(e)
        }
    }
}

fn request_exec(asking: ChannelRequestHead, rest: &[u8]) -> Result<Spoken, WireError>
    ensures { IsRead (request_layout (Some known.exec) asking.channel asking.wanted) rest.now result }
{
    let command = read_data(rest)?;
    requests(asking, exec_told(asking, command))
}

fn request_subsystem(asking: ChannelRequestHead, rest: &[u8]) -> Result<Spoken, WireError>
    ensures { IsRead (request_layout (Some known.subsystem) asking.channel asking.wanted) rest.now
        result }
{
    let name = read_text(rest)?;
    requests(asking, subsystem_told(asking, name))
}

fn request_window_change(asking: ChannelRequestHead, rest: &[u8]) -> Result<Spoken, WireError>
    ensures { IsRead (request_layout (Some known.window_change) asking.channel asking.wanted) rest.now
        result }
{
    match read_size(rest) {
        Ok((col_width, row_height, pix_width, pix_height)) => {
            let message = ChannelMsg::WindowChange {
                col_width,
                row_height,
                pix_width,
                pix_height,
            };
            let happening = Happening::WindowChangeRequest {
                col_width,
                row_height,
                pix_width,
                pix_height,
            };
            requests(asking, Ok((message, happening)))
        }
        Err(e) => Err(e),
    }
}

fn request_signal(asking: ChannelRequestHead, rest: &[u8]) -> Result<Spoken, WireError>
    ensures { IsRead (request_layout (Some known.signal) asking.channel asking.wanted) rest.now result }
{
    let name = read_text(rest)?;
    requests(asking, signal_told(asking.alloc, name))
}

fn request_agent(asking: ChannelRequestHead, rest: &[u8]) -> Result<Spoken, WireError>
    ensures { IsRead (request_layout (Some known.agent) asking.channel asking.wanted) rest.now result }
{
    match read_end(rest) {
        Ok(()) => Ok(Spoken::RequestsAgent(asking.channel, asking.wanted)),
        Err(e) => Err(e),
    }
}

/// What a request of this name says: one line a request. Of one that is not known nothing is read.
fn channel_request(asking: ChannelRequestHead, name: &str, rest: &[u8]) -> Result<Spoken, WireError>
    ensures { IsRead (request_layout (request_named name.now) asking.channel asking.wanted) rest.now
        result }
{
    match name {
        "pty-req" => request_terminal(asking, rest),
        "x11-req" => request_x11(asking, rest),
        "env" => request_environment(asking, rest),
        "shell" => request_shell(asking, rest),
        "exec" => request_exec(asking, rest),
        "subsystem" => request_subsystem(asking, rest),
        "window-change" => request_window_change(asking, rest),
        "signal" => request_signal(asking, rest),
        "auth-agent-req@openssh.com" => request_agent(asking, rest),
        _ => Ok(Spoken::RequestsUnknown(asking.channel, asking.wanted)),
    }
}

/// CHANNEL_REQUEST (section 5.4). On no channel nothing behind its flag is read.
pub fn request_message(alloc: Global, table: &Encrypted, fields: &[u8]) -> Result<Spoken, WireError>
    ensures { (there : ℕ → Bool) → ((n : ℕ) → has is_established n table.now ≡ there n) →
        IsRead (request there) fields.now result }
{
    let asked = read_request(fields)?;
    let asking = ChannelRequestHead {
        alloc,
        channel: asked.channel,
        wanted: asked.wanted,
    };
    if !table.is_established(asked.channel) {
        return Ok(Spoken::Nothing);
    }
    channel_request(asking, asked.name, asked.rest)
}
