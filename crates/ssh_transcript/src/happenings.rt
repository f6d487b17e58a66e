// What happens on a channel, as its callback and as its notice are printed: an arm for each.
ghost use Rattle.std.specs.Prelude.{◌≡◌, IfOk};
ghost use Rattle.ssh_transcript.specs.Words.{named_by};
ghost use Rattle.ssh_transcript.specs.Happenings.{happened_words, msg_words};

use crate::argument::Argument::{Bytes, Flag, Modes, Number, Reason, Signal, Text};
use crate::argument::{Said, says};
use ssh_auth::Happening;
use ssh_link::ChannelMsg;
use std::alloc::{AllocError, Global};

/// The callback of what happens on a channel.
pub(crate) fn happened_words<'a>(
    alloc: Global,
    happening: &'a Happening,
) -> Result<Said<'a>, AllocError>
    ensures { IfOk result (λ said. named_by said ≡ happened_words happening.now) }
{
    match happening {
        Happening::Confirmed {
            max_packet_size,
            window_size,
        } => says(
            alloc,
            "channel_open_confirmation",
            &[Number(*max_packet_size as u64), Number(*window_size as u64)],
        ),
        Happening::Data { bytes } => says(alloc, "data", &[Bytes(bytes)]),
        Happening::ExtendedData { code, bytes } => says(
            alloc,
            "extended_data",
            &[Number(*code as u64), Bytes(bytes)],
        ),
        Happening::Eof => says(alloc, "channel_eof", &[]),
        Happening::Close => says(alloc, "channel_close", &[]),
        Happening::WindowAdjusted { new_size } => {
            says(alloc, "window_adjusted", &[Number(*new_size as u64)])
        }
        Happening::PtyRequest {
            term,
            col_width,
            row_height,
            pix_width,
            pix_height,
            modes,
        } => says(
            alloc,
            "pty_request",
            &[
                Text(term),
                Number(*col_width as u64),
                Number(*row_height as u64),
                Number(*pix_width as u64),
                Number(*pix_height as u64),
                Modes(modes),
            ],
        ),
        Happening::X11Request {
            single_connection,
            x11_auth_protocol,
            x11_auth_cookie,
            x11_screen_number,
        } => says(
            alloc,
            "x11_request",
            &[
                Flag(*single_connection),
                Text(x11_auth_protocol),
                Text(x11_auth_cookie),
                Number(*x11_screen_number as u64),
            ],
        ),
        Happening::EnvRequest {
            variable_name,
            variable_value,
        } => says(
            alloc,
            "env_request",
            &[Text(variable_name), Text(variable_value)],
        ),
        Happening::ShellRequest => says(alloc, "shell_request", &[]),
        Happening::ExecRequest { bytes } => says(alloc, "exec_request", &[Bytes(bytes)]),
        Happening::SubsystemRequest { name } => says(alloc, "subsystem_request", &[Text(name)]),
        Happening::WindowChangeRequest {
            col_width,
            row_height,
            pix_width,
            pix_height,
        } => says(
            alloc,
            "window_change_request",
            &[
                Number(*col_width as u64),
                Number(*row_height as u64),
                Number(*pix_width as u64),
                Number(*pix_height as u64),
            ],
        ),
        Happening::Signal { signal } => says(alloc, "signal", &[Signal(signal)]),
    }
}

/// The notice of what happened on a channel.
pub(crate) fn msg_words<'a>(alloc: Global, msg: &'a ChannelMsg) -> Result<Said<'a>, AllocError>
    ensures { IfOk result (λ said. named_by said ≡ msg_words msg.now) }
{
    match msg {
        ChannelMsg::Open {
            id,
            max_packet_size,
            window_size,
        } => says(
            alloc,
            "Open",
            &[
                Number(id.0 as u64),
                Number(*max_packet_size as u64),
                Number(*window_size as u64),
            ],
        ),
        ChannelMsg::OpenFailure(reason) => says(alloc, "OpenFailure", &[Reason(*reason)]),
        ChannelMsg::Data { bytes } => says(alloc, "Data", &[Bytes(bytes)]),
        ChannelMsg::ExtendedData { bytes, ext } => {
            says(alloc, "ExtendedData", &[Bytes(bytes), Number(*ext as u64)])
        }
        ChannelMsg::Eof => says(alloc, "Eof", &[]),
        ChannelMsg::Close => says(alloc, "Close", &[]),
        ChannelMsg::Success => says(alloc, "Success", &[]),
        ChannelMsg::Failure => says(alloc, "Failure", &[]),
        ChannelMsg::WindowAdjusted { new_size } => {
            says(alloc, "WindowAdjusted", &[Number(*new_size as u64)])
        }
        ChannelMsg::RequestPty {
            want_reply,
            term,
            col_width,
            row_height,
            pix_width,
            pix_height,
            terminal_modes,
        } => says(
            alloc,
            "RequestPty",
            &[
                Flag(*want_reply),
                Text(term),
                Number(*col_width as u64),
                Number(*row_height as u64),
                Number(*pix_width as u64),
                Number(*pix_height as u64),
                Modes(terminal_modes),
            ],
        ),
        ChannelMsg::RequestShell { want_reply } => {
            says(alloc, "RequestShell", &[Flag(*want_reply)])
        }
        ChannelMsg::Exec {
            want_reply,
            command,
        } => says(alloc, "Exec", &[Flag(*want_reply), Bytes(command)]),
        ChannelMsg::Signal { signal } => says(alloc, "Signal", &[Signal(signal)]),
        ChannelMsg::RequestSubsystem { want_reply, name } => {
            says(alloc, "RequestSubsystem", &[Flag(*want_reply), Text(name)])
        }
        ChannelMsg::RequestX11 {
            want_reply,
            single_connection,
            x11_authentication_protocol,
            x11_authentication_cookie,
            x11_screen_number,
        } => says(
            alloc,
            "RequestX11",
            &[
                Flag(*want_reply),
                Flag(*single_connection),
                Text(x11_authentication_protocol),
                Text(x11_authentication_cookie),
                Number(*x11_screen_number as u64),
            ],
        ),
        ChannelMsg::SetEnv {
            want_reply,
            variable_name,
            variable_value,
        } => says(
            alloc,
            "SetEnv",
            &[Flag(*want_reply), Text(variable_name), Text(variable_value)],
        ),
        ChannelMsg::WindowChange {
            col_width,
            row_height,
            pix_width,
            pix_height,
        } => says(
            alloc,
            "WindowChange",
            &[
                Number(*col_width as u64),
                Number(*row_height as u64),
                Number(*pix_width as u64),
                Number(*pix_height as u64),
            ],
        ),
        ChannelMsg::AgentForward { want_reply } => {
            says(alloc, "AgentForward", &[Flag(*want_reply)])
        }
        ChannelMsg::XonXoff { client_can_do } => says(alloc, "XonXoff", &[Flag(*client_can_do)]),
        ChannelMsg::ExitStatus { exit_status } => {
            says(alloc, "ExitStatus", &[Number(*exit_status as u64)])
        }
        ChannelMsg::ExitSignal {
            signal_name,
            core_dumped,
            error_message,
            lang_tag,
        } => says(
            alloc,
            "ExitSignal",
            &[
                Signal(signal_name),
                Flag(*core_dumped),
                Text(error_message),
                Text(lang_tag),
            ],
        ),
    }
}
