// Requests that only a client sends: a session of a server refuses each of them.
ghost use Rattle.std.specs.Prelude.{◌≡◌, IfOk, IfErr};
ghost use Rattle.ssh_hub.specs.declared.answers.HandleError.TheVariants.{NoMemory};

use super::ChannelWriteHalf;
use bytes::Bytes;
use ssh_hub::HandleError;
use ssh_link::{ChannelMsg, Command};
use ssh_wire::{Modes, Pty, Sig, Text};
use std::alloc::Global;
use std::sync::Wait;

impl ChannelWriteHalf {
    ghost use Rattle.std.specs.Prelude.{◌≡◌, false};
    ghost use Rattle.ssh_link.specs.declared.command.Command.TheVariants.{ClientOnly};
    ghost use Rattle.ssh_link.specs.declared.notice.ChannelMsg.TheVariants.{
      RequestPty,
      RequestShell,
      Exec,
      Signal,
      RequestSubsystem,
      RequestX11,
      SetEnv,
      WindowChange,
      AgentForward,
    };
    ghost use Rattle.ssh_handles.specs.Callers.{IsPut};
    ghost use Rattle.ssh_handles.specs.Handles.{writer_hub, writer_view, writer_id, IsAsked};

    // Puts a message that only a client sends.
    fn ask<R: Wait>(&mut self, rt: &R, msg: ChannelMsg) -> Result<u64, HandleError>
        ensures hub { writer_hub self.new ≡ writer_hub self.old }
        ensures id { writer_id self.new ≡ writer_id self.old }
        ensures entries { IsPut (ClientOnly (writer_id self.old)
            (msg)) 0 false (writer_view self.old) result
            (writer_view self.new) }
    {
        let msg = Command::ClientOnly {
            channel: self.channel,
            msg,
        };
        self.caller.ticket(rt, msg, false)
    }

    /// For clients: asks for a terminal (RFC 4254 section 6.2). `Ended` or `NoMemory`.
    pub fn request_pty<R: Wait>(
        &mut self,
        rt: &R,
        alloc: Global,
        want_reply: bool,
        term: Text,
        col_width: u32,
        row_height: u32,
        pix_width: u32,
        pix_height: u32,
        terminal_modes: &[(Pty, u32)],
    ) -> Result<u64, HandleError>
        ensures hub { writer_hub self.new ≡ writer_hub self.old }
        ensures id { writer_id self.new ≡ writer_id self.old }
        ensures entries { IsAsked (ClientOnly (writer_id self.old)
            (RequestPty want_reply term col_width row_height pix_width pix_height
            terminal_modes.now)) (writer_view self.old) result (writer_view self.new) }
    {
        let terminal_modes = match modes_of(alloc, terminal_modes) {
            Ok(modes) => modes,
            Err(e) => {
                drop(term);
                return Err(e);
            }
        };
        self.ask(
            rt,
            ChannelMsg::RequestPty {
                want_reply,
                term,
                col_width,
                row_height,
                pix_width,
                pix_height,
                terminal_modes,
            },
        )
    }

    /// For clients: asks for a shell (RFC 4254 section 6.5). `Ended` is the only error, as of the
    /// calls below.
    pub fn request_shell<R: Wait>(&mut self, rt: &R, want_reply: bool) -> Result<u64, HandleError>
        ensures hub { writer_hub self.new ≡ writer_hub self.old }
        ensures id { writer_id self.new ≡ writer_id self.old }
        ensures entries { IsPut (ClientOnly (writer_id self.old)
            (RequestShell want_reply)) 0 false (writer_view self.old) result
            (writer_view self.new) }
    {
        self.ask(rt, ChannelMsg::RequestShell { want_reply })
    }

    /// For clients: asks to run this command (RFC 4254 section 6.5).
    pub fn exec<R: Wait>(
        &mut self,
        rt: &R,
        want_reply: bool,
        command: Bytes,
    ) -> Result<u64, HandleError>
        ensures hub { writer_hub self.new ≡ writer_hub self.old }
        ensures id { writer_id self.new ≡ writer_id self.old }
        ensures entries { IsPut (ClientOnly (writer_id self.old)
            (Exec want_reply command)) 0 false (writer_view self.old) result
            (writer_view self.new) }
    {
        self.ask(
            rt,
            ChannelMsg::Exec {
                want_reply,
                command,
            },
        )
    }

    /// For clients: sends a signal to the program (RFC 4254 section 6.9).
    pub fn signal<R: Wait>(&mut self, rt: &R, signal: Sig) -> Result<u64, HandleError>
        ensures hub { writer_hub self.new ≡ writer_hub self.old }
        ensures id { writer_id self.new ≡ writer_id self.old }
        ensures entries { IsPut (ClientOnly (writer_id self.old)
            (Signal signal)) 0 false (writer_view self.old) result
            (writer_view self.new) }
    {
        self.ask(rt, ChannelMsg::Signal { signal })
    }

    /// For clients: asks for a subsystem (RFC 4254 section 6.5).
    pub fn request_subsystem<R: Wait>(
        &mut self,
        rt: &R,
        want_reply: bool,
        name: Text,
    ) -> Result<u64, HandleError>
        ensures hub { writer_hub self.new ≡ writer_hub self.old }
        ensures id { writer_id self.new ≡ writer_id self.old }
        ensures entries { IsPut (ClientOnly (writer_id self.old)
            (RequestSubsystem want_reply name)) 0 false (writer_view self.old) result
            (writer_view self.new) }
    {
        self.ask(rt, ChannelMsg::RequestSubsystem { want_reply, name })
    }

    /// For clients: asks to forward X11 (RFC 4254 section 6.3.1).
    pub fn request_x11<R: Wait>(
        &mut self,
        rt: &R,
        want_reply: bool,
        single_connection: bool,
        x11_authentication_protocol: Text,
        x11_authentication_cookie: Text,
        x11_screen_number: u32,
    ) -> Result<u64, HandleError>
        ensures hub { writer_hub self.new ≡ writer_hub self.old }
        ensures id { writer_id self.new ≡ writer_id self.old }
        ensures entries { IsPut (ClientOnly (writer_id self.old)
            (RequestX11 want_reply single_connection x11_authentication_protocol
            x11_authentication_cookie x11_screen_number)) 0 false (writer_view self.old) result
            (writer_view self.new) }
    {
        self.ask(
            rt,
            ChannelMsg::RequestX11 {
                want_reply,
                single_connection,
                x11_authentication_protocol,
                x11_authentication_cookie,
                x11_screen_number,
            },
        )
    }

    /// For clients: sets a variable of the environment (RFC 4254 section 6.4).
    pub fn set_env<R: Wait>(
        &mut self,
        rt: &R,
        want_reply: bool,
        variable_name: Text,
        variable_value: Text,
    ) -> Result<u64, HandleError>
        ensures hub { writer_hub self.new ≡ writer_hub self.old }
        ensures id { writer_id self.new ≡ writer_id self.old }
        ensures entries { IsPut (ClientOnly (writer_id self.old)
            (SetEnv want_reply variable_name variable_value)) 0 false (writer_view self.old) result
            (writer_view self.new) }
    {
        self.ask(
            rt,
            ChannelMsg::SetEnv {
                want_reply,
                variable_name,
                variable_value,
            },
        )
    }

    /// For clients: the terminal has another size (RFC 4254 section 6.7).
    pub fn window_change<R: Wait>(
        &mut self,
        rt: &R,
        col_width: u32,
        row_height: u32,
        pix_width: u32,
        pix_height: u32,
    ) -> Result<u64, HandleError>
        ensures hub { writer_hub self.new ≡ writer_hub self.old }
        ensures id { writer_id self.new ≡ writer_id self.old }
        ensures entries { IsPut (ClientOnly (writer_id self.old)
            (WindowChange col_width row_height pix_width pix_height)) 0 false
            (writer_view self.old) result (writer_view self.new) }
    {
        self.ask(
            rt,
            ChannelMsg::WindowChange {
                col_width,
                row_height,
                pix_width,
                pix_height,
            },
        )
    }

    /// For clients: asks that the agent may be reached (OpenSSH's
    /// `auth-agent-req@openssh.com`).
    pub fn agent_forward<R: Wait>(&mut self, rt: &R, want_reply: bool) -> Result<u64, HandleError>
        ensures hub { writer_hub self.new ≡ writer_hub self.old }
        ensures id { writer_id self.new ≡ writer_id self.old }
        ensures entries { IsPut (ClientOnly (writer_id self.old)
            (AgentForward want_reply)) 0 false (writer_view self.old) result
            (writer_view self.new) }
    {
        self.ask(rt, ChannelMsg::AgentForward { want_reply })
    }
}

// These modes, in order.
fn modes_of(alloc: Global, items: &[(Pty, u32)]) -> Result<Modes, HandleError>
    ensures ok { IfOk result (λ modes. modes ≡ items.now) }
    ensures memory { IfErr result (λ e. e ≡ NoMemory) }
{
    let mut modes = Modes::new(alloc);
    for item in items {
        if modes.push(*item).is_err() {
            return Err(HandleError::NoMemory);
        }
    }
    Ok(modes)
}
