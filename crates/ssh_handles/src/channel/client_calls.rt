// The same for requests that only a client sends.
use super::Channel;
use bytes::Bytes;
use ssh_hub::HandleError;
use ssh_wire::{Pty, Sig, Text};
use std::alloc::Global;
use std::sync::Wait;

impl Channel {
    ghost use Rattle.std.specs.Prelude.{◌≡◌, false};
    ghost use Rattle.ssh_link.specs.declared.command.Command.TheVariants.{ClientOnly};
    ghost use Rattle.ssh_link.specs.declared.notice.ChannelMsg.TheVariants.{
      RequestPty,
      RequestShell,
      Exec,
      Signal,
      RequestSubsystem,
      RequestX11,
      SetEnv,
      WindowChange,
      AgentForward,
    };
    ghost use Rattle.ssh_handles.specs.Callers.{IsPut};
    ghost use Rattle.ssh_handles.specs.Handles.{writer_view, writer_id, OnlyWrites, IsAsked};

    /// `ChannelWriteHalf::request_pty` of the half that writes.
    pub fn request_pty<R: Wait>(
        &mut self,
        rt: &R,
        alloc: Global,
        want_reply: bool,
        term: Text,
        col_width: u32,
        row_height: u32,
        pix_width: u32,
        pix_height: u32,
        terminal_modes: &[(Pty, u32)],
    ) -> Result<u64, HandleError>
        ensures half { OnlyWrites self.old self.new }
        ensures entries { IsAsked (ClientOnly (writer_id self.old.write) (RequestPty want_reply
            term col_width row_height pix_width pix_height terminal_modes.now)) (writer_view
            self.old.write) result (writer_view self.new.write) }
    {
        self.write.request_pty(
            rt,
            alloc,
            want_reply,
            term,
            col_width,
            row_height,
            pix_width,
            pix_height,
            terminal_modes,
        )
    }

    /// `ChannelWriteHalf::request_shell` of the half that writes.
    pub fn request_shell<R: Wait>(&mut self, rt: &R, want_reply: bool) -> Result<u64, HandleError>
        ensures half { OnlyWrites self.old self.new }
        ensures entries { IsPut (ClientOnly (writer_id self.old.write) (RequestShell
            want_reply)) 0 false (writer_view self.old.write) result (writer_view
            self.new.write) }
    {
        self.write.request_shell(rt, want_reply)
    }

    /// `ChannelWriteHalf::exec` of the half that writes.
    pub fn exec<R: Wait>(
        &mut self,
        rt: &R,
        want_reply: bool,
        command: Bytes,
    ) -> Result<u64, HandleError>
        ensures half { OnlyWrites self.old self.new }
        ensures entries { IsPut (ClientOnly (writer_id self.old.write) (Exec want_reply
            command)) 0 false (writer_view self.old.write) result (writer_view self.new.write) }
    {
        self.write.exec(rt, want_reply, command)
    }

    /// `ChannelWriteHalf::signal` of the half that writes.
    pub fn signal<R: Wait>(&mut self, rt: &R, signal: Sig) -> Result<u64, HandleError>
        ensures half { OnlyWrites self.old self.new }
        ensures entries { IsPut (ClientOnly (writer_id self.old.write) (Signal signal)) 0 false
            (writer_view self.old.write) result (writer_view self.new.write) }
    {
        self.write.signal(rt, signal)
    }

    /// `ChannelWriteHalf::request_subsystem` of the half that writes.
    pub fn request_subsystem<R: Wait>(
        &mut self,
        rt: &R,
        want_reply: bool,
        name: Text,
    ) -> Result<u64, HandleError>
        ensures half { OnlyWrites self.old self.new }
        ensures entries { IsPut (ClientOnly (writer_id self.old.write) (RequestSubsystem
            want_reply name)) 0 false (writer_view self.old.write) result (writer_view
            self.new.write) }
    {
        self.write.request_subsystem(rt, want_reply, name)
    }

    /// `ChannelWriteHalf::request_x11` of the half that writes.
    pub fn request_x11<R: Wait>(
        &mut self,
        rt: &R,
        want_reply: bool,
        single_connection: bool,
        x11_authentication_protocol: Text,
        x11_authentication_cookie: Text,
        x11_screen_number: u32,
    ) -> Result<u64, HandleError>
        ensures half { OnlyWrites self.old self.new }
        ensures entries { IsPut (ClientOnly (writer_id self.old.write) (RequestX11 want_reply
            single_connection x11_authentication_protocol x11_authentication_cookie
            x11_screen_number)) 0 false (writer_view self.old.write) result (writer_view
            self.new.write) }
    {
        self.write.request_x11(
            rt,
            want_reply,
            single_connection,
            x11_authentication_protocol,
            x11_authentication_cookie,
            x11_screen_number,
        )
    }

    /// `ChannelWriteHalf::set_env` of the half that writes.
    pub fn set_env<R: Wait>(
        &mut self,
        rt: &R,
        want_reply: bool,
        variable_name: Text,
        variable_value: Text,
    ) -> Result<u64, HandleError>
        ensures half { OnlyWrites self.old self.new }
        ensures entries { IsPut (ClientOnly (writer_id self.old.write) (SetEnv want_reply
            variable_name variable_value)) 0 false (writer_view self.old.write) result
            (writer_view self.new.write) }
    {
        self.write
            .set_env(rt, want_reply, variable_name, variable_value)
    }

    /// `ChannelWriteHalf::window_change` of the half that writes.
    pub fn window_change<R: Wait>(
        &mut self,
        rt: &R,
        col_width: u32,
        row_height: u32,
        pix_width: u32,
        pix_height: u32,
    ) -> Result<u64, HandleError>
        ensures half { OnlyWrites self.old self.new }
        ensures entries { IsPut (ClientOnly (writer_id self.old.write) (WindowChange col_width
            row_height pix_width pix_height)) 0 false (writer_view self.old.write) result
            (writer_view self.new.write) }
    {
        self.write
            .window_change(rt, col_width, row_height, pix_width, pix_height)
    }

    /// `ChannelWriteHalf::agent_forward` of the half that writes.
    pub fn agent_forward<R: Wait>(&mut self, rt: &R, want_reply: bool) -> Result<u64, HandleError>
        ensures half { OnlyWrites self.old self.new }
        ensures entries { IsPut (ClientOnly (writer_id self.old.write) (AgentForward
            want_reply)) 0 false (writer_view self.old.write) result (writer_view
            self.new.write) }
    {
        self.write.agent_forward(rt, want_reply)
    }
}
