// A handle on a session, and its calls that put one command.
ghost use Rattle.std.specs.Prelude.{◌≡◌};

use crate::caller::Caller;
use crate::channel::Channel;
use crate::gate::NoGate;
use crate::poll::PutError;
use crate::tags::bytes_of;
use bytes::Bytes;
use ssh_hub::{HandleError, HubLock, Seat};
use ssh_link::{Command, OpenAnswer, Refusal};
use ssh_wire::{ChannelId, Disconnect, Sig, Text};
use std::sync::{Arc, Wait};

mod forwards;
mod opens;

/// A handle on a session that others use too: it puts commands for the session and opens channels.
#[derive(Drop)]
pub struct Handle {
    caller: Caller,
}

impl Handle {
    ghost use Rattle.std.specs.Prelude.{false, None, Some, IfOk, IfErr, OnErr};
    ghost use Rattle.std.specs.Arc.{arc_value};
    ghost use Rattle.ssh_hub.specs.Words.{view_of, IsSeatOf, Makes};
    ghost use Rattle.ssh_hub.specs.declared.answers.HandleError.TheVariants.{NoMemory};
    ghost use Rattle.ssh_hub.specs.declared.history.HubCall.TheVariants.{AskRefusal};
    ghost use Rattle.ssh_hub.specs.declared.history.HubReply.TheVariants.{RefusalIs};
    ghost use Rattle.ssh_handles.specs.Callers.{IsPut, IsReplyPut};
    ghost use Rattle.ssh_handles.specs.Parts.{MakesSeat};
    ghost use Rattle.ssh_handles.specs.DataCommands.{bytes_in};
    ghost use Rattle.ssh_handles.specs.Handles.{handle_hub, handle_view, without_bytes};
    ghost use Rattle.ssh_link.specs.declared.command.Command.TheVariants.{
      Data,
      ExtendedData,
      Eof,
      Close,
      ChannelSuccess,
      ChannelFailure,
      XonXoff,
      ExitStatus,
      ExitSignal,
      Disconnect as EndsConnection,
    };

    /// A handle with this seat of the hub.
    pub fn new(lock: Arc<HubLock>, seat: Seat) -> Handle
        requires { IsSeatOf (arc_value lock) seat }
        ensures hub { handle_hub result ≡ arc_value lock }
        ensures seat { handle_view result ≡ view_of seat }
    {
        Handle {
            caller: Caller::new(lock, seat),
        }
    }

    /// Another handle on the same session. `NoMemory` is the only error.
    pub fn clone_handle<R: Wait>(&mut self, rt: &R) -> Result<Handle, HandleError>
        ensures hub { handle_hub self.new ≡ handle_hub self.old }
        ensures made { IfOk result (λ h. MakesSeat (handle_view self.old) (handle_view self.new)
            (handle_view h)) }
        ensures made_hub { IfOk result (λ h. handle_hub h ≡ handle_hub self.old) }
        ensures memory { IfErr result (λ e. e ≡ NoMemory) }
        ensures none { OnErr result (handle_view self.new ≡ handle_view self.old) }
    {
        let caller = self.caller.twin(rt)?;
        Ok(Handle { caller })
    }

    /// The seat of the handle, which makes no call in this.
    pub fn into_seat(self) -> Seat
        ensures seat { IsSeatOf (handle_hub self) result }
        ensures view { view_of result ≡ handle_view self }
    {
        self.caller.into_seat()
    }

    /// The newest refusal of a command of this handle: its ticket, and why it was refused.
    pub fn refusal<R: Wait>(&mut self, rt: &R) -> Option<(u64, Refusal)>
        ensures hub { handle_hub self.new ≡ handle_hub self.old }
        ensures entries { Makes (handle_view self.old) AskRefusal (RefusalIs result)
            (handle_view self.new) }
    {
        let caller = &mut self.caller;
        caller.lock.refusal(rt, &mut caller.seat)
    }

    /// Sends these bytes on the channel (RFC 4254 section 5.2), whatever its window: what the peer
    /// does not take yet waits in the session. After `Ended`, the only cause of an error, the bytes
    /// come back.
    pub fn data<R: Wait>(&mut self, rt: &R, id: ChannelId, bytes: Bytes) -> Result<u64, PutError>
        ensures hub { handle_hub self.new ≡ handle_hub self.old }
        ensures entries { IsPut (Data id bytes) 0 false (handle_view self.old)
            (without_bytes result) (handle_view self.new) }
        ensures back { IfErr result (λ e. e.bytes ≡ bytes) }
    {
        let msg = Command::Data { channel: id, bytes };
        self.put_bytes(rt, msg)
    }

    /// The same for data of another type (RFC 4254 section 5.2); 1 is standard error.
    pub fn extended_data<R: Wait>(
        &mut self,
        rt: &R,
        id: ChannelId,
        ext: u32,
        bytes: Bytes,
    ) -> Result<u64, PutError>
        ensures hub { handle_hub self.new ≡ handle_hub self.old }
        ensures entries { IsPut (ExtendedData id ext bytes) 0 false (handle_view self.old)
            (without_bytes result) (handle_view self.new) }
        ensures back { IfErr result (λ e. e.bytes ≡ bytes) }
    {
        let msg = Command::ExtendedData {
            channel: id,
            ext,
            bytes,
        };
        self.put_bytes(rt, msg)
    }

    fn put_bytes<R: Wait>(&mut self, rt: &R, msg: Command) -> Result<u64, PutError>
        ensures hub { handle_hub self.new ≡ handle_hub self.old }
        ensures entries { IsPut msg 0 false (handle_view self.old) (without_bytes result)
            (handle_view self.new) }
        ensures back { IfErr result (λ e. e.bytes ≡ bytes_in msg) }
    {
        match self.caller.put(rt, &NoGate, msg, 0, false) {
            Ok(ticket) => Ok(ticket),
            Err((back, at)) => Err(PutError {
                bytes: bytes_of(back),
                cause: HandleError::Ended { at },
            }),
        }
    }

    /// Tells the peer that no more data follow on the channel (RFC 4254 section 5.3). `Ended` is
    /// the only error, of this call and of those below.
    pub fn eof<R: Wait>(&mut self, rt: &R, id: ChannelId) -> Result<u64, HandleError>
        ensures hub { handle_hub self.new ≡ handle_hub self.old }
        ensures entries { IsPut (Eof id) 0 false (handle_view self.old) result
            (handle_view self.new) }
    {
        self.caller.ticket(rt, Command::Eof { channel: id }, false)
    }

    /// Closes the channel (RFC 4254 section 5.3).
    pub fn close<R: Wait>(&mut self, rt: &R, id: ChannelId) -> Result<u64, HandleError>
        ensures hub { handle_hub self.new ≡ handle_hub self.old }
        ensures entries { IsPut (Close id) 0 false (handle_view self.old) result
            (handle_view self.new) }
    {
        self.caller
            .ticket(rt, Command::Close { channel: id }, false)
    }

    /// Answers the peer's request on the channel by success (RFC 4254 section 5.4).
    pub fn channel_success<R: Wait>(&mut self, rt: &R, id: ChannelId) -> Result<u64, HandleError>
        ensures hub { handle_hub self.new ≡ handle_hub self.old }
        ensures entries { IsPut (ChannelSuccess id) 0 false (handle_view self.old) result
            (handle_view self.new) }
    {
        let msg = Command::ChannelSuccess { channel: id };
        self.caller.ticket(rt, msg, false)
    }

    /// Answers the peer's request on the channel by failure (RFC 4254 section 5.4).
    pub fn channel_failure<R: Wait>(&mut self, rt: &R, id: ChannelId) -> Result<u64, HandleError>
        ensures hub { handle_hub self.new ≡ handle_hub self.old }
        ensures entries { IsPut (ChannelFailure id) 0 false (handle_view self.old) result
            (handle_view self.new) }
    {
        let msg = Command::ChannelFailure { channel: id };
        self.caller.ticket(rt, msg, false)
    }

    /// Tells the client whether it may do the flow control itself (RFC 4254 section 6.8).
    pub fn xon_xoff_request<R: Wait>(
        &mut self,
        rt: &R,
        id: ChannelId,
        client_can_do: bool,
    ) -> Result<u64, HandleError>
        ensures hub { handle_hub self.new ≡ handle_hub self.old }
        ensures entries { IsPut (XonXoff id client_can_do) 0 false (handle_view self.old) result
            (handle_view self.new) }
    {
        let msg = Command::XonXoff {
            channel: id,
            client_can_do,
        };
        self.caller.ticket(rt, msg, false)
    }

    /// Tells how the program on the channel ended (RFC 4254 section 6.10).
    pub fn exit_status_request<R: Wait>(
        &mut self,
        rt: &R,
        id: ChannelId,
        exit_status: u32,
    ) -> Result<u64, HandleError>
        ensures hub { handle_hub self.new ≡ handle_hub self.old }
        ensures entries { IsPut (ExitStatus id exit_status) 0 false (handle_view self.old) result
            (handle_view self.new) }
    {
        let msg = Command::ExitStatus {
            channel: id,
            exit_status,
        };
        self.caller.ticket(rt, msg, false)
    }

    /// Tells which signal ended the program on the channel (RFC 4254 section 6.10).
    pub fn exit_signal_request<R: Wait>(
        &mut self,
        rt: &R,
        id: ChannelId,
        signal_name: Sig,
        core_dumped: bool,
        error_message: Text,
        lang_tag: Text,
    ) -> Result<u64, HandleError>
        ensures hub { handle_hub self.new ≡ handle_hub self.old }
        ensures entries { IsPut (ExitSignal id signal_name core_dumped error_message lang_tag) 0 false (handle_view self.old) result
            (handle_view self.new) }
    {
        let msg = Command::ExitSignal {
            channel: id,
            signal: signal_name,
            core_dumped,
            error_message,
            language: lang_tag,
        };
        self.caller.ticket(rt, msg, false)
    }

    /// Ends the connection (RFC 4253 section 11.1).
    pub fn disconnect<R: Wait>(
        &mut self,
        rt: &R,
        reason: Disconnect,
        description: Text,
        language_tag: Text,
    ) -> Result<u64, HandleError>
        ensures hub { handle_hub self.new ≡ handle_hub self.old }
        ensures entries { IsPut (EndsConnection reason description language_tag) 0 false (handle_view self.old) result
            (handle_view self.new) }
    {
        let msg = Command::Disconnect {
            reason,
            description,
            language: language_tag,
        };
        self.caller.ticket(rt, msg, false)
    }

    /// Answers an open of the peer (RFC 4254 section 5.1).
    pub fn answer_open<R: Wait>(&mut self, rt: &R, answer: OpenAnswer) -> Result<u64, HandleError>
        ensures hub { handle_hub self.new ≡ handle_hub self.old }
        ensures entries { IsReplyPut answer (handle_view self.old) result (handle_view self.new) }
    {
        self.caller.reply(rt, answer)
    }
}
