// Commands of callbacks and from outside: what each does, or why it is refused (RFC 4254 section
// 5).
ghost use Rattle.std.specs.Prelude.{◌≡◌, ◌+◌, ◌∷◌, List, map, option_to_list, None, OnErr};
ghost use Rattle.ssh_link.specs.declared.command.Command.{Command as CommandOf};
ghost use Rattle.ssh_link.specs.declared.link.TraceEntry.TheVariants.{Noticed};
ghost use Rattle.ssh_auth.specs.Plan.{Plan};
ghost use Rattle.ssh_rules.specs.Outcome.{Outcome};
ghost use Rattle.ssh_rules.specs.World.{World};
ghost use Rattle.ssh_rules.specs.Acts.{done_all, tell_all};
ghost use Rattle.ssh_rules.specs.Run.{command_row};
ghost use Rattle.ssh_rules.specs.Heard.{AreSame};
ghost use Rattle.ssh_rules.specs.Effect.{effect_at, done_by, lacks, Sending};
ghost use Rattle.ssh_rules.specs.Effect.{Closing, Established, Opening_of, refused_for, apart_needs};
ghost use Rattle.ssh_rules.specs.Effect.{done_apart};
ghost use Rattle.ssh_serving.specs.Serve.{Stays, Completed, Refines, Serves, HasEffect, IsSameServer};
ghost use Rattle.ssh_serving.specs.Serve.{IsUnchanged};

use crate::Server;
use crate::outside::Outside;
use ssh_link::{Command, CommandList, CommandOutcome, Notice, Refusal};
use ssh_messages::{
    address_payload, cancel_under, debug_payload, disconnect_payload, forward_under,
    keepalive_payload,
};
use ssh_rules::{ChannelRequest, Flow, Outstanding, RunError};
use ssh_wire::ChannelId;

/// What came of a command, and the notice that it gives.
#[derive(Debug, Drop)]
pub struct Done {
    /// What is to be told, where anything is.
    pub notice: Option<Notice>,
    /// Whether it was done, or why not.
    pub outcome: CommandOutcome,
}

impl Done {
    /// This came of it, and nothing is to be told.
    pub(crate) fn quiet(outcome: CommandOutcome) -> Done
        ensures { result ≡ record { notice = None; outcome = outcome } }
    {
        Done {
            notice: None,
            outcome,
        }
    }
}

impl Server {
    /// A command from outside, or a reply to an open: its ticket is answered.
    #[inline(always)]
    pub fn serve_command<O: Outside>(
        &mut self,
        outside: &mut O,
        ticket: u64,
        command: Command,
    ) -> Result<Flow, RunError<O::Error, O::KexError>>
        ensures does { Completed O.Transport.heard (λ w. command_row w ticket command) self.old self.new outside.old outside.new result }
        ensures stays { Stays O.Transport.heard self.old self.new outside.old outside.new }
    {
        let Done { notice, outcome } = self.carry_out(None, command)?;
        self.give(outside, notice)?;
        outside.answer(ticket, outcome)?;
        Ok(Flow::Continue)
    }

    /// Does the commands that a callback recorded, one after another; it told of the request `at`,
    /// where there is one.
    pub(crate) fn finish_commands<O: Outside>(
        &mut self,
        outside: &mut O,
        at: Option<ChannelRequest>,
        mut commands: CommandList,
    ) -> Result<(), RunError<O::Error, O::KexError>>
        ensures does { (w : World) → Refines self.old w → (next : World → Plan Outcome) →
            Serves (done_all at 0 commands w next) (λ _. next) (O.Transport.heard outside.old)
            (O.Transport.heard outside.new) self.new result }
        ensures stays { Stays O.Transport.heard self.old self.new outside.old outside.new }
    {
        for place in 0..commands.len() {
            let Some(command) = commands.take_first() else {
                drop(commands);
                return Ok(());
            };
            if let Err(e) = self.finish_command(outside, at, place, command) {
                drop(commands);
                return Err(e);
            }
        }
        drop(commands);
        Ok(())
    }

    /// Does the command that a callback recorded at this place, and tells the handler of it where
    /// it opens a channel, or was refused.
    fn finish_command<O: Outside>(
        &mut self,
        outside: &mut O,
        at: Option<ChannelRequest>,
        place: usize,
        command: Command,
    ) -> Result<(), RunError<O::Error, O::KexError>>
        ensures does { (w : World) → Refines self.old w →
            (later : List CommandOf) (next : World → Plan Outcome) →
            Serves (done_all at place (command ∷ later) w next)
            (λ _ world. done_all at (place + 1) later world next)
            (O.Transport.heard outside.old) (O.Transport.heard outside.new) self.new result }
        ensures stays { Stays O.Transport.heard self.old self.new outside.old outside.new }
    {
        let Done { notice, outcome } = self.carry_out(at, command)?;
        self.give(outside, notice)?;
        match outcome {
            CommandOutcome::Accepted => Ok(()),
            told => match outside.command_done(place, told) {
                Ok(()) => Ok(()),
                Err(e) => Err(RunError::Handler(e)),
            },
        }
    }

    /// Gives the notice, where there is one.
    pub(crate) fn give<O: Outside>(
        &self,
        outside: &mut O,
        notice: Option<Notice>,
    ) -> Result<(), RunError<O::Error, O::KexError>>
        ensures does { (w : World) → Refines self.now w → (next : Plan Outcome) →
            Serves (tell_all (map Noticed (option_to_list notice)) next) (λ _ _. next)
            (O.Transport.heard outside.old) (O.Transport.heard outside.new) self.now result }
        ensures same { AreSame (O.Transport.heard outside.old) (O.Transport.heard outside.new) }
    {
        match notice {
            Some(notice) => {
                outside.notice(notice)?;
                Ok(())
            }
            None => Ok(()),
        }
    }

    /// Does one command, or refuses it. It was recorded in the callback of the request `at`, where
    /// there is one.
    pub fn carry_out<E, F>(
        &mut self,
        at: Option<ChannelRequest>,
        command: Command,
    ) -> Result<Done, RunError<E, F>>
        ensures does { (w : World) → Refines self.old w →
            HasEffect (effect_at at w command) self.new result }
        ensures unchanged { OnErr result (IsUnchanged self.old self.new) }
        ensures session { IsSameServer self.old self.new }
    {
        match self.refusal(&command) {
            Some(why) => {
                drop(command);
                Ok(Done::quiet(CommandOutcome::Refused(why)))
            }
            None => self.do_command(at, command),
        }
    }

    /// Why the command is refused: once the connection was ended, each is (RFC 4253 section 11.1).
    fn refusal(&self, command: &Command) -> Option<Refusal>
        ensures { (w : World) → Refines self.now w →
            result ≡ refused_for w.disconnected w command.now }
    {
        if self.common.disconnected {
            return Some(Refusal::Disconnected);
        }
        match command {
            Command::Data { channel, .. } => self.no_sending(*channel),
            Command::ExtendedData { channel, .. } => self.no_sending(*channel),
            Command::Eof { channel } => self.no_sending(*channel),
            Command::Close { channel } => self.no_closing(*channel),
            Command::ChannelSuccess { channel } => self.not_established(*channel),
            Command::ChannelFailure { channel } => self.not_established(*channel),
            Command::XonXoff { channel, .. } => self.not_established(*channel),
            Command::ExitStatus { channel, .. } => self.not_established(*channel),
            Command::ExitSignal { channel, .. } => self.not_established(*channel),
            Command::Answer(answer) => self.no_open(answer.channel),
            other => self.refusal_apart(other),
        }
    }

    /// Why a command is refused that concerns no channel that is there.
    fn refusal_apart(&self, command: &Command) -> Option<Refusal>
        ensures { (w : World) → Refines self.now w → result ≡ lacks w (apart_needs command.now) }
    {
        match command {
            Command::TcpipForward { .. } => self.no_user(),
            Command::CancelTcpipForward { .. } => self.no_user(),
            Command::ClientOnly { .. } => Some(Refusal::ClientOnly),
            other => self.no_opening(other),
        }
    }

    fn no_sending(&self, channel: ChannelId) -> Option<Refusal>
        ensures { (w : World) → Refines self.now w → result ≡ lacks w (Sending channel) }
    {
        match self.table.params(channel) {
            None => Some(Refusal::UnknownChannel),
            Some(line) if !line.confirmed => Some(Refusal::NotConfirmed),
            Some(line) if line.ended => Some(Refusal::SendingEnded),
            Some(_) => None,
        }
    }

    fn no_closing(&self, channel: ChannelId) -> Option<Refusal>
        ensures { (w : World) → Refines self.now w → result ≡ lacks w (Closing channel) }
    {
        match self.table.params(channel) {
            None => Some(Refusal::UnknownChannel),
            Some(line) if !line.confirmed => Some(Refusal::NotConfirmed),
            Some(line) if line.pending_close => Some(Refusal::SendingEnded),
            Some(_) => None,
        }
    }

    fn not_established(&self, channel: ChannelId) -> Option<Refusal>
        ensures { (w : World) → Refines self.now w → result ≡ lacks w (Established channel) }
    {
        match self.table.params(channel) {
            None => Some(Refusal::UnknownChannel),
            Some(line) if !line.confirmed => Some(Refusal::NotConfirmed),
            Some(_) => None,
        }
    }

    fn no_open(&self, channel: ChannelId) -> Option<Refusal>
        ensures { (w : World) → Refines self.now w → result ≡ lacks w (Opening_of channel) }
    {
        match self.opens.get(&channel.0) {
            Some(_) => None,
            None => Some(Refusal::UnknownOpen),
        }
    }

    /// A command that lacks nothing is done.
    fn do_command<E, F>(
        &mut self,
        at: Option<ChannelRequest>,
        command: Command,
    ) -> Result<Done, RunError<E, F>>
        ensures does { (w : World) → Refines self.old w →
            HasEffect (done_by at w command) self.new result }
        ensures unchanged { OnErr result (IsUnchanged self.old self.new) }
        ensures session { IsSameServer self.old self.new }
    {
        match command {
            Command::Data { channel, bytes } => {
                let in_exchange = self.keys.exchange.is_running();
                self.table.data(channel, bytes, in_exchange)?;
                Ok(Done::quiet(CommandOutcome::Accepted))
            }
            Command::ExtendedData {
                channel,
                ext,
                bytes,
            } => {
                let in_exchange = self.keys.exchange.is_running();
                self.table.extended_data(channel, ext, bytes, in_exchange)?;
                Ok(Done::quiet(CommandOutcome::Accepted))
            }
            Command::Eof { channel } => {
                self.table.eof(channel)?;
                Ok(Done::quiet(CommandOutcome::Accepted))
            }
            Command::Close { channel } => {
                self.table.close(channel)?;
                Ok(Done::quiet(CommandOutcome::Accepted))
            }
            Command::ChannelSuccess { channel } => self.reply_to(at, channel, true),
            Command::ChannelFailure { channel } => self.reply_to(at, channel, false),
            Command::XonXoff {
                channel,
                client_can_do,
            } => self.request(channel, "xon-xoff", &[client_can_do as u8]),
            Command::ExitStatus {
                channel,
                exit_status,
            } => self.request(channel, "exit-status", &exit_status.to_be_bytes()),
            Command::ExitSignal {
                channel,
                signal,
                core_dumped,
                error_message,
                language,
            } => {
                let done = self.exit_signal(
                    channel,
                    &signal,
                    core_dumped,
                    &error_message,
                    &language,
                );
                drop(signal);
                drop(error_message);
                drop(language);
                done
            }
            Command::Answer(answer) => self.decide_open(answer),
            other => {
                let done = self.do_apart(&other);
                drop(other);
                done
            }
        }
    }

    /// A command that concerns no channel that is there, and lacks nothing: a global request or a
    /// reply to one of the peer's (RFC 4254 section 4), DEBUG or DISCONNECT (RFC 4253 section 11), or
    /// an open.
    fn do_apart<E, F>(&mut self, command: &Command) -> Result<Done, RunError<E, F>>
        ensures does { (w : World) → Refines self.old w →
            HasEffect (done_apart w command.now) self.new result }
        ensures unchanged { OnErr result (IsUnchanged self.old self.new) }
        ensures session { IsSameServer self.old self.new }
    {
        let alloc = self.alloc;
        match command {
            Command::TcpipForward {
                address,
                port,
                reply,
            } => {
                let name = "tcpip-forward";
                let payload = address_payload(alloc, name, address, *port, reply.is_some());
                self.send(payload, forward_under(*reply), false)
            }
            Command::CancelTcpipForward {
                address,
                port,
                reply,
            } => {
                let name = "cancel-tcpip-forward";
                let payload = address_payload(alloc, name, address, *port, reply.is_some());
                self.send(payload, cancel_under(*reply), false)
            }
            Command::Keepalive => {
                let payload = keepalive_payload(alloc);
                self.send(payload, Some(Outstanding::Keepalive), false)
            }
            Command::Ping { slot } => {
                let payload = keepalive_payload(alloc);
                self.send(payload, Some(Outstanding::Ping { slot: *slot }), false)
            }
            Command::RequestSuccess => self.reply_globally(true),
            Command::RequestFailure => self.reply_globally(false),
            Command::Debug {
                always_display,
                message,
                language,
            } => {
                let payload = debug_payload(alloc, *always_display, message, language);
                self.send(payload, None, false)
            }
            Command::Disconnect {
                reason,
                description,
                language,
            } => {
                let payload = disconnect_payload(alloc, *reason, description, language);
                self.send(payload, None, true)
            }
            other => self.do_open(other),
        }
    }
}
