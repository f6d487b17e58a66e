// Global requests of the peer and their replies, and what comes of those of this side (RFC 4254
// section 4).
ghost use Rattle.std.specs.Prelude.{◌≡◌, OnOk, OnErr, IfErr};
ghost use Rattle.ssh_rules.specs.declared.error.RunError.TheVariants.{NoMemory};
ghost use Rattle.ssh_rules.specs.declared.messages.Spoken.TheVariants.{RequestsForward};
ghost use Rattle.ssh_rules.specs.declared.messages.Spoken.TheVariants.{RequestsGlobally};
ghost use Rattle.ssh_rules.specs.declared.messages.Spoken.TheVariants.{RequestsGloballyUnknown};
ghost use Rattle.ssh_rules.specs.declared.messages.Spoken.TheVariants.{GivesUpSessions};
ghost use Rattle.ssh_rules.specs.declared.messages.Spoken.TheVariants.{Settles};
ghost use Rattle.ssh_rules.specs.Layout.{at_once};
ghost use Rattle.ssh_rules.specs.World.{World, wants_global, settles_global, unless_ended};
ghost use Rattle.ssh_rules.specs.World.{settled_first};
ghost use Rattle.ssh_rules.specs.Effect.{accepts};
ghost use Rattle.ssh_rules.specs.Rows.{spoken_acts, bound_to, global_reply};
ghost use Rattle.ssh_serving.specs.Serve.{Stays, Acted, Refines, Turned, HasEffect, IsSameServer};
ghost use Rattle.ssh_serving.specs.Serve.{IsSuited, IsUnchanged};

use crate::Server;
use crate::commands::Done;
use crate::outside::Outside;
use ssh_auth::Judged;
use ssh_link::{CommandOutcome, Frame, Notice};
use ssh_rules::RunError;
use ssh_wire::Text;
use ssh_wire::message::{REQUEST_FAILURE, REQUEST_SUCCESS};

/// The port that REQUEST_SUCCESS tells: the one that is listened at, where the peer left it to this
/// side (section 7.1).
fn bound_to(asked: u32, bound: u32) -> Option<u32>
    ensures { result ≡ bound_to asked bound }
{
    if asked == 0 && bound != 0 {
        Some(bound)
    } else {
        None
    }
}

/// REQUEST_SUCCESS, with the port where there is one, or REQUEST_FAILURE.
fn reply_frame(granted: bool, port: Option<u32>) -> Frame
    ensures { result ≡ at_once (global_reply granted port) }
{
    if !granted {
        return Frame::short(&[REQUEST_FAILURE], None, None);
    }
    match port {
        Some(port) => {
            let [a, b, c, d] = port.to_be_bytes();
            Frame::short(&[REQUEST_SUCCESS, a, b, c, d], None, None)
        }
        None => Frame::short(&[REQUEST_SUCCESS], None, None),
    }
}

impl Server {
    /// The peer's last global request wants a reply, or none.
    fn want_global(&mut self, wanted: bool)
        ensures world { (w : World) → Refines self.old w →
            Refines self.new (wants_global wanted w) }
        ensures session { IsSameServer self.old self.new }
    {
        self.common.wants_reply = wanted;
    }

    /// The reply to the peer's last global request goes out, where that wants one.
    fn settle_global<E, F>(
        &mut self,
        granted: bool,
        port: Option<u32>,
    ) -> Result<(), RunError<E, F>>
        ensures world { OnOk result ((w : World) → Refines self.old w →
            Refines self.new (settles_global (global_reply granted port) w)) }
        ensures memory { IfErr result (λ e. e ≡ NoMemory) }
        ensures unchanged { OnErr result (IsUnchanged self.old self.new) }
        ensures session { IsSameServer self.old self.new }
    {
        if !self.common.wants_reply {
            return Ok(());
        }
        self.table.stage(reply_frame(granted, port))?;
        self.want_global(false);
        Ok(())
    }

    /// The reply goes out where it is wanted, unless a command of the callback ended the
    /// connection.
    fn settle_unless_ended<E, F>(
        &mut self,
        granted: bool,
        port: Option<u32>,
    ) -> Result<(), RunError<E, F>>
        ensures world { OnOk result ((w : World) → Refines self.old w →
            Refines self.new (unless_ended (settles_global (global_reply granted port)) w)) }
        ensures memory { IfErr result (λ e. e ≡ NoMemory) }
        ensures session { IsSameServer self.old self.new }
    {
        if self.common.disconnected {
            return Ok(());
        }
        self.settle_global(granted, port)
    }

    /// REQUEST_SUCCESS or REQUEST_FAILURE, as a command.
    pub(crate) fn reply_globally<E, F>(&mut self, granted: bool) -> Result<Done, RunError<E, F>>
        ensures does { (w : World) → Refines self.old w →
            HasEffect (accepts (settles_global (global_reply granted None) w)) self.new result }
        ensures unchanged { OnErr result (IsUnchanged self.old self.new) }
        ensures session { IsSameServer self.old self.new }
    {
        self.settle_global(granted, None)?;
        Ok(Done::quiet(CommandOutcome::Accepted))
    }

    /// Whether connections to an address are forwarded is the handler's to say, and the reply.
    pub(crate) fn forward_requested<O: Outside>(
        &mut self,
        outside: &mut O,
        wanted: bool,
        address: Text,
        port: u32,
    ) -> Result<(), RunError<O::Error, O::KexError>>
        requires suits { IsSuited O.suits self.old }
        ensures does { Acted O.Transport.heard (λ w. spoken_acts w (RequestsForward wanted address port)) self.old self.new outside.old outside.new result }
        ensures stays { Stays O.Transport.heard self.old self.new outside.old outside.new }
    {
        self.want_global(wanted);
        let (granted, bound) = self.listen(outside, address.as_str(), port)?;
        self.settle_unless_ended(granted, bound_to(port, bound))
    }

    /// Whether another global request is granted is the handler's to say, and the reply.
    pub(crate) fn globally_requested<O: Outside>(
        &mut self,
        outside: &mut O,
        wanted: bool,
        judged: Judged,
    ) -> Result<(), RunError<O::Error, O::KexError>>
        requires suits { IsSuited O.suits self.old }
        ensures does { Acted O.Transport.heard (λ w. spoken_acts w (RequestsGlobally wanted judged)) self.old self.new outside.old outside.new result }
        ensures stays { Stays O.Transport.heard self.old self.new outside.old outside.new }
    {
        self.want_global(wanted);
        let granted = self.judge(outside, None, judged)?;
        self.settle_unless_ended(granted, None)
    }

    /// A global request that is not known is answered by failure.
    pub(crate) fn unknown_globally_requested<E, F>(
        &mut self,
        wanted: bool,
    ) -> Result<(), RunError<E, F>>
        ensures does { (w : World) → Refines self.old w →
            Turned (spoken_acts w (RequestsGloballyUnknown wanted)) w self.new result }
        ensures session { IsSameServer self.old self.new }
    {
        self.want_global(wanted);
        self.settle_global(false, None)
    }

    /// The peer opens no more sessions, which is granted (OpenSSH PROTOCOL section 2.2).
    pub(crate) fn gave_up_sessions<E, F>(&mut self, wanted: bool) -> Result<(), RunError<E, F>>
        ensures does { (w : World) → Refines self.old w →
            Turned (spoken_acts w (GivesUpSessions wanted)) w self.new result }
        ensures session { IsSameServer self.old self.new }
    {
        self.no_more_sessions = true;
        self.want_global(wanted);
        self.settle_global(true, None)
    }

    /// The oldest global request of this side has its reply, of which this is told.
    pub(crate) fn settle<O: Outside>(
        &mut self,
        outside: &mut O,
        told: Option<Notice>,
    ) -> Result<(), RunError<O::Error, O::KexError>>
        ensures does { Acted O.Transport.heard (λ w. spoken_acts w (Settles told)) self.old self.new outside.old outside.new result }
        ensures stays { Stays O.Transport.heard self.old self.new outside.old outside.new }
    {
        self.settle_first();
        self.give(outside, told)
    }

    /// The oldest one waits no longer.
    fn settle_first(&mut self)
        ensures world { (w : World) → Refines self.old w → Refines self.new (settled_first w) }
        ensures session { IsSameServer self.old self.new }
    {
        let _settled = self.outstanding.pop_front();
    }
}
