// The end of an input without one, and what waits on a channel, for whoever applied commands between
// two inputs.
ghost use Rattle.std.specs.Prelude.{◌≡◌, [], false, true, map, OnOk, OnErr, IfOk, IfErr};
ghost use Rattle.ssh_link.specs.declared.link.TraceEntry.TheVariants.{Noticed};
ghost use Rattle.ssh_link.specs.Faults.{RoseIfKept};
ghost use Rattle.ssh_auth.specs.Plan.{Finish};
ghost use Rattle.ssh_channels.specs.declared.error.TableError.TheVariants.{NoMemory};
ghost use Rattle.ssh_channels.specs.Lines.{goes_on};
ghost use Rattle.ssh_rules.specs.Acts.{tell_all};
ghost use Rattle.ssh_session.specs.Between.{FlushesBy, CutsFlush, told_beneath, flushed, untold};
ghost use Rattle.ssh_session.specs.Between.{goes_out_unless_ended};
ghost use Rattle.ssh_rules.specs.Cut.{IsCut};
ghost use Rattle.ssh_rules.specs.Failure.{flush_error_of};
ghost use Rattle.ssh_rules.specs.Outcome.{Goes};
ghost use Rattle.ssh_rules.specs.Run.{hand_on};
ghost use Rattle.ssh_serving.specs.Handing.{ServesTo, IsCutBehind};
ghost use Rattle.ssh_serving.specs.Serve as served;
ghost use Rattle.ssh_session.specs.Serve.{Refines, IsSameSession, is_spent};
ghost use Rattle.ssh_rules.specs.World.{World, lined, unless_ended};

use crate::run::{begin_where_due, hand_on};
use crate::sides::Ends;
use crate::{FlushError, RunError, Session};
use ssh_channels::TableError;
use ssh_link::{Kex, Link, Notice};
use ssh_serving::{Server, Transport, tell_each};
use ssh_wire::ChannelId;
use std::collections::VecDeque;

/// The error that it is where no input was taken.
fn flush_error<E>(error: RunError<(), E>) -> FlushError<E>
    ensures { result ≡ flush_error_of error }
{
    match error {
        RunError::LinkFault => FlushError::LinkFault,
        RunError::Kex(e) => FlushError::Kex(e),
        _ => FlushError::NoMemory,
    }
}

impl Session {
    /// Ends an input without one, for whoever applied commands between two inputs: tells the
    /// notices that they gave, hands on the frames that were written, unless an exchange of keys
    /// runs, and begins one where as many bytes passed under the keys as may (RFC 4253 section 9).
    /// Where such a command ended the connection it begins none, and the next input ends the run.
    /// After an error the session is spent. It must not be spent before.
    pub fn flush<K: Kex, L: Link>(
        &mut self,
        kex: &mut K,
        link: &mut L,
    ) -> Result<(), FlushError<K::Error>>
        requires live { is_spent self.old ≡ false }
        ensures flushed { (w : World) → Refines self.old w → w.settings.repeatable
            ≡ K.repeats kex.old → FlushesBy (untold self.old) w
            (told_beneath K.steps L.trace L.faults) kex.old link.old kex.new link.new self.new
            result }
        ensures cut { (w : World) → Refines self.old w → w.settings.repeatable
            ≡ K.repeats kex.old → CutsFlush (untold self.old) w
            (told_beneath K.steps L.trace L.faults) kex.old link.old kex.new link.new
            (RoseIfKept (L.starved link.old) (L.starved link.new)) self.new result }
        ensures told { OnOk result (untold self.new ≡ []) }
        ensures repeats { K.repeats kex.new ≡ K.repeats kex.old }
        ensures session { OnOk result (IsSameSession self.old self.new) }
        ensures goes_on { OnOk result (is_spent self.new ≡ false) }
        ensures spends { OnErr result (is_spent self.new ≡ true) }
    {
        let mut ends = Ends::new(kex, link);
        let mut notices = self.take_untold();
        let outcome = self.flush_behind(&mut ends, &mut notices);
        self.keep_untold(notices);
        outcome
    }

    /// The end of an input without one behind these notices, over these two.
    fn flush_behind<K: Kex, L: Link>(
        &mut self,
        ends: &mut Ends<'_, K, L>,
        notices: &mut VecDeque<Notice>,
    ) -> Result<(), FlushError<K::Error>>
        ensures same_kex { ends.new.kex.ghost_name ≡ ends.old.kex.ghost_name }
        ensures same_link { ends.new.link.ghost_name ≡ ends.old.link.ghost_name }
        ensures repeats { K.repeats ends.new.kex.now ≡ K.repeats ends.old.kex.now }
        ensures flushed { (w : World) → Refines self.old w → w.settings.repeatable
            ≡ K.repeats ends.old.kex.now → CutsFlush notices.old.items w
            (told_beneath K.steps L.trace L.faults) ends.old.kex.now ends.old.link.now
            ends.new.kex.now ends.new.link.now (RoseIfKept (L.starved ends.old.link.now)
            (L.starved ends.new.link.now)) self.new result }
        ensures told { OnOk result (notices.new.items ≡ []) }
        ensures session { OnOk result (IsSameSession self.old self.new) }
        ensures spends { OnErr result (is_spent self.new ≡ true) }
    {
        match flush_over(&mut self.server, ends, notices) {
            Ok(()) => Ok(()),
            Err(error) => {
                self.spent = true;
                Err(flush_error(error))
            }
        }
    }

    /// What waits on the channel is written as far as the credit goes, and then the EOF and the
    /// CLOSE that waited behind it; with the CLOSE the channel is gone (RFC 4254 sections 5.2 and
    /// 5.3). Answers how many bytes of data were written, and 0 where there is no such channel.
    /// Behind a DISCONNECT nothing is written, and the answer is 0. `NoMemory` is the only error,
    /// and leaves the session as it was. What is written is handed on at the end of the next input,
    /// or by `flush`, and in an exchange of keys not before it ends; notices that are to be told are
    /// kept. The session must not be spent.
    pub fn flush_pending(&mut self, channel: ChannelId) -> Result<usize, TableError>
        requires live { is_spent self.old ≡ false }
        ensures framed { (w : World) → Refines self.old w →
            IfOk result (λ count. count ≡ goes_out_unless_ended w channel.0) }
        ensures world { OnOk result ((w : World) → Refines self.old w →
            Refines self.new (unless_ended (lined (goes_on channel.0)) w)) }
        ensures told { untold self.new ≡ untold self.old }
        ensures unchanged { OnErr result (self.new ≡ self.old) }
        ensures memory { IfErr result (λ e. e ≡ NoMemory) }
        ensures session { IsSameSession self.old self.new }
    {
        if self.server.common.disconnected {
            return Ok(0);
        }
        self.server.flush_pending(channel)
    }
}

/// The end of an input without one, over an outside.
fn flush_over<O: Transport>(
    server: &mut Server,
    outside: &mut O,
    notices: &mut VecDeque<Notice>,
) -> Result<(), RunError<O::Error, O::KexError>>
    ensures does { (w : World) → served.Refines server.old w → w.settings.repeatable
        ≡ (O.heard outside.old).repeats → ServesTo IsCut
        (tell_all (map Noticed notices.old.items) (hand_on w flushed))
        (λ _ world. Finish (Goes world)) (O.heard outside.old) (O.heard outside.new) server.new
        result }
    ensures told { OnOk result (notices.new.items ≡ []) }
    ensures stays { served.Stays O.heard server.old server.new outside.old outside.new }
{
    tell_each(outside, notices)?;
    hand_on(server, outside)?;
    begin_unless_ended(server, outside)
}

/// Keys are exchanged where that is due, unless the connection was ended.
fn begin_unless_ended<O: Transport>(
    server: &mut Server,
    outside: &mut O,
) -> Result<(), RunError<O::Error, O::KexError>>
    ensures does { (w : World) → served.Refines server.old w → w.settings.repeatable
        ≡ (O.heard outside.old).repeats → ServesTo IsCutBehind (flushed w)
        (λ _ world. Finish (Goes world)) (O.heard outside.old) (O.heard outside.new) server.new result }
    ensures stays { served.Stays O.heard server.old server.new outside.old outside.new }
{
    if server.common.disconnected {
        return Ok(());
    }
    begin_where_due(server, outside, false)
}
