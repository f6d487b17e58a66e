// What a script's handler keeps of what it is asked, and so tells.
ghost use Rattle.std.specs.Prelude.{◌≡◌, [], ◌∷◌, ◌++◌, Ok, true, OnOk, OnErr, IfOk};
ghost use Rattle.ssh_link.specs.Told.{Tells};
ghost use Rattle.ssh_link.specs.declared.command.Command.TheVariants.{ChannelSuccess, Data};
ghost use Rattle.ssh_link.specs.declared.command.Command.TheVariants.{ChannelFailure};
ghost use Rattle.ssh_auth.specs.declared.call.Call.{Call};
ghost use Rattle.ssh_auth.specs.declared.question.Happening.TheVariants as what;
ghost use Rattle.ssh_auth.specs.declared.question.Lent.TheVariants.{Happened, Opens};
ghost use Rattle.ssh_auth.specs.Calls.{admission_call, lent_call, judged_call};
ghost use Rattle.ssh_players.specs.Played.{Failure, records, responses, replies, echoes, is_success};
ghost use Rattle.ssh_players.specs.Played.{is_granted, port_of, grants};
ghost use Rattle.ssh_players.specs.Played.{recorded};
ghost use Rattle.ssh_players.specs.Telling.{told_by};

use crate::interactive::interactive_answer_of;
use crate::script_handler::{ScriptError, ScriptHandler, open_answer_of, places_after, verdict_of};
use bytes::Bytes;
use ssh_auth::{Admission, Auth, Happening, Judged, Lent, OpenType, Question};
use ssh_handler::{Commands, RecordError};
use ssh_link::{ChannelOpenHandle, OpenAnswer};
use ssh_questions::made;
use ssh_scene::{DataVerdict, ForwardVerdict, RequestVerdict};
use ssh_wire::{ChannelId, WireError};
use std::alloc::Global;

// The answer to a callback, where there was memory for it.
pub(crate) fn or_lost<T>(
    lost: &mut bool,
    answer: Result<T, WireError>,
) -> Result<T, RecordError<ScriptError>>
    ensures made { IfOk result (λ value. answer ≡ Ok value) }
    ensures same { OnOk result (lost.new ≡ lost.old) }
    ensures lost { OnErr result (lost.new ≡ true) }
{
    match answer {
        Ok(value) => Ok(value),
        Err(_) => {
            *lost = true;
            Err(RecordError::NoMemory)
        }
    }
}

// Keeps a question.
pub(crate) fn keep(
    all: &mut Vec<Question>,
    lost: &mut bool,
    question: Question,
) -> Result<(), RecordError<ScriptError>>
    ensures ok { OnOk result (all.new.items ≡ all.old.items ++ question ∷ []) }
    ensures same { OnOk result (lost.new ≡ lost.old) }
    ensures err { OnErr result (all.new.items ≡ all.old.items) }
    ensures lost { OnErr result (lost.new ≡ true) }
{
    let kept = all.push(question).or(Err(RecordError::NoMemory));
    if kept.is_err() {
        *lost = true;
    }
    kept
}

// Records the answer to an open, where there is one.
fn answer_open(
    session: &mut Commands<'_>,
    lost: &mut bool,
    answer: Option<OpenAnswer>,
) -> Result<(), RecordError<ScriptError>>
    requires fresh { session.old.recorded ≡ [] }
    ensures recorded { OnOk result (session.new.recorded ≡ recorded answer) }
    ensures same { OnOk result (lost.new ≡ lost.old) }
    ensures lost { OnErr result (lost.new ≡ true) }
{
    let Some(answer) = answer else {
        return Ok(());
    };
    let taken = session.answer_open(answer);
    or_lost(lost, taken.or(Err(WireError::NoMemory)))
}

// Whether a request on a channel is granted that is answered so.
pub(crate) fn is_success(verdict: RequestVerdict) -> bool
    ensures { result ≡ is_success verdict }
{
    match verdict {
        RequestVerdict::Success => true,
        RequestVerdict::Failure | RequestVerdict::Silent => false,
    }
}

// Whether a forward is granted that is answered so.
pub(crate) fn is_granted(verdict: ForwardVerdict) -> bool
    ensures { result ≡ is_granted verdict }
{
    match verdict {
        ForwardVerdict::Yes(_port) => true,
        ForwardVerdict::No => false,
    }
}

// The port of a forward that is answered so, where the peer asked for this one.
pub(crate) fn port_of(verdict: ForwardVerdict, asked: u32) -> u32
    ensures { result ≡ port_of verdict asked }
{
    match verdict {
        ForwardVerdict::Yes(port) => port,
        ForwardVerdict::No => asked,
    }
}

// Records that a request on a channel succeeded.
fn succeed(
    session: &mut Commands<'_>,
    lost: &mut bool,
    channel: ChannelId,
) -> Result<(), RecordError<ScriptError>>
    requires fresh { session.old.recorded ≡ [] }
    ensures recorded { OnOk result (session.new.recorded ≡ ChannelSuccess channel ∷ []) }
    ensures same { OnOk result (lost.new ≡ lost.old) }
    ensures lost { OnErr result (lost.new ≡ true) }
{
    let taken = session.channel_success(channel);
    or_lost(lost, taken.or(Err(WireError::NoMemory)))
}

// Records that a request on a channel failed.
fn fail(
    session: &mut Commands<'_>,
    lost: &mut bool,
    channel: ChannelId,
) -> Result<(), RecordError<ScriptError>>
    requires fresh { session.old.recorded ≡ [] }
    ensures recorded { OnOk result (session.new.recorded ≡ ChannelFailure channel ∷ []) }
    ensures same { OnOk result (lost.new ≡ lost.old) }
    ensures lost { OnErr result (lost.new ≡ true) }
{
    let taken = session.channel_failure(channel);
    or_lost(lost, taken.or(Err(WireError::NoMemory)))
}

// Records the answer to a request on a channel, where there is one.
fn reply(
    session: &mut Commands<'_>,
    lost: &mut bool,
    verdict: RequestVerdict,
    channel: ChannelId,
) -> Result<(), RecordError<ScriptError>>
    requires fresh { session.old.recorded ≡ [] }
    ensures recorded { OnOk result (session.new.recorded ≡ replies verdict channel) }
    ensures same { OnOk result (lost.new ≡ lost.old) }
    ensures lost { OnErr result (lost.new ≡ true) }
{
    match verdict {
        RequestVerdict::Success => succeed(session, lost, channel),
        RequestVerdict::Failure => fail(session, lost, channel),
        RequestVerdict::Silent => Ok(()),
    }
}

// Records that data are sent back, where they are.
fn echo(
    alloc: Global,
    session: &mut Commands<'_>,
    lost: &mut bool,
    verdict: DataVerdict,
    channel: ChannelId,
    bytes: &[u8],
) -> Result<(), RecordError<ScriptError>>
    requires fresh { session.old.recorded ≡ [] }
    ensures recorded { OnOk result (session.new.recorded ≡ echoes verdict channel bytes.now) }
    ensures same { OnOk result (lost.new ≡ lost.old) }
    ensures lost { OnErr result (lost.new ≡ true) }
{
    match verdict {
        DataVerdict::Silent => Ok(()),
        DataVerdict::Echo => send_back(alloc, session, lost, channel, bytes),
    }
}

// Records that data are sent back.
fn send_back(
    alloc: Global,
    session: &mut Commands<'_>,
    lost: &mut bool,
    channel: ChannelId,
    bytes: &[u8],
) -> Result<(), RecordError<ScriptError>>
    requires fresh { session.old.recorded ≡ [] }
    ensures recorded { OnOk result (session.new.recorded ≡ Data channel bytes.now ∷ []) }
    ensures same { OnOk result (lost.new ≡ lost.old) }
    ensures lost { OnErr result (lost.new ≡ true) }
{
    let Ok(copy) = Bytes::copy_from_slice(alloc, bytes) else {
        *lost = true;
        return Err(RecordError::NoMemory);
    };
    let taken = session.data(channel, copy);
    or_lost(lost, taken.or(Err(WireError::NoMemory)))
}

impl ScriptHandler {
    /// A question that cannot be kept: from now on nothing is told.
    pub(crate) fn loses<T>(&mut self) -> Result<T, RecordError<ScriptError>>
        ensures { (call : Call Failure) → Tells (told_by self.old) (told_by self.new) result call }
    {
        self.lost = true;
        Err(RecordError::NoMemory)
    }

    /// The same of a channel that the peer opens, which is not answered.
    pub(crate) fn loses_open(
        &mut self,
        reply: ChannelOpenHandle,
    ) -> Result<(), RecordError<ScriptError>>
        ensures { (call : Call Failure) → Tells (told_by self.old) (told_by self.new) result call }
    {
        let _number = reply.into_channel();
        self.loses()
    }

    /// A user asks to be let in.
    pub(crate) fn admits(&mut self, admission: Admission) -> Result<Auth, RecordError<ScriptError>>
        ensures { Tells (told_by self.old) (told_by self.new) result
            (admission_call admission result) }
    {
        let verdict = verdict_of(&self.answers, self.next, &admission);
        let next = places_after(&self.answers, self.next, &admission);
        keep(&mut self.asked, &mut self.lost, Question::Admits(admission))?;
        self.next = next;
        or_lost(&mut self.lost, interactive_answer_of(self.alloc, verdict))?
    }

    /// A callback that answers nothing, and recorded what the script says.
    pub(crate) fn hears(
        &mut self,
        lent: Lent,
        session: &Commands<'_>,
    ) -> Result<(), RecordError<ScriptError>>
        requires recorded { records self.old.answers.standing lent ≡ session.now.recorded }
        ensures { Tells (told_by self.old) (told_by self.new) result
            (lent_call lent result session.now.recorded) }
    {
        keep(&mut self.asked, &mut self.lost, Question::Lends(lent))
    }

    /// Something happens on a channel, and nothing is to be recorded.
    pub(crate) fn happens(
        &mut self,
        channel: ChannelId,
        happening: Happening,
        session: &Commands<'_>,
    ) -> Result<(), RecordError<ScriptError>>
        requires quiet { responses self.old.answers.standing channel happening ≡ [] }
        requires fresh { session.now.recorded ≡ [] }
        ensures { Tells (told_by self.old) (told_by self.new) result
            (lent_call (Happened channel happening) result session.now.recorded) }
    {
        self.hears(Lent::Happened(channel, happening), session)
    }

    /// Data come in on a channel, and are answered as the script says.
    pub(crate) fn hears_data(
        &mut self,
        channel: ChannelId,
        bytes: &[u8],
        session: &mut Commands<'_>,
    ) -> Result<(), RecordError<ScriptError>>
        requires fresh { session.old.recorded ≡ [] }
        ensures { Tells (told_by self.old) (told_by self.new) result
            (lent_call (Happened channel (what.Data bytes.now)) result session.new.recorded) }
    {
        echo(
            self.alloc,
            session,
            &mut self.lost,
            self.answers.standing.incoming,
            channel,
            bytes,
        )?;
        self.keeps_data(channel, bytes, session)
    }

    /// Data came in on a channel, and what is to be recorded is.
    fn keeps_data(
        &mut self,
        channel: ChannelId,
        bytes: &[u8],
        session: &Commands<'_>,
    ) -> Result<(), RecordError<ScriptError>>
        requires answered { echoes self.old.answers.standing.incoming channel bytes.now
            ≡ session.now.recorded }
        ensures { Tells (told_by self.old) (told_by self.new) result
            (lent_call (Happened channel (what.Data bytes.now)) result session.now.recorded) }
    {
        let Ok(data) = made::data(self.alloc, bytes) else {
            return self.loses();
        };
        self.hears(Lent::Happened(channel, data), session)
    }

    /// A request on a channel is answered as the script says.
    pub(crate) fn requested(
        &mut self,
        channel: ChannelId,
        happening: Happening,
        session: &mut Commands<'_>,
    ) -> Result<(), RecordError<ScriptError>>
        requires request { responses self.old.answers.standing channel happening
            ≡ replies self.old.answers.standing.requests channel }
        requires fresh { session.old.recorded ≡ [] }
        ensures { Tells (told_by self.old) (told_by self.new) result
            (lent_call (Happened channel happening) result session.new.recorded) }
    {
        let verdict = self.answers.standing.requests;
        match reply(session, &mut self.lost, verdict, channel) {
            Ok(()) => self.hears(Lent::Happened(channel, happening), session),
            Err(e) => {
                drop(happening);
                Err(e)
            }
        }
    }

    /// The peer opens a channel, which is answered as the script says.
    pub(crate) fn opens(
        &mut self,
        channel: ChannelId,
        opening: OpenType,
        reply: ChannelOpenHandle,
        session: &mut Commands<'_>,
    ) -> Result<(), RecordError<ScriptError>>
        requires of { reply ≡ channel }
        requires fresh { session.old.recorded ≡ [] }
        ensures { Tells (told_by self.old) (told_by self.new) result
            (lent_call (Opens channel opening) result session.new.recorded) }
    {
        let answer = open_answer_of(self.answers.standing.opens, reply);
        match answer_open(session, &mut self.lost, answer) {
            Ok(()) => self.hears(Lent::Opens(channel, opening), session),
            Err(e) => {
                drop(opening);
                Err(e)
            }
        }
    }

    /// Whether something is granted.
    pub(crate) fn judges(
        &mut self,
        judged: Judged,
        granted: bool,
        session: &Commands<'_>,
    ) -> Result<bool, RecordError<ScriptError>>
        requires granted { grants self.old.answers.standing judged ≡ granted }
        requires fresh { session.now.recorded ≡ [] }
        ensures { Tells (told_by self.old) (told_by self.new) result
            (judged_call judged result session.now.recorded) }
    {
        keep(&mut self.asked, &mut self.lost, Question::Judges(judged))?;
        Ok(granted)
    }
}
