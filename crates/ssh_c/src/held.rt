// What a handle holds: a connection, and what of it was told.
use crate::calls::{call_entry, call_fields};
use crate::codes::{BAD_ARGUMENT, CONTINUES, NO_MEMORY, NOT_NOW, NOT_TAKEN, NOTHING, code_of};
use crate::entries::{Entry, code_of_room, copy_both, tell, tell_bytes};
use crate::given::{Verdict, data_command};
use crate::questions::{Question, question_fields, question_of};
use bytes::Bytes;
use ssh_embed::{Connection, ConnectionError, Given};
use ssh_link::{Command, Input, InputKind, OpenAnswer};
use ssh_session::Flow;
use ssh_wire::MethodSet;
use std::alloc::Global;

/// A connection, the methods of authentication that can continue behind a refusal, and how many
/// callbacks of its last input were told.
#[derive(Drop)]
pub struct Held {
    connection: Connection,
    methods: MethodSet,
    told: usize,
}

impl Held {
    ghost use Rattle.std.specs.Prelude.{◌≡◌, ◌≤◌, ◌<◌, ◌+◌, ◌^◌, IfErr, IfSome};
    ghost use Rattle.ssh_c.specs.Codes.{IsUndone};
    ghost use Rattle.ssh_c.specs.Commanding.{data_command as data_of};
    ghost use Rattle.ssh_c.specs.Feeding.{Feeds, FedNow, SaysNow, Tells, payload_at, command_at};
    ghost use Rattle.ssh_c.specs.Feeding.{reply_at, AddsTo};
    ghost use Rattle.ssh_embed.specs.Taking.{Takes};

    /// Nothing of this connection was told yet.
    pub(crate) fn new(connection: Connection, methods: MethodSet) -> Held
        ensures { result.connection ≡ connection }
    {
        Held {
            connection,
            methods,
            told: 0,
        }
    }

    pub(crate) fn connection(&self) -> &Connection
        ensures { result.now ≡ self.now.connection }
    {
        &self.connection
    }

    // Takes an input.
    fn take(&mut self, input: Input, given: Given) -> Result<Flow, ConnectionError>
        ensures taken { Takes self.old.connection input self.new.connection result }
        ensures adds { AddsTo self.old.connection self.old.connection input self.new.connection
            result }
    {
        self.told = 0;
        self.connection.take(input, given)
    }

    // Takes an opened payload, for which its owner gave this verdict.
    fn feed(
        &mut self,
        alloc: Global,
        moment: u64,
        payload: &[u8],
        verdict: Verdict,
    ) -> Result<Flow, ConnectionError>
        ensures { Feeds self.old (payload_at moment payload.now) self.new result }
    {
        let kind = InputKind::Payload(Bytes::copy_from_slice(alloc, payload)?);
        let input = Input { moment, kind };
        let given = verdict.given(self.methods);
        if matches!(verdict, Verdict::SignatureHolds) {
            self.vouch_and_take(moment, payload, input, given)
        } else {
            self.take(input, given)
        }
    }

    // Vouches for the signature that the payload shows, and takes it.
    fn vouch_and_take(
        &mut self,
        moment: u64,
        payload: &[u8],
        input: Input,
        given: Given,
    ) -> Result<Flow, ConnectionError>
        requires { input ≡ payload_at moment payload.now }
        ensures { Feeds self.old input self.new result }
    {
        match self.connection.vouch(moment, payload) {
            Ok(_) => self.take(input, given),
            Err(e) => {
                drop(input);
                drop(given);
                Err(ConnectionError::from(e))
            }
        }
    }

    /// Takes an opened payload with the verdict of this number, unless something waits to be told.
    pub(crate) fn feed_now(
        &mut self,
        alloc: Global,
        moment: u64,
        payload: &[u8],
        verdict: u32,
    ) -> u32
        ensures { FedNow self.old (payload_at moment payload.now) self.new result }
    {
        let Some(verdict) = Verdict::of(verdict) else {
            return BAD_ARGUMENT;
        };
        if self.waits() {
            return NOT_TAKEN;
        }
        code_of(&self.feed(alloc, moment, payload, verdict))
    }

    /// Takes a payload of an exchange of keys, unless something waits to be told.
    pub(crate) fn exchange_now(
        &mut self,
        alloc: Global,
        moment: u64,
        payload: &[u8],
        keys_in_use: bool,
    ) -> u32
        ensures { FedNow self.old (payload_at moment payload.now) self.new result }
    {
        if self.waits() {
            return NOT_TAKEN;
        }
        code_of(&self.exchange(alloc, moment, payload, keys_in_use))
    }

    // Takes a payload of an exchange of keys, behind which the new keys are in use, or not yet.
    fn exchange(
        &mut self,
        alloc: Global,
        moment: u64,
        payload: &[u8],
        keys_in_use: bool,
    ) -> Result<Flow, ConnectionError>
        ensures { Feeds self.old (payload_at moment payload.now) self.new result }
    {
        let kind = InputKind::Payload(Bytes::copy_from_slice(alloc, payload)?);
        let mut given = Given::nothing();
        given.keys_in_use = keys_in_use;
        self.take(Input { moment, kind }, given)
    }

    /// Takes an input of no payload, unless something waits to be told.
    pub(crate) fn take_now(&mut self, input: Input) -> u32
        ensures { FedNow self.old input self.new result }
    {
        if self.waits() {
            drop(input);
            return NOT_TAKEN;
        }
        code_of(&self.take(input, Given::nothing()))
    }

    /// Takes a command, where commands are wanted.
    pub(crate) fn command_now(&mut self, moment: u64, ticket: u64, command: Command) -> u32
        ensures { FedNow self.old (command_at moment ticket command) self.new result }
    {
        let kind = InputKind::Command(ticket, command);
        let wanted = self.connection.commands_wanted();
        self.take_where(wanted, Input { moment, kind })
    }

    /// Takes the command that sends these bytes, where commands are wanted.
    pub(crate) fn data_now(
        &mut self,
        alloc: Global,
        moment: u64,
        ticket: u64,
        channel: u32,
        ext: u32,
        bytes: &[u8],
    ) -> u32
        ensures { FedNow self.old
            (command_at moment ticket (data_of channel ext bytes.now)) self.new result }
    {
        match Bytes::copy_from_slice(alloc, bytes) {
            Ok(bytes) => self.command_now(moment, ticket, data_command(channel, ext, bytes)),
            Err(_) => NO_MEMORY,
        }
    }

    /// Takes this command, where there is one and commands are wanted.
    pub(crate) fn say_now(&mut self, moment: u64, ticket: u64, command: Result<Command, u32>) -> u32
        requires { IfErr command IsUndone }
        ensures { SaysNow moment ticket self.old self.new result }
    {
        match command {
            Ok(command) => self.command_now(moment, ticket, command),
            Err(code) => code,
        }
    }

    /// Takes an answer to an open, where such are wanted.
    pub(crate) fn answer_now(&mut self, moment: u64, ticket: u64, answer: OpenAnswer) -> u32
        ensures { FedNow self.old (reply_at moment ticket answer) self.new result }
    {
        let kind = InputKind::OpenReply(ticket, answer);
        let wanted = self.connection.replies_wanted();
        self.take_where(wanted, Input { moment, kind })
    }

    // Takes an input, where it is wanted.
    fn take_where(&mut self, wanted: bool, input: Input) -> u32
        ensures { FedNow self.old input self.new result }
    {
        if wanted {
            self.take_now(input)
        } else {
            drop(input);
            NOT_NOW
        }
    }

    // The next callback that is to be told, and its place.
    fn next_call(&self) -> Option<(usize, Entry)>
        ensures { IfSome result (λ found. (self.now.told ≤ found.0) × (found.0 + 1 < 2 ^ 64)) }
    {
        let calls = self.connection.calls();
        for place in self.told..calls.len() {
            if let Some(entry) = call_entry(&calls[place]) {
                return Some((place, entry));
            }
        }
        None
    }

    /// Whether something waits to be told.
    pub(crate) fn waits(&self) -> bool {
        self.next_call().is_some() || self.connection.first().is_some()
    }

    /// Tells what comes next and takes it out: the callbacks of the last input first. What it says
    /// is copied to the start of `out`; where it has no room there, nothing is taken out.
    pub(crate) fn next(&mut self, alloc: Global, out: &mut [u8], entry: &mut Entry) -> u32
        ensures { Tells self.old self.new out.new entry.new.length result }
    {
        match self.next_call() {
            Some((place, found)) => {
                *entry = found;
                self.next_told(alloc, place, out, entry)
            }
            None => self.next_entry(alloc, out, entry),
        }
    }

    // Tells the callback at this place, and goes on behind it.
    fn next_told(&mut self, alloc: Global, place: usize, out: &mut [u8], entry: &mut Entry) -> u32
        requires { (self.old.told ≤ place) × (place + 1 < 2 ^ 64) }
        ensures { Tells self.old self.new out.new entry.new.length result }
    {
        let code = self.tell_call(alloc, place, out, entry);
        if code != CONTINUES {
            return code;
        }
        self.told = place + 1;
        CONTINUES
    }

    // Tells the callback at this place.
    fn tell_call(&self, alloc: Global, place: usize, out: &mut [u8], entry: &mut Entry) -> u32 {
        let Some(call) = self.connection.calls().get(place) else {
            return NOTHING;
        };
        match call_fields(alloc, call) {
            Ok(fields) => code_of_room(tell_bytes(fields.as_slice(), &[], out, entry)),
            Err(_) => NO_MEMORY,
        }
    }

    // Tells what comes first in the outbox, and takes it out.
    fn next_entry(&mut self, alloc: Global, out: &mut [u8], entry: &mut Entry) -> u32
        ensures { Tells self.old self.new out.new entry.new.length result }
    {
        let Some(first) = self.connection.first() else {
            return NOTHING;
        };
        let code = tell(alloc, first, out, entry);
        if code != CONTINUES {
            return code;
        }
        drop(self.connection.take_out());
        CONTINUES
    }

    /// Tells what this payload asks of a user, were it fed now: what it shows is copied to the
    /// start of `out`, where it has room there.
    pub(crate) fn tell_question(
        &self,
        alloc: Global,
        moment: u64,
        payload: &[u8],
        out: &mut [u8],
        question: &mut Question,
    ) -> u32 {
        let asked = match self.connection.question(moment, payload) {
            Ok(Some(asked)) => asked,
            Ok(None) => return NOTHING,
            Err(_) => return NO_MEMORY,
        };
        *question = question_of(&asked);
        let fields = question_fields(alloc, &asked);
        drop(asked);
        match fields {
            Ok(fields) => {
                question.length = fields.len();
                code_of_room(copy_both(&[], fields.as_slice(), out))
            }
            Err(_) => NO_MEMORY,
        }
    }

    /// Tells the name of the user who was let in: it is copied to the start of `out`, where it has
    /// room there.
    pub(crate) fn tell_user(&self, out: &mut [u8], entry: &mut Entry) -> u32 {
        let Some(user) = self.connection.user() else {
            return NOTHING;
        };
        *entry = Entry::new(0, 0, 0, 0);
        code_of_room(tell_bytes(user.as_bytes(), &[], out, entry))
    }
}
