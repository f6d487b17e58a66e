// A connection: its session, and all that it tells and asks.
ghost use Rattle.std.specs.Prelude.{◌≡◌, ◌<◌, ◌^◌, length};

use crate::outbox::Outbox;
use crate::policy::{NoMemory, Policy, Rules};
use crate::transport::TransportKex;
use ssh_auth::{Auth, Call};
use ssh_handler::{Config, RecordError, Recorded};
use ssh_keys::TableVerifier;
use ssh_link::{Input, TraceEntry};
use ssh_session::{Flow, RunError, Session};
use ssh_wire::WireError;
use std::alloc::Global;

/// Why an input was not finished. The exchange of keys, which the transport makes, refuses nothing
/// here, and the link fails for want of memory alone: so `Kex` and `LinkFault` do not come.
pub type ConnectionError = RunError<RecordError<NoMemory>, ()>;

/// What the owner of a connection says with an input.
#[derive(Drop)]
pub struct Given {
    /// The answer to what the input asks of a user (`Connection::question`). A user who asks to be
    /// let in by anything else than what the question told is not to be accepted with it.
    pub answer: Auth,
    /// Whether the transport takes the new keys into use behind this input, a payload numbered 20
    /// to 49 (RFC 4253 section 7.3).
    pub keys_in_use: bool,
}

impl Given {
    /// Nobody is let in, and no keys are taken into use.
    pub fn nothing() -> Given {
        Given {
            answer: Auth::reject(),
            keys_in_use: false,
        }
    }
}

/// One side of a connection above its transport: a session, what it answers to callbacks, what it
/// told and nobody has taken out yet, and the signatures that its owner vouches for.
#[derive(Drop)]
pub struct Connection {
    pub(crate) alloc: Global,
    pub(crate) session: Session,
    rules: Rules,
    pub(crate) verifier: TableVerifier,
    handler: Recorded<Policy>,
    kex: TransportKex,
    outbox: Outbox,
}

impl Connection {
    ghost use Rattle.std.specs.Prelude.{◌≡◌, List, [], ◌∷◌, IfOk, IfErr, OnOk, IfSome, MatchOption};
    ghost use Rattle.std.specs.Prelude.{not};
    ghost use Rattle.std.specs.Option.{option_copied};
    ghost use Rattle.ssh_wire.specs.declared.error.WireError.TheVariants.{NoMemory as NoWireMemory};
    ghost use Rattle.ssh_link.specs.declared.link.TraceEntry.{TraceEntry as Entry};
    ghost use Rattle.ssh_rules.specs.World.{World, Settings, settings_of, in_exchange};
    ghost use Rattle.ssh_rules.specs.Run.{wants_commands, who};
    ghost use Rattle.ssh_session.specs.Between.{untold};
    ghost use Rattle.ssh_session.specs.Serve.{Refines};
    ghost use Rattle.ssh_embed.specs.Story.{Adds, Came, Round};
    ghost use Rattle.ssh_embed.specs.Taking.{IsOpened, Takes, called};

    /// A connection before its first input, of a peer that named its software by this line (RFC
    /// 4253 section 4.2), under the id of its first exchange of keys (section 7.2). `repeatable`
    /// says whether the transport can begin an exchange where the session asks for one. `NoMemory`
    /// is the only error.
    pub fn new(
        alloc: Global,
        config: &Config,
        rules: Rules,
        session_id: &[u8],
        remote_sshid: &[u8],
        repeatable: bool,
    ) -> Result<Connection, WireError>
        requires { length session_id.now < 2 ^ 32 }
        ensures opens { IfOk result (λ connection. IsOpened (settings_of config.now session_id.now
            remote_sshid.now repeatable) connection) }
        ensures memory { IfErr result (λ e. e ≡ NoWireMemory) }
    {
        let session = Session::new(alloc, config, session_id, remote_sshid)?;
        Ok(Connection {
            alloc,
            session,
            rules,
            verifier: TableVerifier::new(alloc),
            handler: Recorded::new(alloc, Policy::new(rules, Auth::reject())),
            kex: TransportKex::new(alloc, repeatable),
            outbox: Outbox::new(alloc),
        })
    }

    /// Takes one input and finishes it, as `Session::step` does: what it tells the link stands
    /// behind what waits in the outbox, and the callbacks that it made are `calls` until the next
    /// input. The signatures that were vouched for count for this input alone.
    ///
    /// Nothing of the connection is served before an accepted authentication (RFC 4252 section 6):
    /// whatever the inputs so far were, each callback of the connection and each frame of a channel
    /// that this one tells has a call before it that accepted a user (`story`).
    pub fn take(&mut self, input: Input, given: Given) -> Result<Flow, ConnectionError>
        ensures taken { Takes self.old input self.new result }
        ensures story { (settings : Settings) (rounds : List Round) → Came settings rounds self.old
            → Adds settings rounds self.old input self.new result }
        ensures alone { self.new.verifier ≡ [] }
    {
        let flow = self.take_given(input, given);
        self.verifier = TableVerifier::new(self.alloc);
        flow
    }

    // The same, with the signatures that are vouched for.
    fn take_given(&mut self, input: Input, given: Given) -> Result<Flow, ConnectionError>
        ensures taken { Takes self.old input self.new result }
        ensures told { OnOk result (untold self.new.session ≡ []) }
        ensures repeats { self.new.kex.repeatable ≡ self.old.kex.repeatable }
    {
        let Given {
            answer,
            keys_in_use,
        } = given;
        self.handler = Recorded::new(self.alloc, Policy::new(self.rules, answer));
        self.kex.before_input(keys_in_use);
        self.session.step(
            &mut self.handler,
            &self.verifier,
            &mut self.kex,
            &mut self.outbox,
            input,
        )
    }

    /// The callbacks that the last input made, in order, with their arguments and answers and the
    /// commands that they recorded. After `Err(RunError::Handler(..))` some are missing.
    pub fn calls(&self) -> &[Call<RecordError<NoMemory>>]
        ensures { IfSome (called self.now) (λ calls. result.now ≡ calls) }
    {
        self.handler.calls()
    }

    /// What comes first of what the session told, without taking it out.
    pub fn first(&self) -> Option<&TraceEntry>
        ensures { MatchOption result (self.now.outbox ≡ [])
            (λ entry. (rest : List Entry) × (self.now.outbox ≡ entry.now ∷ rest)) }
    {
        self.outbox.first()
    }

    /// Takes out what comes first of what the session told: a frame, a notice, or what came of a
    /// command.
    pub fn take_out(&mut self) -> Option<TraceEntry>
        ensures { MatchOption result ((self.old.outbox ≡ []) × (self.new ≡ self.old))
            (λ entry. (self.old.outbox ≡ entry ∷ self.new.outbox)
            × (self.old ≡ record self.new { outbox = self.old.outbox })) }
    {
        self.outbox.take_first()
    }

    /// The name of the user who was let in, and None before (RFC 4252 section 5).
    pub fn user(&self) -> Option<&str>
        ensures { (w : World) → Refines self.now.session w → option_copied result ≡ who w.user }
    {
        self.session.user()
    }

    /// Whether commands are taken: no exchange of keys runs, and on no channel data wait.
    pub fn commands_wanted(&self) -> bool
        ensures { (w : World) → Refines self.now.session w → result ≡ wants_commands w }
    {
        self.session.commands_wanted()
    }

    /// Whether answers to opens are taken: no exchange of keys runs.
    pub fn replies_wanted(&self) -> bool
        ensures { (w : World) → Refines self.now.session w → result ≡ not (in_exchange w) }
    {
        self.session.replies_wanted()
    }
}
