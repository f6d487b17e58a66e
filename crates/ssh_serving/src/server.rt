// A server's side of a connection, and what it is made of.
ghost use Rattle.std.specs.Prelude.{◌<◌, ◌^◌, length};

use crate::common::CommonSession;
use crate::peer_open::PeerOpen;
use bytes::Bytes;
use ssh_channels::{Encrypted, TableError};
use ssh_handler::Config;
use ssh_rules::{EncryptedState, Keys, Outstanding};
use ssh_wire::{ChannelId, Text, WireError};
use std::alloc::Global;
use std::collections::{BTreeMap, VecDeque};

/// A server's side of one connection, above the encrypted transport: what it says in answer to one
/// payload, one command or one tick. When that is handed on, a session says.
#[derive(Drop)]
pub struct Server {
    /// Where memory is taken.
    pub alloc: Global,
    /// What is kept of both sides.
    pub common: CommonSession<Config>,
    /// That of the key exchange (RFC 4253 section 7.2).
    pub session_id: Bytes,
    /// What is waited for.
    pub state: EncryptedState,
    /// Whether a USERAUTH_REQUEST was finished.
    pub(crate) requested: bool,
    /// The channels, and the frames that were written.
    pub table: Encrypted,
    /// What the peer said of each open that waits for its answer, by this side's number.
    pub(crate) opens: BTreeMap<u32, PeerOpen>,
    /// Whether the peer gave up opening sessions (OpenSSH PROTOCOL section 2.2).
    pub(crate) no_more_sessions: bool,
    /// The global requests of this side that wait for a reply, the oldest first.
    pub(crate) outstanding: VecDeque<Outstanding>,
    /// How many keepalive ticks came since the peer was heard last.
    pub(crate) keepalives: u64,
    /// The exchange of keys, and how much passed under the keys in use.
    pub keys: Keys,
    ghost session_id_fits: { length session_id < 2 ^ 32 },
}

impl Server {
    ghost use Rattle.std.specs.Prelude.{◌≡◌, ◌<◌, ◌^◌, length, Bool, IfOk, IfErr, OnOk, OnErr};
    ghost use Rattle.ssh_wire.specs.declared.error.WireError.TheVariants.{NoMemory};
    ghost use Rattle.ssh_channels.specs.declared.error.TableError.TheVariants as table;
    ghost use Rattle.ssh_channels.specs.Does.{goes_out};
    ghost use Rattle.ssh_channels.specs.Lines.{find, goes_on};
    ghost use Rattle.ssh_rules.specs.World.{World, lined, settings_of, opening_world};
    ghost use Rattle.ssh_serving.specs.Serve.{Refines, IsSameServer};

    /// A server's side before the first payload. `session_id` is that of the key exchange (RFC 4253
    /// section 7.2), `remote_sshid` the peer's identification line. `NoMemory` is the only error.
    pub fn new(
        alloc: Global,
        config: &Config,
        session_id: &[u8],
        remote_sshid: &[u8],
    ) -> Result<Server, WireError>
        requires { length session_id.now < 2 ^ 32 }
        ensures opens { (repeatable : Bool) → IfOk result (λ server.
            Refines server (opening_world (settings_of config.now session_id.now remote_sshid.now
            repeatable))) }
        ensures memory { IfErr result (λ e. e ≡ NoMemory) }
    {
        Ok(Server {
            alloc,
            common: CommonSession {
                auth_user: Text::new(alloc, "")?,
                remote_sshid: Bytes::copy_from_slice(alloc, remote_sshid)?,
                config: *config,
                wants_reply: false,
                disconnected: false,
            },
            session_id: Bytes::copy_from_slice(alloc, session_id)?,
            state: EncryptedState::WaitingAuthServiceRequest {
                sent: false,
                accepted: false,
            },
            requested: false,
            table: Encrypted::new(alloc),
            opens: BTreeMap::new(alloc),
            no_more_sessions: false,
            outstanding: VecDeque::new(alloc),
            keepalives: 0,
            keys: Keys::renewed(),
        })
    }

    /// What waits on the channel is written as far as the credit goes, and then the EOF and the
    /// CLOSE that waited behind it (RFC 4254 sections 5.2 and 5.3). Answers how many bytes of data
    /// were written. `NoMemory` is the only error, and leaves the server as it was.
    pub fn flush_pending(&mut self, channel: ChannelId) -> Result<usize, TableError>
        ensures framed { (w : World) → Refines self.old w → IfOk result (λ count. count
            ≡ goes_out (find channel.0 w.channels.lines.entries)) }
        ensures world { OnOk result ((w : World) → Refines self.old w →
            Refines self.new (lined (goes_on channel.0) w)) }
        ensures unchanged { OnErr result (self.new ≡ self.old) }
        ensures memory { IfErr result (λ e. e ≡ table.NoMemory) }
        ensures session { IsSameServer self.old self.new }
    {
        self.table.flush_pending(channel)
    }
}
