// What a connection answers to callbacks: what its owner said with the input, and by rules.
ghost use Rattle.std.specs.Prelude.{◌≡◌};

use ssh_auth::{Auth, AuthHandler, PublicKeyOffer, Response, Unwritten, VerifiedPublicKey};
use ssh_handler::{Commands, Handler};
use ssh_keys::Certificate;
use ssh_link::ChannelOpenHandle;
use ssh_wire::ChannelId;
use std::mem;

/// Why a callback cannot go on: there was no memory.
#[derive(Clone, Copy, Debug, Drop, PartialEq, Eq)]
pub struct NoMemory;

/// What becomes of a channel that the peer opens.
#[derive(Clone, Copy, Debug, PartialEq, Eq)]
pub enum OpenRule {
    /// It is refused, as administratively prohibited.
    Refuse,
    /// It is accepted at once.
    Accept,
    /// It waits for an answer to its number, which comes as an input.
    Keep,
}

/// What becomes of the channels that the peer opens, by their type. Those of other types are
/// refused.
#[derive(Clone, Copy, Debug, PartialEq, Eq)]
pub struct Rules {
    /// Sessions (RFC 4254 section 6.1).
    pub sessions: OpenRule,
    /// Connections to a host beyond this side (RFC 4254 section 7.2, direct-tcpip).
    pub direct_tcpip: OpenRule,
    /// Connections to a socket at this side (OpenSSH PROTOCOL section 2.4, direct-streamlocal).
    pub direct_streamlocal: OpenRule,
}

impl Rules {
    /// Sessions are accepted, and all else is refused.
    pub fn standard() -> Rules {
        Rules {
            sessions: OpenRule::Accept,
            direct_tcpip: OpenRule::Refuse,
            direct_streamlocal: OpenRule::Refuse,
        }
    }
}

/// A handler of one input. It answers the one question of authentication that the input asks by
/// what its owner said, opens of the peer by rules, and all else as a handler that does not write
/// it.
#[derive(Drop)]
pub struct Policy {
    rules: Rules,
    answer: Auth,
}

// Does with an open what the rule says.
fn open_by(
    rule: OpenRule,
    reply: ChannelOpenHandle,
    session: &mut Commands<'_>,
) -> Result<(), NoMemory> {
    let answer = match rule {
        OpenRule::Accept => reply.accept(),
        OpenRule::Refuse => reply.reject_default(),
        OpenRule::Keep => {
            reply.into_channel();
            return Ok(());
        }
    };
    session.answer_open(answer).or(Err(NoMemory))
}

impl Policy {
    pub(crate) fn new(rules: Rules, answer: Auth) -> Policy
        ensures { result ≡ record { rules = rules; answer = answer } }
    {
        Policy { rules, answer }
    }

    // The answer, after which the user is refused.
    fn take_answer(&mut self) -> Auth
        ensures { result ≡ self.old.answer }
    {
        mem::replace(&mut self.answer, Auth::reject())
    }

    // Whether the answer lets the user in.
    fn accepts(&self) -> bool {
        matches!(self.answer, Auth::Accept)
    }
}

impl AuthHandler for Policy {
    type Error = NoMemory;

    fn untold(&mut self, _by: Unwritten) -> Result<(), NoMemory> {
        Ok(())
    }

    fn auth_none(&mut self, _user: &str) -> Result<Auth, NoMemory> {
        Ok(self.take_answer())
    }

    fn auth_password(&mut self, _user: &str, _password: &str) -> Result<Auth, NoMemory> {
        Ok(self.take_answer())
    }

    // A key that lets the user in once it has signed is asked about again behind its signature.
    fn auth_publickey_offered(
        &mut self,
        _user: &str,
        _offer: PublicKeyOffer<'_>,
    ) -> Result<Auth, NoMemory> {
        if self.accepts() {
            return Ok(Auth::Accept);
        }
        Ok(self.take_answer())
    }

    fn auth_publickey(
        &mut self,
        _user: &str,
        _key: VerifiedPublicKey<'_>,
    ) -> Result<Auth, NoMemory> {
        Ok(self.take_answer())
    }

    fn auth_openssh_certificate(
        &mut self,
        _user: &str,
        _certificate: &Certificate,
    ) -> Result<Auth, NoMemory> {
        Ok(self.take_answer())
    }

    fn auth_keyboard_interactive(
        &mut self,
        _user: &str,
        _submethods: &str,
        _response: Option<Response<'_>>,
    ) -> Result<Auth, NoMemory> {
        Ok(self.take_answer())
    }
}

impl Handler for Policy {
    fn channel_open_session(
        &mut self,
        _channel: ChannelId,
        reply: ChannelOpenHandle,
        session: &mut Commands<'_>,
    ) -> Result<(), NoMemory> {
        open_by(self.rules.sessions, reply, session)
    }

    fn channel_open_direct_tcpip(
        &mut self,
        _channel: ChannelId,
        _host_to_connect: &str,
        _port_to_connect: u32,
        _originator_address: &str,
        _originator_port: u32,
        reply: ChannelOpenHandle,
        session: &mut Commands<'_>,
    ) -> Result<(), NoMemory> {
        open_by(self.rules.direct_tcpip, reply, session)
    }

    fn channel_open_direct_streamlocal(
        &mut self,
        _channel: ChannelId,
        _socket_path: &str,
        reply: ChannelOpenHandle,
        session: &mut Commands<'_>,
    ) -> Result<(), NoMemory> {
        open_by(self.rules.direct_streamlocal, reply, session)
    }
}
