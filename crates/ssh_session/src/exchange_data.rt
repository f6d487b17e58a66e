// What an exchange hash is made of.
ghost use Rattle.std.specs.Prelude.{◌≡◌, IfOk, IfErr};
ghost use Rattle.ssh_wire.specs.declared.error.WireError.TheVariants.{NoMemory};
ghost use Rattle.ssh_session.specs.KeyExchange.{between};

use bytes::Bytes;
use ssh_wire::WireError;
use std::alloc::Global;

/// The texts and messages that the hash of an exchange of keys is made of (RFC 4253 section 8).
#[derive(Drop)]
pub struct Exchange {
    /// The client's identification line, without its end (RFC 4253 section 4.2).
    pub client_id: Bytes,
    /// The server's identification line, without its end.
    pub server_id: Bytes,
    /// The payload of the client's KEXINIT (RFC 4253 section 7.1).
    pub client_kex_init: Bytes,
    /// The payload of the server's KEXINIT.
    pub server_kex_init: Bytes,
    /// The client's exchange value (RFC 4253 section 8).
    pub client_ephemeral: Bytes,
    /// The server's exchange value.
    pub server_ephemeral: Bytes,
}

impl Exchange {
    /// An exchange between these two, of which no message came yet. `NoMemory` is the only error.
    pub fn new(alloc: Global, client_id: &[u8], server_id: &[u8]) -> Result<Exchange, WireError>
        ensures between { IfOk result (λ exchange. exchange
            ≡ between client_id.now server_id.now) }
        ensures memory { IfErr result (λ e. e ≡ NoMemory) }
    {
        Ok(Exchange {
            client_id: Bytes::copy_from_slice(alloc, client_id)?,
            server_id: Bytes::copy_from_slice(alloc, server_id)?,
            client_kex_init: Bytes::new(),
            server_kex_init: Bytes::new(),
            client_ephemeral: Bytes::new(),
            server_ephemeral: Bytes::new(),
        })
    }
}
