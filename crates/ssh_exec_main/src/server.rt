// A server with one user, who may run one program.
use bytes::Bytes;
use ssh_auth::{Auth, AuthHandler, Unwritten};
use ssh_handler::{Commands, Handler};
use ssh_link::{ChannelOpenHandle, Command};
use ssh_wire::ChannelId;
use std::alloc::{AllocError, Global};

/// Why the server cannot go on.
#[derive(Clone, Copy, Drop)]
pub(crate) struct NoMemory;

// A command that could not be recorded comes back.
impl From<Command> for NoMemory {
    fn from(command: Command) -> NoMemory {
        drop(command);
        NoMemory
    }
}

impl From<AllocError> for NoMemory {
    fn from(_error: AllocError) -> NoMemory {
        NoMemory
    }
}

/// Lets alice in by her password, and runs `echo` on her channels.
#[derive(Drop)]
pub(crate) struct ExecServer {
    alloc: Global,
}

impl ExecServer {
    pub(crate) fn new(alloc: Global) -> ExecServer {
        ExecServer { alloc }
    }
}

impl AuthHandler for ExecServer {
    type Error = NoMemory;

    fn untold(&mut self, _by: Unwritten) -> Result<(), NoMemory> {
        Ok(())
    }

    fn auth_password(&mut self, user: &str, password: &str) -> Result<Auth, NoMemory> {
        if user == "alice" && password == "wonderland" {
            return Ok(Auth::Accept);
        }
        Ok(Auth::reject())
    }
}

impl Handler for ExecServer {
    fn channel_open_session(
        &mut self,
        _channel: ChannelId,
        reply: ChannelOpenHandle,
        session: &mut Commands<'_>,
    ) -> Result<(), NoMemory> {
        session.answer_open(reply.accept())?;
        Ok(())
    }

    fn exec_request(
        &mut self,
        channel: ChannelId,
        bytes: &[u8],
        session: &mut Commands<'_>,
    ) -> Result<(), NoMemory> {
        session.channel_success(channel)?;
        let status = match bytes.strip_prefix(b"echo ") {
            Some(text) => {
                session.data(channel, line(self.alloc, text)?)?;
                0
            }
            None => {
                session.extended_data(channel, 1, line(self.alloc, b"not found")?)?;
                127
            }
        };
        session.exit_status_request(channel, status)?;
        session.eof(channel)?;
        session.close(channel)?;
        Ok(())
    }

    // The opens that are not written here.
    fn refuse_open(
        &mut self,
        reply: ChannelOpenHandle,
        session: &mut Commands<'_>,
    ) -> Result<(), NoMemory> {
        session.answer_open(reply.reject_default())?;
        Ok(())
    }
}

// The text and a line's end.
fn line(alloc: Global, text: &[u8]) -> Result<Bytes, NoMemory> {
    let mut line = Vec::new(alloc);
    line.extend_from_slice(text)?;
    line.extend_from_slice(b"\n")?;
    Bytes::from_vec(line).or(Err(NoMemory))
}
