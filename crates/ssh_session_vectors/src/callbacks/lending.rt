// What a session lends to a callback, as a callback reads it.
ghost use Rattle.std.specs.Prelude.{◌≡◌, []};

use bytes::Bytes;
use ssh_channels::{ChannelParams, Encrypted, TableError};
use ssh_handler::{Commands, Config, Handler};
use ssh_stories::{Answering, Lent, Plan, QUIET, Told};
use ssh_wire::ChannelId;
use std::alloc::Global;
use std::test::*;

// The channel of the callback.
const CHANNEL: ChannelId = ChannelId(2);

// The line by which the peer's software names itself.
const LINE: &[u8] = b"SSH-2.0-test";

/// What a session lends.
#[derive(Drop)]
pub(super) struct Lender {
    alloc: Global,
    table: Encrypted,
    config: Config,
    commands_wanted: bool,
    replies_wanted: bool,
}

impl Lender {
    /// Of a server as it is set up where it names nothing else, without channels.
    pub(super) fn new(alloc: Global) -> Lender {
        Lender {
            alloc,
            table: Encrypted::new(alloc),
            config: Config::standard(),
            commands_wanted: true,
            replies_wanted: true,
        }
    }

    /// Nothing is recorded yet.
    pub(super) fn lend(&self) -> Commands<'_>
        ensures fresh { result.recorded ≡ [] }
    {
        Commands::new(
            self.alloc,
            &self.table,
            &self.config,
            LINE,
            self.commands_wanted,
            self.replies_wanted,
        )
    }
}

// What happened on a channel before the callback.
#[derive(Clone, Copy)]
enum Before {
    Nothing,
    // More data were to be sent than the peer had granted.
    Data,
    Eof,
}

// A channel: its number, the room that it grants its peer, its largest packet, and what happened.
type Channel = (u32, u32, u32, Before);

// A table with this channel, which is established. Its peer has number 7, and granted 2 bytes.
fn table(alloc: Global, (number, room, packet, before): Channel) -> Result<Encrypted, TableError> {
    let channel = ChannelId(number);
    let mut table = Encrypted::new(alloc);
    let params = ChannelParams::new(alloc, 7, channel, 2, room, 32_768, packet);
    let inserted = table.insert(params);
    let done = match before {
        Before::Nothing => Ok(true),
        Before::Data => table.data(channel, Bytes::from_static(b"abc"), false),
        Before::Eof => table.eof(channel),
    };
    inserted.and(done).and(Ok(table))
}

// What a callback of channel 2 reads where a session lends this, and takes commands and answers as
// it reads.
struct Row {
    shows: &'static str,
    channel: Option<Channel>,
    reads: Lent,
}

// Of no channel.
const NOTHING: Lent = Lent {
    window: 0,
    packet: 0,
    writable: 0,
    data_wait: false,
    can_send: false,
    commands: true,
    replies: true,
};

// Of a channel with a room of 9 bytes and packets of at most 5, on which nothing waits.
const ROOM: Lent = Lent {
    window: 9,
    packet: 5,
    writable: 5,
    can_send: true,
    ..NOTHING
};

static ROWS: [Row; 10] = [
    Row {
        shows: "no channel, and everything is taken",
        channel: None,
        reads: NOTHING,
    },
    Row {
        shows: "no answers to opens are taken",
        channel: None,
        reads: Lent {
            replies: false,
            ..NOTHING
        },
    },
    Row {
        shows: "no commands are taken",
        channel: None,
        reads: Lent {
            commands: false,
            ..NOTHING
        },
    },
    Row {
        shows: "nothing is taken",
        channel: None,
        reads: Lent {
            commands: false,
            replies: false,
            ..NOTHING
        },
    },
    Row {
        shows: "a small room",
        channel: Some((2, 5, 9, Before::Nothing)),
        reads: Lent {
            window: 5,
            packet: 9,
            ..ROOM
        },
    },
    Row {
        shows: "small packets",
        channel: Some((2, 9, 5, Before::Nothing)),
        reads: ROOM,
    },
    Row {
        shows: "no room",
        channel: Some((2, 0, 5, Before::Nothing)),
        reads: Lent {
            window: 0,
            writable: 0,
            ..ROOM
        },
    },
    Row {
        shows: "data that wait",
        channel: Some((2, 9, 5, Before::Data)),
        reads: Lent {
            data_wait: true,
            ..ROOM
        },
    },
    Row {
        shows: "an end of file",
        channel: Some((2, 9, 5, Before::Eof)),
        reads: Lent {
            can_send: false,
            ..ROOM
        },
    },
    Row {
        shows: "another channel",
        channel: Some((3, 9, 5, Before::Data)),
        reads: NOTHING,
    },
];

// The session that lends it, of a config that is the standard one.
fn set_up(alloc: Global, row: &Row) -> Result<Lender, TableError> {
    let table = match row.channel {
        Some(channel) => table(alloc, channel)?,
        None => Encrypted::new(alloc),
    };
    Ok(Lender {
        alloc,
        table,
        config: Config::standard(),
        commands_wanted: row.reads.commands,
        replies_wanted: row.reads.replies,
    })
}

// Whether the callback of an end of file reads it so.
fn is_told(alloc: Global, session: &mut Commands<'_>, reads: Lent) -> bool
    requires fresh { session.old.recorded ≡ [] }
{
    let plan = Plan {
        reads: true,
        ..QUIET
    };
    let mut handler = Answering::new(alloc, plan);
    // The handler counts on a line that is at least so long.
    let goes_on = session.remote_sshid().len() >= 8
        && handler.channel_eof(CHANNEL, session).is_ok();
    let is_told = handler.told.as_slice() == [Told::Eof(2), Told::Reads(2, reads)].as_slice();
    drop(handler);
    goes_on && is_told
}

// Whether that is so, and the room is read as a count too, and the config and the peer's line.
fn is_read(alloc: Global, row: &Row) -> bool {
    match set_up(alloc, row) {
        Ok(lender) => {
            let mut session = lender.lend();
            let is_told = is_told(alloc, &mut session, row.reads);
            let is_room = session.sender_window_size(CHANNEL) == row.reads.window as usize;
            let is_set_up = session.config().window_size == 2_097_152;
            let is_line = session.remote_sshid() == LINE;
            drop(session);
            drop(lender);
            is_told && is_room && is_set_up && is_line
        }
        Err(_) => false,
    }
}

#[test]
fn callbacks_read_what_they_are_lent(rt: HostRuntime) {
    for row in &ROWS {
        assert!(rt; is_read(rt.alloc(), row), "{}", row.shows);
    }
}
