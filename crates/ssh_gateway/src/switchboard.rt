// The opens that nobody has decided, and the connections.
ghost use Rattle.std.specs.Prelude.{◌≡◌, ◌≢◌, not, filter, Err, OnOk};
ghost use Rattle.std.specs.Option.{option_map};
ghost use Rattle.std.specs.List.{find, position};
ghost use Rattle.ssh_gateway.specs.Board.{is_on, ended_by, opening_board, noted, noted_open};

use crate::TargetFault;
use ssh_auth::{Happening, Lent, OpenType, Question};
use ssh_wire::{ChannelId, Text};
use std::alloc::Global;
use std::collections::VecDeque;
use std::marker::Model;

/// A channel to a host that the peer opens (RFC 4254 section 7.2).
#[derive(Drop)]
pub(crate) struct Asking {
    /// This side's number of the channel.
    pub(crate) channel: ChannelId,
    pub(crate) host: Text,
    pub(crate) port: u32,
}

/// A connection to a host, for a channel that was accepted.
#[derive(Clone, Copy)]
pub(crate) struct Connection {
    pub(crate) id: u64,
    /// This side's number of the channel.
    pub(crate) channel: ChannelId,
    /// The peer sends no more.
    pub(crate) peer_ended: bool,
    /// The target gives no more, and the peer was told.
    pub(crate) target_ended: bool,
}

/// What a gateway goes by.
#[derive(Drop)]
pub(crate) struct Switchboard {
    pub(crate) undecided: VecDeque<Asking>,
    pub(crate) connections: Vec<Connection>,
    pub(crate) last_id: u64,
    pub(crate) last_ticket: u64,
    pub(crate) moment: u64,
}

impl Model for Switchboard {
    ghost use Rattle.ssh_gateway.specs.Board.{Board};

    ghost Value = { Board };

    ghost view = { λ board. record {
      undecided = board.undecided.items;
      connections = board.connections.items;
      last_id = board.last_id;
      last_ticket = board.last_ticket;
      moment = board.moment;
    } };
}

/// The connection of this channel.
pub(crate) fn connection_on(connections: &[Connection], channel: ChannelId) -> Option<&Connection>
    ensures { option_map (λ one. one.now) result ≡ find (is_on channel) connections.now }
{
    connections.iter().find(|one| one.channel.0 == channel.0)
}

/// Where it stands.
fn place_on(connections: &[Connection], channel: ChannelId) -> Option<usize>
    ensures { result ≡ position (is_on channel) connections.now }
{
    connections
        .iter()
        .position(|one| one.channel.0 == channel.0)
}

/// The peer sends no more on the channel.
fn end_peer(connections: &mut Vec<Connection>, channel: ChannelId)
    ensures { connections.new.items
        ≡ ended_by (position (is_on channel) connections.old.items) connections.old.items }
{
    if let Some(place) = place_on(connections, channel) {
        connections[place].peer_ended = true;
    }
}

/// The channel is closed.
fn forget(connections: &mut Vec<Connection>, channel: ChannelId)
    ensures { connections.new.items
        ≡ filter (λ one. not (is_on channel one)) connections.old.items }
{
    connections.retain(|one| one.channel.0 != channel.0);
}

impl Switchboard {
    pub(crate) fn new(alloc: Global) -> Switchboard
        ensures { result ≡ opening_board }
    {
        Switchboard {
            undecided: VecDeque::new(alloc),
            connections: Vec::new(alloc),
            last_id: 0,
            last_ticket: 0,
            moment: 0,
        }
    }

    /// Notes what was asked, as far as it concerns opens and connections. Where there is no memory
    /// for an open, that is the error, and only then there is one.
    pub(crate) fn note(&mut self, question: &Question) -> Result<(), TargetFault>
        ensures noted { OnOk result (self.new ≡ noted question.now self.old) }
        ensures memory { result ≢ Err TargetFault.Failed }
    {
        match question {
            Question::Lends(Lent::Opens(channel, opening)) => self.note_open(*channel, opening),
            Question::Lends(Lent::Happened(channel, Happening::Eof)) => {
                end_peer(&mut self.connections, *channel);
                Ok(())
            }
            Question::Lends(Lent::Happened(channel, Happening::Close)) => {
                forget(&mut self.connections, *channel);
                Ok(())
            }
            _ => Ok(()),
        }
    }

    fn note_open(&mut self, channel: ChannelId, opening: &OpenType) -> Result<(), TargetFault>
        ensures noted { OnOk result (self.new ≡ noted_open channel opening.now self.old) }
        ensures memory { result ≢ Err TargetFault.Failed }
    {
        let OpenType::DirectTcpip {
            host_to_connect,
            port_to_connect,
            ..
        } = opening
        else {
            return Ok(());
        };
        let Ok(host) = host_to_connect.copy() else {
            return Err(TargetFault::NoMemory);
        };
        let asking = Asking {
            channel,
            host,
            port: *port_to_connect,
        };
        self.undecided
            .push_back(asking)
            .or(Err(TargetFault::NoMemory))
    }
}
