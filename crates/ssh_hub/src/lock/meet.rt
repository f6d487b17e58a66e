// How a lock is made, and how its seats are made and joined.
ghost use Rattle.std.specs.Prelude.{◌≡◌, ◌<◌, [], max, IfOk, IfErr, OnOk, OnErr};
ghost use Rattle.ssh_hub.specs.Rule.{newcomer};
ghost use Rattle.ssh_hub.specs.History.{newest};
ghost use Rattle.ssh_hub.specs.Words.{view_of, number_of, config_of, IsSeatOf, IsNew, HasCalled};
ghost use Rattle.ssh_hub.specs.Words.{Meets, has_room_for, room_of};
ghost use Rattle.ssh_hub.specs.declared.lock.HubLock.{HubLock};
ghost use Rattle.ssh_hub.specs.declared.answers.HandleError.TheVariants.{NoMemory};
ghost use Rattle.ssh_hub.specs.declared.history.HubCall.TheVariants.{SplitSeat};
ghost use Rattle.ssh_hub.specs.declared.history.HubReply.TheVariants.{SeatIs};

use super::{HubLock, Seat};
use crate::answers::{Config2, HandleError};
use crate::hub::Hub;
use crate::reservations::Reservations;
use crate::rule::{Compare, Pair, Twin};
use atomic_table::Table;
use ssh_wire::ChannelId;
use std::alloc::Global;
use std::marker::Brand;
use std::sync::Wait;

impl HubLock {
    /// A new hub, with memory for the commands and answers that may wait in it, and its first seat,
    /// which has the number 1 and room for reservations on one channel. `NoMemory` is the only
    /// error.
    pub fn new(alloc: Global, config: &Config2) -> Result<(HubLock, Seat), HandleError>
        requires inbox { 0 < config.now.channel_buffer_size }
        requires commands { 0 < config.now.event_buffer_size }
        ensures sizes { IfOk result (λ made. config_of made.0 ≡ config.now) }
        ensures seat { IfOk result (λ made. IsSeatOf made.0 made.1) }
        ensures first { IfOk result (λ made. view_of made.1 ≡ newcomer config.now 1 []) }
        ensures room { IfOk result (λ made. room_of made.1 ≡ 1) }
        ensures memory { IfErr result (λ e. e ≡ NoMemory) }
    {
        let reserved = Reservations::with_room(alloc, 1)?;
        let hub = Hub::new(alloc, config)?;
        let mut slots = Vec::new(alloc);
        slots.push(Some(hub))?;
        let Ok((table, inner)) = Table::new(alloc, &[0, 0, 0], slots, config) else {
            return Err(HandleError::NoMemory);
        };
        Ok((
            HubLock { alloc, table },
            Seat {
                inner,
                number: 1,
                place: None,
                reserved,
            },
        ))
    }

    /// Makes a new seat, with the next seat number and room for reservations on one channel, which
    /// has seen what this one has seen. `NoMemory` is the only error, and comes before any step.
    pub fn split<R: Wait>(&self, rt: &R, seat: &mut Seat) -> Result<Seat, HandleError>
        requires { IsSeatOf self.now seat.old }
        ensures seat { IsSeatOf self.now seat.new }
        ensures call { IfOk result (λ made. HasCalled seat.old SplitSeat (SeatIs (number_of made))
            seat.new) }
        ensures room { room_of seat.new ≡ room_of seat.old }
        ensures made { IfOk result (λ made. IsSeatOf self.now made × (room_of made ≡ 1)) }
        ensures new { IfOk result (λ made. IsNew (view_of seat.new) (view_of made)) }
        ensures memory { IfErr result (λ e. e ≡ NoMemory) }
        ensures no_step { OnErr result (view_of seat.new ≡ view_of seat.old) }
    {
        let reserved = Reservations::with_room(self.alloc, 1)?;
        Ok(self.twin(rt, seat, reserved))
    }

    /// Makes a new seat, with the next seat number and this memory for reservations.
    fn twin<R: Wait>(&self, rt: &R, seat: &mut Seat, reserved: Reservations) -> Seat
        requires seat { IsSeatOf self.now seat.old }
        requires reserved { reserved.held ≡ [] }
        ensures seat { IsSeatOf self.now seat.new }
        ensures room { (room_of seat.new ≡ room_of seat.old) × (room_of result ≡ reserved.room) }
        ensures call { HasCalled seat.old SplitSeat (SeatIs (number_of result)) seat.new }
        ensures given { IsSeatOf self.now result × IsNew (view_of seat.new) (view_of result) }
    {
        let mut hub = self.enter(rt, &mut seat.inner);
        let number = hub.split(seat.number);
        seat.place = self.finish::<Brand, (), u64>(&mut seat.inner, hub, &(), &number);
        let inner = self.table.shared.split_seat::<Twin>(&mut seat.inner);
        Seat {
            inner,
            number,
            place: None,
            reserved,
        }
    }

    /// Joins another seat into this one: what both have seen stands in one history, and the other
    /// seat is gone. What that one has reserved stays reserved, and nobody can give it back. It makes
    /// no call.
    pub fn join(&self, seat: &mut Seat, other: Seat)
        requires { IsSeatOf self.now seat.old × IsSeatOf self.now other }
        ensures seat { IsSeatOf self.now seat.new }
        ensures room { room_of seat.new ≡ room_of seat.old }
        ensures meets { Meets (view_of seat.old) (view_of other) (view_of seat.new) }
    {
        let Seat {
            inner,
            number: _,
            place: _,
            reserved: _,
        } = other;
        self.table.shared.join_seat::<Pair>(&mut seat.inner, inner);
        self.table.shared.load::<Compare>(&mut seat.inner, 1);
    }
}

impl Seat {
    /// The place of the seat's newest call in the history; none where it has made none.
    pub fn place(&self) -> Option<u64>
        ensures { result ≡ newest (view_of self.now).number (view_of self.now).seen }
    {
        self.place
    }

    /// Makes room for reservations on that many channels at once. There never becomes less of it.
    /// After `NoMemory`, the only error, the seat is unchanged.
    pub fn room(&mut self, channels: usize) -> Result<(), HandleError>
        ensures seat { (lock : HubLock) → IsSeatOf lock self.old → IsSeatOf lock self.new }
        ensures view { view_of self.new ≡ view_of self.old }
        ensures ok { OnOk result (room_of self.new ≡ max (room_of self.old) channels) }
        ensures memory { IfErr result (λ e. e ≡ NoMemory) }
        ensures unchanged { OnErr result (room_of self.new ≡ room_of self.old) }
    {
        self.reserved.make_room(channels)?;
        Ok(())
    }

    /// Whether the seat has reserved bytes of this channel, or has room for a reservation on one
    /// channel more.
    pub fn has_room(&self, channel: ChannelId) -> bool
        ensures { result ≡ has_room_for self.now channel.0 }
    {
        self.reserved.has_room(channel.0)
    }
}

fn is_shared<T: Send + Sync>() {}

fn is_sent<T: Send>() {}

/// Threads may share a `HubLock`, and a `Seat` may go to another thread: this compiles only if so.
pub fn crosses() {
    is_shared::<HubLock>();
    is_sent::<Seat>();
}
