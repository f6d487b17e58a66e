// An end, and the frames of it that the other end has not taken.
ghost use Rattle.std.specs.Prelude.{◌≡◌, ◌⊎◌, ◌<◌, IfOk, IfErr, OnOk};
ghost use Rattle.ssh_ends.specs.End.{with_table};
ghost use Rattle.ssh_ends.specs.Ends as spec;
ghost use Rattle.ssh_ends.specs.Run.{IsRanged};
ghost use Rattle.ssh_ends.specs.declared.error.EndError.TheVariants.{NoMemory};

use crate::{Delivered, End, EndError, EndEvent};
use ssh_channels::FrameSink;
use ssh_link::Frame;
use std::alloc::Global;
use std::marker::Model;

/// An end, and the frames that it handed on and the other end has not taken, in order.
#[derive(Drop)]
pub(crate) struct Post {
    alloc: Global,
    end: End,
    flight: FrameSink,
}

impl Model for Post {
    ghost use Rattle.ssh_ends.specs.Ends.{Post as PostOf};

    ghost Value = { PostOf };

    ghost view = { λ post. record { end = post.end; flight = post.flight } };
}

impl Post {
    pub(crate) fn new(alloc: Global, window: u32, packet: u32) -> Post
        requires { 0 < packet }
        ensures { result ≡ spec.new_post window packet }
    {
        Post {
            alloc,
            end: End::new(alloc, window, packet),
            flight: FrameSink::new(alloc),
        }
    }

    /// An event that is about this end.
    pub(crate) fn turn(
        &mut self,
        other: &mut Post,
        event: EndEvent,
    ) -> Result<Option<Delivered>, EndError>
        ensures turned { IfOk result (spec.Turned event self.old other.old self.new other.new) }
        ensures ranged { OnOk result (IsRanged event) }
        ensures errors { IfErr result (λ e. (e ≡ NoMemory)
            ⊎ spec.Stops event self.old other.old e) }
    {
        match event {
            EndEvent::Move(_) => self.take(other),
            accepted => {
                self.accept(accepted)?;
                Ok(None)
            }
        }
    }

    // The end accepts this, and hands its frames on.
    fn accept(&mut self, event: EndEvent) -> Result<(), EndError>
        ensures accepted { OnOk result (spec.Accepted event self.old self.new) }
        ensures ranged { OnOk result (IsRanged event) }
        ensures errors { IfErr result (λ e. (e ≡ NoMemory) ⊎ spec.HasNoneFree event self.old.end) }
    {
        accept(&mut self.end, event)?;
        self.hand_on()
    }

    // The end takes the first frame of the other's, and hands its own on. Nothing happens where
    // there is none.
    fn take(&mut self, other: &mut Post) -> Result<Option<Delivered>, EndError>
        ensures took { IfOk result (spec.Took self.old other.old self.new other.new) }
        ensures errors { IfErr result (λ e. (e ≡ NoMemory)
            ⊎ spec.TakesNone other.old.flight self.old.end e) }
    {
        let Some(frame) = other.flight.pop_front() else {
            return Ok(None);
        };
        let payload = payload_of(self.alloc, &frame)?;
        match self.end.take(payload.as_slice()) {
            Ok(delivered) => {
                self.hand_on()?;
                Ok(delivered)
            }
            Err(why) => Err(why),
        }
    }

    // What the end wrote is under way behind the rest.
    fn hand_on(&mut self) -> Result<(), EndError>
        ensures handed { OnOk result (self.new ≡ spec.handed_on self.old.end self.old.flight) }
        ensures memory { IfErr result (λ e. e ≡ NoMemory) }
    {
        self.end.out(&mut self.flight)
    }

    /// Whether the other end has taken all frames.
    pub(crate) fn is_quiet(&self) -> bool
        ensures { result ≡ spec.has_no_flight self.now }
    {
        self.flight.is_empty()
    }
}

// The bytes of a frame, in one piece.
fn payload_of(alloc: Global, frame: &Frame) -> Result<Vec<u8>, EndError>
    ensures ok { IfOk result (λ payload. payload.items ≡ frame.now.payload) }
    ensures memory { IfErr result (λ e. e ≡ NoMemory) }
{
    let (head, body) = frame.parts();
    let mut payload = Vec::new(alloc);
    payload.extend_from_slice(head)?;
    payload.extend_from_slice(body)?;
    Ok(payload)
}

// The end accepts this.
fn accept(end: &mut End, event: EndEvent) -> Result<(), EndError>
    ensures accepted { OnOk result (end.new ≡ with_table (spec.accepting event end.old) end.old) }
    ensures ranged { OnOk result (IsRanged event) }
    ensures errors { IfErr result (λ e. (e ≡ NoMemory) ⊎ spec.HasNoneFree event end.old) }
{
    match event {
        EndEvent::Open(_) => {
            end.open()?;
            Ok(())
        }
        EndEvent::Data(_, channel, ext, bytes) => {
            end.data(channel, ext, bytes)?;
            Ok(())
        }
        EndEvent::Eof(_, channel) => {
            end.eof(channel)?;
            Ok(())
        }
        EndEvent::Close(_, channel) => {
            end.close(channel)?;
            Ok(())
        }
        EndEvent::Target(_, channel, target) => {
            end.set_target(channel, target);
            Ok(())
        }
        EndEvent::Move(_) => Ok(()),
    }
}
