// What a source gives, written on a channel.
ghost use Rattle.std.specs.Prelude.{◌≡◌, ◌<◌, ◌≤◌, [], IsErrOf};
ghost use Rattle.ssh_link.specs.Faults.{RoseOrFull};
ghost use Rattle.ssh_hub.specs.Views.{own_reservations};
ghost use Rattle.ssh_hub.specs.Words.{room_of};
ghost use Rattle.ssh_hub.specs.declared.answers.HandleError.TheVariants.{ReadFault};
ghost use Rattle.ssh_handles.specs.Callers.{hub_of, seen_by};
ghost use Rattle.ssh_handles.specs.Sending.{Sends};

use super::Caller;
use ssh_hub::HandleError;
use ssh_link::Source;
use ssh_wire::ChannelId;
use std::alloc::Global;
use std::sync::Wait;

// How many bytes are read at a time.
const PIECE: usize = 8192;

impl Caller {
    // Writes all bytes of the source on the channel, and says how many these were. Nothing is
    // reserved before, nor afterwards.
    pub fn send<R: Wait, S: Source>(
        &mut self,
        rt: &R,
        alloc: Global,
        channel: ChannelId,
        ext: Option<u32>,
        source: &mut S,
    ) -> Result<u64, HandleError>
        requires none { own_reservations (seen_by self.old) ≡ [] }
        requires room { 0 < room_of self.old.seat }
        ensures hub { hub_of self.new ≡ hub_of self.old }
        ensures room { room_of self.new.seat ≡ room_of self.old.seat }
        ensures none { own_reservations (seen_by self.new) ≡ [] }
        ensures entries { Sends channel ext (S.left source.old) (S.left source.new)
            (seen_by self.old) result (seen_by self.new) }
        ensures cause { IsErrOf result ReadFault → RoseOrFull (S.faults source.old)
            (S.faults source.new) }
        ensures later { S.faults source.old ≤ S.faults source.new }
    {
        let mut buf = [0u8; PIECE];
        let mut count: u64 = 0;
        for _ in rt.forever() {
            let Ok(length) = source.read(&mut buf) else {
                return Err(HandleError::ReadFault);
            };
            if length == 0 {
                return Ok(count);
            }
            if let Err(e) = self.write_copy(rt, alloc, channel, ext, &buf[..length]) {
                return Err(e);
            }
            count = count.saturating_add(length as u64);
        }
        unreachable!()
    }
}
