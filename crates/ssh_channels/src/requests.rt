// Requests of the peer that want replies, and the replies to them.
ghost use Rattle.std.specs.Prelude.{◌≡◌, IfOk, IfErr, OnOk, OnErr};
ghost use Rattle.ssh_channels.specs.declared.error.TableError.TheVariants.{NoMemory};
ghost use Rattle.ssh_channels.specs.Line as line;
ghost use Rattle.ssh_channels.specs.Table as table;
ghost use Rattle.ssh_channels.specs.Calls as calls;

use crate::{Encrypted, TableError};
use ssh_wire::ChannelId;

impl Encrypted {
    /// A request of the peer's on the channel wants a reply, which is owed from then on (RFC 4254
    /// section 5.4). Answers its place on the channel: how many replies were wanted there before
    /// it. None exactly where the channel is not established.
    pub fn request(&mut self, channel: ChannelId) -> Result<Option<u64>, TableError>
        ensures place { IfOk result (λ place. place ≡ calls.place_at channel.0 self.old) }
        ensures table { OnOk result (self.new ≡ calls.request channel.0 self.old) }
        ensures unchanged { OnErr result (self.new ≡ self.old) }
        ensures memory { IfErr result (λ e. e ≡ NoMemory) }
    {
        let Some(line) = self.lines.get_mut(&channel.0) else {
            return Ok(None);
        };
        if !line.confirmed {
            return Ok(None);
        }
        let place = line.want_reply()?;
        Ok(Some(place))
    }

    /// The reply of this place, or the first that is owed, is settled as CHANNEL_SUCCESS or as
    /// CHANNEL_FAILURE (RFC 4254 section 5.4). It is staged once no reply before it is owed, and
    /// the settled ones behind it with it, so that replies go out in the order of the requests.
    /// `false` exactly where no such reply is owed.
    pub fn settle(
        &mut self,
        channel: ChannelId,
        place: Option<u64>,
        success: bool,
    ) -> Result<bool, TableError>
        ensures answer { IfOk result (λ r. r
            ≡ table.has (line.owes_reply place) channel.0 self.old) }
        ensures table { OnOk result (self.new ≡ calls.settle channel.0 place success self.old) }
        ensures unchanged { OnErr result (self.new ≡ self.old) }
        ensures memory { IfErr result (λ e. e ≡ NoMemory) }
    {
        let Some(line) = self.lines.get_mut(&channel.0) else {
            return Ok(false);
        };
        if !line.owes_reply(place) {
            return Ok(false);
        }
        line.settle_reply(self.alloc, channel, place, success, &mut self.staged)?;
        Ok(true)
    }
}
