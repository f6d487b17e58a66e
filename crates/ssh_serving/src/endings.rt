// The end of a channel (RFC 4254 section 5.3).
ghost use Rattle.ssh_rules.specs.declared.messages.Spoken.TheVariants.{Close};
ghost use Rattle.ssh_rules.specs.Rows.{spoken_acts};
ghost use Rattle.ssh_serving.specs.Serve.{Stays, Acted, IsSuited};

use crate::Server;
use crate::outside::Outside;
use ssh_auth::Happening;
use ssh_link::ChannelMsg;
use ssh_rules::RunError;
use ssh_wire::ChannelId;

impl Server {
    /// The channel is gone, which is answered by a CLOSE.
    pub(crate) fn peer_close<O: Outside>(
        &mut self,
        outside: &mut O,
        channel: ChannelId,
    ) -> Result<(), RunError<O::Error, O::KexError>>
        requires suits { IsSuited O.suits self.old }
        ensures does { Acted O.Transport.heard (λ w. spoken_acts w (Close channel)) self.old self.new outside.old outside.new result }
        ensures stays { Stays O.Transport.heard self.old self.new outside.old outside.new }
    {
        let there = self.table.peer_close(channel)?;
        if !there {
            return Ok(());
        }
        self.tell(
            outside,
            None,
            channel,
            None,
            ChannelMsg::Close,
            Happening::Close,
        )
    }
}
