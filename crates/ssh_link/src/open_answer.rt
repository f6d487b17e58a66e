// The answer to an open of the peer, and the handle that owes one.
ghost use Rattle.std.specs.Prelude.{◌≡◌, None, Some, IfOk, IfErr};
ghost use Rattle.ssh_wire.specs.declared.error.WireError.TheVariants.{NoMemory};
ghost use Rattle.ssh_wire.specs.declared.open_failure.ChannelOpenFailure.TheVariants.{
  AdministrativelyProhibited,
};

use ssh_wire::{ChannelId, ChannelOpenFailure, Text, WireError};
use std::marker::Model;

/// The answer to a channel that the peer opens (RFC 4254 section 5.1). One that is dropped answers
/// nothing.
#[derive(Debug, Drop, PartialEq, Eq)]
pub struct OpenAnswer {
    /// This side's number of the channel.
    pub channel: ChannelId,
    /// Why the open is refused; none accepts it.
    pub rejection: Option<ChannelOpenFailure>,
    /// The description of a refusal and the language tag of that text; where a refusal has none,
    /// the description of its reason goes out, in English.
    pub texts: Option<(Text, Text)>,
}

impl OpenAnswer {
    /// An equal answer. `NoMemory` is the only error.
    pub fn copy(&self) -> Result<OpenAnswer, WireError>
        ensures ok { IfOk result (λ answer. answer ≡ self.now) }
        ensures memory { IfErr result (λ e. e ≡ NoMemory) }
    {
        let texts = match &self.texts {
            Some((description, language)) => Some((description.copy()?, language.copy()?)),
            None => None,
        };
        Ok(OpenAnswer {
            channel: self.channel,
            rejection: self.rejection,
            texts,
        })
    }
}

/// The duty to answer a channel that the peer opens. It cannot be dropped: whoever is handed one
/// makes an answer of it, or keeps its number to answer later. That the answer is sent is not owed.
/// A clause sees the channel.
#[derive(Debug)]
pub struct ChannelOpenHandle {
    channel: ChannelId,
}

impl Model for ChannelOpenHandle {
    ghost use Rattle.ssh_wire.specs.declared.channel_id.ChannelId.{ChannelId};

    ghost Value = { ChannelId };

    ghost view = { λ handle. handle.channel };
}

impl ChannelOpenHandle {
    /// The duty to answer the open of the channel with this number.
    pub fn new(channel: ChannelId) -> ChannelOpenHandle
        ensures { result ≡ channel }
    {
        ChannelOpenHandle { channel }
    }

    /// This side's number of the channel.
    pub fn channel(&self) -> ChannelId
        ensures { result ≡ self.now }
    {
        self.channel
    }

    // The answer for its channel.
    fn answer(
        self,
        rejection: Option<ChannelOpenFailure>,
        texts: Option<(Text, Text)>,
    ) -> OpenAnswer
        ensures { result ≡ record { channel = self; rejection = rejection; texts = texts } }
    {
        OpenAnswer {
            channel: self.into_channel(),
            rejection,
            texts,
        }
    }

    /// The open is accepted.
    pub fn accept(self) -> OpenAnswer
        ensures { result ≡ record { channel = self; rejection = None; texts = None } }
    {
        self.answer(None, None)
    }

    /// The open is refused for this reason, with its description in English.
    pub fn reject(self, reason: ChannelOpenFailure) -> OpenAnswer
        ensures { result ≡ record { channel = self; rejection = Some reason; texts = None } }
    {
        self.answer(Some(reason), None)
    }

    /// The open is refused as administratively prohibited.
    pub fn reject_default(self) -> OpenAnswer
        ensures { result ≡ record {
          channel = self;
          rejection =
              Some AdministrativelyProhibited;
          texts = None;
        } }
    {
        self.reject(ChannelOpenFailure::AdministrativelyProhibited)
    }

    /// The open is refused for this reason, with this description and its language tag.
    pub fn reject_with(
        self,
        reason: ChannelOpenFailure,
        description: Text,
        language: Text,
    ) -> OpenAnswer
        ensures { result ≡ record {
          channel = self;
          rejection = Some reason;
          texts =
              Some (description, language);
        } }
    {
        self.answer(Some(reason), Some((description, language)))
    }

    /// The number alone: the open is answered later, by a command.
    pub fn into_channel(self) -> ChannelId
        ensures { result ≡ self }
    {
        let ChannelOpenHandle { channel } = self;
        channel
    }
}
