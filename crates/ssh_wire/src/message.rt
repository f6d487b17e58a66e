//! The numbers of the messages (RFC 4250 section 4.1.2). Their fields are in
//! `specs/Messages.antt`, for reading and for writing alike.

ghost use Rattle.std.specs.Prelude.{◌≡◌, ℕ, List, drop};
ghost use Rattle.ssh_wire.specs.Field.{Field, Values, SpellsAll, MisfitsAll, SpellsWhole};
ghost use Rattle.ssh_wire.specs.Messages.{Message, written, spellings, AreCarried};
ghost use Rattle.ssh_wire.specs.OneReading.{SaysOne, HasOneReason, NeverBoth};

/// SSH_MSG_DISCONNECT: the connection ends (RFC 4253 section 11.1).
pub const DISCONNECT: u8 = 1;

/// SSH_MSG_IGNORE: nothing is to be done (RFC 4253 section 11.2).
pub const IGNORE: u8 = 2;

/// SSH_MSG_UNIMPLEMENTED: a message was not understood (RFC 4253 section 11.4).
pub const UNIMPLEMENTED: u8 = 3;

/// SSH_MSG_DEBUG: something for those who look for a fault (RFC 4253 section 11.3).
pub const DEBUG: u8 = 4;

/// SSH_MSG_SERVICE_REQUEST: a service is asked for (RFC 4253 section 10).
pub const SERVICE_REQUEST: u8 = 5;

/// SSH_MSG_SERVICE_ACCEPT: it is given (RFC 4253 section 10).
pub const SERVICE_ACCEPT: u8 = 6;

/// SSH_MSG_EXT_INFO: what a side can do beside (RFC 8308 section 2.3).
pub const EXT_INFO: u8 = 7;

/// SSH_MSG_KEXINIT: an exchange of keys begins (RFC 4253 section 7.1). The numbers from this one
/// to 49 are the exchange's.
pub const KEXINIT: u8 = 20;

/// SSH_MSG_NEWKEYS: the new keys are taken into use (RFC 4253 section 7.3).
pub const NEWKEYS: u8 = 21;

/// SSH_MSG_USERAUTH_REQUEST: a user asks to be let in (RFC 4252 section 5).
pub const USERAUTH_REQUEST: u8 = 50;

/// SSH_MSG_USERAUTH_FAILURE: the user is not let in yet (RFC 4252 section 5.1).
pub const USERAUTH_FAILURE: u8 = 51;

/// SSH_MSG_USERAUTH_SUCCESS: the user is let in (RFC 4252 section 5.1).
pub const USERAUTH_SUCCESS: u8 = 52;

/// SSH_MSG_USERAUTH_BANNER: a text for the user (RFC 4252 section 5.4).
pub const USERAUTH_BANNER: u8 = 53;

/// SSH_MSG_USERAUTH_PK_OK: the offered key may sign (RFC 4252 section 7).
pub const USERAUTH_PK_OK: u8 = 60;

/// SSH_MSG_USERAUTH_INFO_REQUEST: prompts for the user (RFC 4256 section 3.2).
pub const USERAUTH_INFO_REQUEST: u8 = 60;

/// SSH_MSG_USERAUTH_INFO_RESPONSE: the responses to them (RFC 4256 section 3.4).
pub const USERAUTH_INFO_RESPONSE: u8 = 61;

/// SSH_MSG_GLOBAL_REQUEST: a request that is no channel's (RFC 4254 section 4).
pub const GLOBAL_REQUEST: u8 = 80;

/// SSH_MSG_REQUEST_SUCCESS: it was done (RFC 4254 section 4).
pub const REQUEST_SUCCESS: u8 = 81;

/// SSH_MSG_REQUEST_FAILURE: it was not (RFC 4254 section 4).
pub const REQUEST_FAILURE: u8 = 82;

/// SSH_MSG_CHANNEL_OPEN: a channel is asked for (RFC 4254 section 5.1).
pub const CHANNEL_OPEN: u8 = 90;

/// SSH_MSG_CHANNEL_OPEN_CONFIRMATION: it is open (RFC 4254 section 5.1).
pub const CHANNEL_OPEN_CONFIRMATION: u8 = 91;

/// SSH_MSG_CHANNEL_OPEN_FAILURE: it is refused (RFC 4254 section 5.1).
pub const CHANNEL_OPEN_FAILURE: u8 = 92;

/// SSH_MSG_CHANNEL_WINDOW_ADJUST: more data may be sent (RFC 4254 section 5.2).
pub const CHANNEL_WINDOW_ADJUST: u8 = 93;

/// SSH_MSG_CHANNEL_DATA: data (RFC 4254 section 5.2).
pub const CHANNEL_DATA: u8 = 94;

/// SSH_MSG_CHANNEL_EXTENDED_DATA: data of another type (RFC 4254 section 5.2).
pub const CHANNEL_EXTENDED_DATA: u8 = 95;

/// SSH_MSG_CHANNEL_EOF: no more data follow (RFC 4254 section 5.3).
pub const CHANNEL_EOF: u8 = 96;

/// SSH_MSG_CHANNEL_CLOSE: the channel is closed (RFC 4254 section 5.3).
pub const CHANNEL_CLOSE: u8 = 97;

/// SSH_MSG_CHANNEL_REQUEST: a request on a channel (RFC 4254 section 5.4).
pub const CHANNEL_REQUEST: u8 = 98;

/// SSH_MSG_CHANNEL_SUCCESS: it was done (RFC 4254 section 5.4).
pub const CHANNEL_SUCCESS: u8 = 99;

/// SSH_MSG_CHANNEL_FAILURE: it was not (RFC 4254 section 5.4).
pub const CHANNEL_FAILURE: u8 = 100;

/// A message as it is written, of values that its fields can carry, is read as these values and to
/// its end.
pub fn written_is_read()
    ensures { (message : Message) (values : Values message.fields)
        → AreCarried message.fields values
        → SpellsWhole message.fields values (drop 1 (written message values)) }
{}

/// Bytes say at most one thing by a list of fields, with one rest after it, or are refused for one
/// reason, and never both; and so it is where nothing may follow the fields.
pub fn fields_say_one_thing()
    ensures value { (fields : List Field) → SaysOne (SpellsAll fields) }
    ensures reason { (fields : List Field) → HasOneReason (MisfitsAll fields) }
    ensures apart { (fields : List Field) → NeverBoth (SpellsAll fields) (MisfitsAll fields) }
    ensures whole { (fields : List Field) (values others : Values fields) (bytes : List ℕ)
        → SpellsWhole fields values bytes → SpellsWhole fields others bytes → values ≡ others }
{}

/// Fields as they are written, of values that they can carry, are read as these values.
pub fn spelled_is_read()
    ensures { (fields : List Field) (values : Values fields) → AreCarried fields values
        → SpellsWhole fields values (spellings fields values) }
{}
