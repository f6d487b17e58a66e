// What contracts say of a hub and its seats. No value of these types is made.
use crate::answers::{Config2, Deliver, Look, Put, PutReply, Received, Reserve, SlotAnswer, Taken};
use ssh_link::{ChannelMsg, Command, CommandOutcome, OpenAnswer, Refusal};
use ssh_wire::ChannelId;
use std::collections::LinkedList;

/// A call of the hub, with its arguments.
pub enum HubCall {
    /// `reserve`: the channel, and how many bytes are wanted.
    ReserveBytes(ChannelId, u32),
    /// `release`: the channel, and how many bytes go back.
    ReleaseBytes(ChannelId, u32),
    /// `put`: the command, how many bytes it spends, and whether its outcome is wanted.
    PutCommand(Command, u32, bool),
    /// `put_reply`: the answer to an open of the peer.
    PutAnswer(OpenAnswer),
    /// `take`: whether replies are asked for, and whether commands are.
    TakeNext(bool, bool),
    /// `ready`: the channel, its window and its packet size.
    MakeReady(ChannelId, u32, u32),
    /// `grant`: the channel, and by how many bytes the peer raised its window.
    GrantBytes(ChannelId, u32),
    /// `deliver`: the channel and the message.
    DeliverMsg(ChannelId, ChannelMsg),
    /// `receive`: the channel.
    ReceiveMsg(ChannelId),
    /// `answer`: the ticket, and what came of it.
    AnswerTicket(u64, CommandOutcome),
    /// `outcome`: the ticket.
    TakeOutcome(u64),
    /// `end`.
    EndHub,
    /// `ended`.
    AskEnded,
    /// `look`: the channel.
    LookAt(ChannelId),
    /// `claim`: the channel.
    ClaimChannel(ChannelId),
    /// `slot`.
    DrawSlot,
    /// `slot_answer`: the slot, and what came of it.
    AnswerSlot(u64, SlotAnswer),
    /// `slot_outcome`: the slot.
    TakeSlotAnswer(u64),
    /// `refusal`.
    AskRefusal,
    /// `nudge`.
    Nudge,
    /// `split`.
    SplitSeat,
}

/// What a call of the hub answers.
pub enum HubReply {
    /// Nothing.
    Done,
    /// To `reserve`.
    Reserved(Reserve),
    /// To `put`.
    WasPut(Put),
    /// To `put_reply`.
    ReplyWasPut(PutReply),
    /// To `take`.
    Took(Option<Taken>),
    /// To `deliver`.
    Delivered(Deliver),
    /// To `receive`.
    HasReceived(Received),
    /// To `outcome`.
    OutcomeIs(Option<CommandOutcome>),
    /// To `ended`.
    EndedAt(Option<u64>),
    /// To `look`.
    Saw(Option<Look>),
    /// To `claim`.
    Claimed(bool),
    /// To `slot`.
    SlotIs(u64),
    /// To `slot_outcome`.
    SlotAnswerIs(Option<SlotAnswer>),
    /// To `refusal`: the ticket of the refused command, and why.
    RefusalIs(Option<(u64, Refusal)>),
    /// To `split`: the number of the new seat.
    SeatIs(u64),
}

/// One call in the history, with the number of the seat that made it.
pub struct Entry {
    /// The number of the seat.
    pub by: u64,
    /// The call with its arguments.
    pub call: HubCall,
    /// What it answered.
    pub reply: HubReply,
}

/// Where a seat stands.
pub enum Stage {
    /// It holds no ticket.
    Idle,
    /// It waits with this ticket.
    Waiting(u64),
    /// Its ticket is served, and it has made no entry.
    Inside(u64),
    /// Its ticket is served, and it has made its entry.
    Leaving(u64),
}

/// What a seat knows. A seat that was joined into another has the number 0.
pub struct View {
    /// The sizes of the hub.
    pub config: Config2,
    /// The seat's number.
    pub number: u64,
    /// Where the seat stands.
    pub stage: Stage,
    /// The number that a `split` drew, until a new seat has it.
    pub spare: Option<u64>,
    /// The history so far.
    pub seen: LinkedList<Entry>,
    /// The seat's own calls.
    pub mine: LinkedList<Entry>,
    /// The shorter history of two seats that met, until they are compared.
    pub told: LinkedList<Entry>,
}
