// How notices to the users of channels are printed, and what came of commands.
ghost use Rattle.std.specs.Prelude.{◌≡◌, ◌++◌, codes, OnOk};
ghost use Rattle.std.specs.Fmt.{decimal};
ghost use Rattle.std.specs.String.{string_bytes};
ghost use Rattle.ssh_transcript.specs.Words.{flag_text, refusal_name, outcome_text};
ghost use Rattle.ssh_transcript.specs.Print.{msg_text, port_text, notice_text, notice_line};
ghost use Rattle.ssh_transcript.specs.Print.{answer_line};

use crate::argument::{print_flag, print_said};
use crate::happenings::msg_words;
use crate::print::{print_field, print_id};
use ssh_link::{ChannelMsg, CommandOutcome, Notice, Refusal};
use ssh_wire::ChannelId;
use std::alloc::{AllocError, Global};

/// How a refusal is named.
fn refusal_name(why: Refusal) -> &'static str
    ensures { result.now ≡ refusal_name why }
{
    match why {
        Refusal::Disconnected => "Disconnected",
        Refusal::ClientOnly => "ClientOnly",
        Refusal::NotAuthenticated => "NotAuthenticated",
        Refusal::UnknownChannel => "UnknownChannel",
        Refusal::UnknownOpen => "UnknownOpen",
        Refusal::NotConfirmed => "NotConfirmed",
        Refusal::SendingEnded => "SendingEnded",
        Refusal::TooLong => "TooLong",
        Refusal::NumbersFull => "NumbersFull",
    }
}

/// What came of a command.
pub(crate) fn print_outcome(
    alloc: Global,
    out: &mut String,
    outcome: CommandOutcome,
) -> Result<(), AllocError>
    ensures { OnOk result (string_bytes out.new ≡ string_bytes out.old ++ outcome_text outcome) }
{
    match outcome {
        CommandOutcome::Accepted => out.push_str("accepted"),
        CommandOutcome::Opened(ChannelId(number)) => {
            print_field(alloc, out, "opened ", u64::from(number))
        }
        CommandOutcome::Refused(why) => {
            out.push_str("refused ")?;
            out.push_str(refusal_name(why))
        }
    }
}

/// What happened on a channel.
fn print_msg(alloc: Global, out: &mut String, msg: &ChannelMsg) -> Result<(), AllocError>
    ensures { OnOk result (string_bytes out.new ≡ string_bytes out.old ++ msg_text msg.now) }
{
    let said = msg_words(alloc, msg)?;
    out.push_str(" ")?;
    print_said(alloc, out, &said)
}

fn print_port(alloc: Global, out: &mut String, port: Option<u32>) -> Result<(), AllocError>
    ensures { OnOk result (string_bytes out.new ≡ string_bytes out.old ++ port_text port) }
{
    match port {
        Some(port) => print_field(alloc, out, " ", u64::from(port)),
        None => out.push_str(" denied"),
    }
}

fn print_cancelled(alloc: Global, out: &mut String, slot: u64, ok: bool) -> Result<(), AllocError>
    ensures { OnOk result (string_bytes out.new ≡ string_bytes out.old
        ++ (codes "- Cancelled " ++ decimal slot ++ codes " " ++ flag_text ok)) }
{
    print_field(alloc, out, "- Cancelled ", slot)?;
    print_flag(out, ok)
}

fn print_ready(alloc: Global, out: &mut String, window: u32, packet: u32) -> Result<(), AllocError>
    ensures { OnOk result (string_bytes out.new ≡ string_bytes out.old
        ++ (codes " Ready " ++ decimal window ++ codes " " ++ decimal packet)) }
{
    print_field(alloc, out, " Ready ", u64::from(window))?;
    print_field(alloc, out, " ", u64::from(packet))
}

/// The channel of a notice, and what happened on it.
fn print_fields(alloc: Global, out: &mut String, notice: &Notice) -> Result<(), AllocError>
    ensures { OnOk result (string_bytes out.new ≡ string_bytes out.old ++ notice_text notice.now) }
{
    match notice {
        Notice::Channel(channel, msg) => {
            print_id(alloc, out, *channel)?;
            print_msg(alloc, out, msg)
        }
        Notice::Granted { channel, amount } => {
            print_id(alloc, out, *channel)?;
            print_field(alloc, out, " Granted ", u64::from(*amount))
        }
        Notice::Ready {
            channel,
            window,
            packet,
        } => {
            print_id(alloc, out, *channel)?;
            print_ready(alloc, out, *window, *packet)
        }
        Notice::Forwarded { slot, port } => {
            print_field(alloc, out, "- Forwarded ", *slot)?;
            print_port(alloc, out, *port)
        }
        Notice::Cancelled { slot, ok } => print_cancelled(alloc, out, *slot, *ok),
        Notice::Pong { slot } => print_field(alloc, out, "- Pong ", *slot),
    }
}

pub(crate) fn print_notice(
    alloc: Global,
    out: &mut String,
    notice: &Notice,
) -> Result<(), AllocError>
    ensures { OnOk result (string_bytes out.new ≡ string_bytes out.old ++ notice_line notice.now) }
{
    out.push_str("notice ")?;
    print_fields(alloc, out, notice)?;
    out.push_str("\n")
}

/// What came of the command or the answer to an open with this ticket.
pub(crate) fn print_answer(
    alloc: Global,
    out: &mut String,
    ticket: u64,
    outcome: CommandOutcome,
) -> Result<(), AllocError>
    ensures { OnOk result (string_bytes out.new ≡ string_bytes out.old
        ++ answer_line ticket outcome) }
{
    print_field(alloc, out, "done ", ticket)?;
    out.push_str(" ")?;
    print_outcome(alloc, out, outcome)?;
    out.push_str("\n")
}
