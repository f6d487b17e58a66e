// How the callbacks of a run are printed, a line for each.
ghost use Rattle.std.specs.Prelude.{◌≡◌, ◌++◌, ◌∷◌, [], map, flat_map, IfOk, OnOk};
ghost use Rattle.std.specs.String.{string_bytes};
ghost use Rattle.ssh_keys.specs.Algorithms.{algorithm_name};
ghost use Rattle.ssh_keys.specs.Keys.{key_blob};
ghost use Rattle.ssh_transcript.specs.Words.{Hex, Name, named_by, word_of};
ghost use Rattle.ssh_transcript.specs.CallLines.{line_text, line_on, admission_words, opened_words};
ghost use Rattle.ssh_transcript.specs.CallLines.{lent_line, judged_words, question_line};

use crate::argument::{Argument, Said, print_arguments, says};
use crate::happenings::happened_words;
use crate::print::print_field;
use ssh_auth::{Admission, Judged, Lent, OpenType, Question};
use ssh_keys::{Algorithm, PublicKey};
use ssh_wire::{ChannelId, Text};
use std::alloc::{AllocError, Global};

/// A user and a key, with the name of the algorithm by which it signs.
fn key_words<'a>(
    alloc: Global,
    name: &'static str,
    user: &'a Text,
    key: &'a PublicKey,
    algorithm: Algorithm,
) -> Result<Said<'a>, AllocError>
    ensures { IfOk result (λ said. named_by said ≡ (
      name.now,
      Hex user.now ∷ Hex (key_blob key.now)
          ∷ Name (algorithm_name algorithm) ∷ [],
    )) }
{
    let signs_by = Argument::Name(algorithm.as_str());
    says(
        alloc,
        name,
        &[Argument::Text(user), Argument::Key(key), signs_by],
    )
}

/// A user asks to be let in; of a certificate its key id is printed.
fn admission_words<'a>(alloc: Global, admission: &'a Admission) -> Result<Said<'a>, AllocError>
    ensures { IfOk result (λ said. named_by said ≡ admission_words admission.now) }
{
    match admission {
        Admission::None { user } => says(alloc, "auth_none", &[Argument::Text(user)]),
        Admission::Password { user, password } => says(
            alloc,
            "auth_password",
            &[Argument::Text(user), Argument::Text(password)],
        ),
        Admission::PublickeyOffered {
            user,
            public_key,
            algorithm,
        } => key_words(
            alloc,
            "auth_publickey_offered",
            user,
            public_key,
            *algorithm,
        ),
        Admission::Publickey {
            user,
            public_key,
            algorithm,
        } => key_words(alloc, "auth_publickey", user, public_key, *algorithm),
        Admission::OpensshCertificate { user, certificate } => says(
            alloc,
            "auth_openssh_certificate",
            &[Argument::Text(user), Argument::Text(&certificate.key_id)],
        ),
        Admission::KeyboardInteractive {
            user,
            submethods,
            response,
        } => says(
            alloc,
            "auth_keyboard_interactive",
            &[
                Argument::Text(user),
                Argument::Text(submethods),
                Argument::Responses(response),
            ],
        ),
    }
}

/// The peer opens a channel.
fn opened_words<'a>(alloc: Global, opening: &'a OpenType) -> Result<Said<'a>, AllocError>
    ensures { IfOk result (λ said. named_by said ≡ opened_words opening.now) }
{
    match opening {
        OpenType::Session => says(alloc, "channel_open_session", &[]),
        OpenType::X11 {
            originator_address,
            originator_port,
        } => says(
            alloc,
            "channel_open_x11",
            &[
                Argument::Text(originator_address),
                Argument::Number(*originator_port as u64),
            ],
        ),
        OpenType::DirectTcpip {
            host_to_connect,
            port_to_connect,
            originator_address,
            originator_port,
        } => says(
            alloc,
            "channel_open_direct_tcpip",
            &[
                Argument::Text(host_to_connect),
                Argument::Number(*port_to_connect as u64),
                Argument::Text(originator_address),
                Argument::Number(*originator_port as u64),
            ],
        ),
        OpenType::ForwardedTcpip {
            host_to_connect,
            port_to_connect,
            originator_address,
            originator_port,
        } => says(
            alloc,
            "channel_open_forwarded_tcpip",
            &[
                Argument::Text(host_to_connect),
                Argument::Number(*port_to_connect as u64),
                Argument::Text(originator_address),
                Argument::Number(*originator_port as u64),
            ],
        ),
        OpenType::DirectStreamlocal { socket_path } => says(
            alloc,
            "channel_open_direct_streamlocal",
            &[Argument::Text(socket_path)],
        ),
    }
}

/// Something is to be granted.
fn judged_words<'a>(alloc: Global, judged: &'a Judged) -> Result<Said<'a>, AllocError>
    ensures { IfOk result (λ said. named_by said ≡ judged_words judged.now) }
{
    match judged {
        Judged::AgentRequest { channel } => says(
            alloc,
            "agent_request",
            &[Argument::Number(channel.0 as u64)],
        ),
        Judged::CancelTcpipForward { address, port } => says(
            alloc,
            "cancel_tcpip_forward",
            &[Argument::Text(address), Argument::Number(*port as u64)],
        ),
        Judged::StreamlocalForward { socket_path } => {
            says(alloc, "streamlocal_forward", &[Argument::Text(socket_path)])
        }
        Judged::CancelStreamlocalForward { socket_path } => says(
            alloc,
            "cancel_streamlocal_forward",
            &[Argument::Text(socket_path)],
        ),
    }
}

/// The line of a callback with these arguments.
fn print_line(
    alloc: Global,
    out: &mut String,
    name: &str,
    arguments: &[Argument<'_>],
) -> Result<(), AllocError>
    ensures { OnOk result (string_bytes out.new ≡ string_bytes out.old
        ++ line_text (name.now, map word_of arguments.now)) }
{
    out.push_str("call ")?;
    out.push_str(name)?;
    print_arguments(alloc, out, arguments)?;
    out.push_str("\n")
}

/// The line of a callback.
fn print_call(alloc: Global, out: &mut String, said: &Said<'_>) -> Result<(), AllocError>
    ensures { OnOk result (string_bytes out.new ≡ string_bytes out.old
        ++ line_text (named_by said.now)) }
{
    print_line(alloc, out, said.name, said.arguments.as_slice())
}

/// The line of a callback that is about a channel.
fn print_on(
    alloc: Global,
    out: &mut String,
    channel: ChannelId,
    said: &Said<'_>,
) -> Result<(), AllocError>
    ensures { OnOk result (string_bytes out.new ≡ string_bytes out.old
        ++ line_on channel (named_by said.now)) }
{
    out.push_str("call ")?;
    out.push_str(said.name)?;
    print_field(alloc, out, " ", channel.0 as u64)?;
    print_arguments(alloc, out, said.arguments.as_slice())?;
    out.push_str("\n")
}

fn print_lent(alloc: Global, out: &mut String, lent: &Lent) -> Result<(), AllocError>
    ensures { OnOk result (string_bytes out.new ≡ string_bytes out.old ++ lent_line lent.now) }
{
    match lent {
        Lent::Succeeded => print_line(alloc, out, "auth_succeeded", &[]),
        Lent::Opens(channel, opening) => {
            let said = opened_words(alloc, opening)?;
            print_on(alloc, out, *channel, &said)
        }
        Lent::Happened(channel, happening) => {
            let said = happened_words(alloc, happening)?;
            print_on(alloc, out, *channel, &said)
        }
    }
}

/// A callback and its arguments; none is made for an exchange.
fn print_question(alloc: Global, out: &mut String, question: &Question) -> Result<(), AllocError>
    ensures { OnOk result (string_bytes out.new ≡ string_bytes out.old
        ++ question_line question.now) }
{
    match question {
        Question::Banner => print_line(alloc, out, "authentication_banner", &[]),
        Question::Admits(admission) => {
            let said = admission_words(alloc, admission)?;
            print_call(alloc, out, &said)
        }
        Question::Lends(lent) => print_lent(alloc, out, lent),
        Question::Judges(judged) => {
            let said = judged_words(alloc, judged)?;
            print_call(alloc, out, &said)
        }
        Question::Listens { address, port } => print_line(
            alloc,
            out,
            "tcpip_forward",
            &[Argument::Text(address), Argument::Number(*port as u64)],
        ),
        Question::Adjusts { channel, current } => print_line(
            alloc,
            out,
            "adjust_window",
            &[
                Argument::Number(channel.0 as u64),
                Argument::Number(*current as u64),
            ],
        ),
        Question::Done { place, outcome } => print_line(
            alloc,
            out,
            "command_done",
            &[Argument::Number(*place as u64), Argument::Came(*outcome)],
        ),
        Question::Begins | Question::Steps { .. } => Ok(()),
    }
}

/// The callbacks, a line for each.
pub(crate) fn print_calls(
    alloc: Global,
    out: &mut String,
    asked: &[Question],
) -> Result<(), AllocError>
    ensures { OnOk result (string_bytes out.new ≡ string_bytes out.old ++ flat_map question_line
        asked.now) }
{
    for one in asked {
        print_question(alloc, out, one)?;
    }
    Ok(())
}
