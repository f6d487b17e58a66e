// Each question goes to the callback of its name.
ghost use Rattle.std.specs.Prelude.{◌≡◌, []};
ghost use Rattle.ssh_link.specs.Told.{Tells};
ghost use Rattle.ssh_auth.specs.Calls.{judged_call, lent_call, opened};

use crate::{Commands, Handler};
use ssh_auth::{Happening, Judged, Lent, OpenType};
use ssh_link::ChannelOpenHandle;
use ssh_wire::ChannelId;

/// For a session: tells the handler this by the callback that is made for it. The commands that it
/// records are to be done unless it answers an error.
pub fn ask<H: Handler>(
    handler: &mut H,
    lent: Lent,
    session: &mut Commands<'_>,
) -> Result<(), H::Error>
    requires fresh { session.old.recorded ≡ [] }
    requires suits { H.suits session.old.config session.old.remote_sshid }
    ensures { Tells (H.AuthHandler.told handler.old) (H.AuthHandler.told handler.new) result
        (lent_call lent result session.new.recorded) }
{
    match lent {
        Lent::Succeeded => handler.auth_succeeded(session),
        Lent::Opens(channel, typ) => ask_opened(handler, channel, typ, session),
        Lent::Happened(channel, happening) => match happening {
            Happening::Confirmed {
                max_packet_size,
                window_size,
            } => handler.channel_open_confirmation(channel, max_packet_size, window_size, session),
            Happening::Data { bytes } => {
                let told = handler.data(channel, bytes.as_slice(), session);
                drop(bytes);
                told
            }
            Happening::ExtendedData { code, bytes } => {
                let told = handler.extended_data(channel, code, bytes.as_slice(), session);
                drop(bytes);
                told
            }
            Happening::Eof => handler.channel_eof(channel, session),
            Happening::Close => handler.channel_close(channel, session),
            Happening::WindowAdjusted { new_size } => {
                handler.window_adjusted(channel, new_size, session)
            }
            Happening::PtyRequest {
                term,
                col_width,
                row_height,
                pix_width,
                pix_height,
                modes,
            } => {
                let told = handler.pty_request(
                    channel,
                    term.as_str(),
                    col_width,
                    row_height,
                    pix_width,
                    pix_height,
                    modes.as_slice(),
                    session,
                );
                drop(term);
                drop(modes);
                told
            }
            Happening::X11Request {
                single_connection,
                x11_auth_protocol,
                x11_auth_cookie,
                x11_screen_number,
            } => {
                let told = handler.x11_request(
                    channel,
                    single_connection,
                    x11_auth_protocol.as_str(),
                    x11_auth_cookie.as_str(),
                    x11_screen_number,
                    session,
                );
                drop(x11_auth_protocol);
                drop(x11_auth_cookie);
                told
            }
            Happening::EnvRequest {
                variable_name,
                variable_value,
            } => {
                let told = handler.env_request(
                    channel,
                    variable_name.as_str(),
                    variable_value.as_str(),
                    session,
                );
                drop(variable_name);
                drop(variable_value);
                told
            }
            Happening::ShellRequest => handler.shell_request(channel, session),
            Happening::ExecRequest { bytes } => {
                let told = handler.exec_request(channel, bytes.as_slice(), session);
                drop(bytes);
                told
            }
            Happening::SubsystemRequest { name } => {
                let told = handler.subsystem_request(channel, name.as_str(), session);
                drop(name);
                told
            }
            Happening::WindowChangeRequest {
                col_width,
                row_height,
                pix_width,
                pix_height,
            } => handler.window_change_request(
                channel, col_width, row_height, pix_width, pix_height, session,
            ),
            Happening::Signal { signal } => handler.signal(channel, signal, session),
        },
    }
}

// The peer opens a channel of this type (RFC 4254 section 5.1).
fn ask_opened<H: Handler>(
    handler: &mut H,
    channel: ChannelId,
    typ: OpenType,
    session: &mut Commands<'_>,
) -> Result<(), H::Error>
    requires fresh { session.old.recorded ≡ [] }
    requires suits { H.suits session.old.config session.old.remote_sshid }
    ensures { Tells (H.AuthHandler.told handler.old) (H.AuthHandler.told handler.new) result
        (opened channel typ result session.new.recorded) }
{
    let reply = ChannelOpenHandle::new(channel);
    match typ {
        OpenType::Session => handler.channel_open_session(channel, reply, session),
        OpenType::X11 {
            originator_address,
            originator_port,
        } => {
            let told = handler.channel_open_x11(
                channel,
                originator_address.as_str(),
                originator_port,
                reply,
                session,
            );
            drop(originator_address);
            told
        }
        OpenType::DirectTcpip {
            host_to_connect,
            port_to_connect,
            originator_address,
            originator_port,
        } => {
            let told = handler.channel_open_direct_tcpip(
                channel,
                host_to_connect.as_str(),
                port_to_connect,
                originator_address.as_str(),
                originator_port,
                reply,
                session,
            );
            drop(host_to_connect);
            drop(originator_address);
            told
        }
        OpenType::ForwardedTcpip {
            host_to_connect,
            port_to_connect,
            originator_address,
            originator_port,
        } => {
            let told = handler.channel_open_forwarded_tcpip(
                channel,
                host_to_connect.as_str(),
                port_to_connect,
                originator_address.as_str(),
                originator_port,
                reply,
                session,
            );
            drop(host_to_connect);
            drop(originator_address);
            told
        }
        OpenType::DirectStreamlocal { socket_path } => {
            let told = handler.channel_open_direct_streamlocal(
                channel,
                socket_path.as_str(),
                reply,
                session,
            );
            drop(socket_path);
            told
        }
    }
}

/// For a session: asks the handler whether this is granted, by the callback that is made for it. The
/// commands that it records may be done unless it answers an error.
pub fn judge<H: Handler>(
    handler: &mut H,
    judged: Judged,
    session: &mut Commands<'_>,
) -> Result<bool, H::Error>
    requires fresh { session.old.recorded ≡ [] }
    requires suits { H.suits session.old.config session.old.remote_sshid }
    ensures { Tells (H.AuthHandler.told handler.old) (H.AuthHandler.told handler.new) result
        (judged_call judged result session.new.recorded) }
{
    match judged {
        Judged::AgentRequest { channel } => handler.agent_request(channel, session),
        Judged::CancelTcpipForward { address, port } => {
            let answer = handler.cancel_tcpip_forward(address.as_str(), port, session);
            drop(address);
            answer
        }
        Judged::StreamlocalForward { socket_path } => {
            let answer = handler.streamlocal_forward(socket_path.as_str(), session);
            drop(socket_path);
            answer
        }
        Judged::CancelStreamlocalForward { socket_path } => {
            let answer = handler.cancel_streamlocal_forward(socket_path.as_str(), session);
            drop(socket_path);
            answer
        }
    }
}
