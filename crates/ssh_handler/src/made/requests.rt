// The calls about requests on a channel, as they are recorded.
ghost use Rattle.std.specs.Prelude.{◌≡◌, IfOk, IsOk};
ghost use Rattle.ssh_auth.specs.declared.call.Call.TheVariants as call;
ghost use Rattle.ssh_handler.specs.Recording.{passed_on};

use crate::made::{both, copied_bytes};
use crate::recorded::passed;
use crate::{Commands, RecordError};
use ssh_auth::Call;
use ssh_wire::{ChannelId, Modes, Pty, Sig, Text, WireError};
use std::alloc::Global;

// A list of these modes.
fn copied_modes(alloc: Global, modes: &[(Pty, u32)]) -> Result<Modes, WireError>
    ensures { IfOk result (λ copied. copied ≡ modes.now) }
{
    let mut copied = Modes::new(alloc);
    for mode in modes {
        copied.push(*mode)?;
    }
    Ok(copied)
}

pub(crate) fn pty<E: Copy>(
    alloc: Global,
    channel: ChannelId,
    term: &str,
    col_width: u32,
    row_height: u32,
    pix_width: u32,
    pix_height: u32,
    modes: &[(Pty, u32)],
    answer: Result<(), E>,
    session: &Commands<'_>,
) -> Result<Call<RecordError<E>>, WireError>
    ensures { IfOk result (λ made. made ≡ call.PtyRequest channel term.now col_width row_height
        pix_width pix_height modes.now (passed_on answer) session.now.recorded) }
{
    let asked = both(Text::new(alloc, term), copied_modes(alloc, modes));
    let ((term, modes), commands) = both(asked, session.copy_recorded())?;
    Ok(Call::PtyRequest {
        channel,
        term,
        col_width,
        row_height,
        pix_width,
        pix_height,
        modes,
        answer: passed(answer),
        commands,
    })
}

pub(crate) fn x11<E: Copy>(
    alloc: Global,
    channel: ChannelId,
    single_connection: bool,
    x11_auth_protocol: &str,
    x11_auth_cookie: &str,
    x11_screen_number: u32,
    answer: Result<(), E>,
    session: &Commands<'_>,
) -> Result<Call<RecordError<E>>, WireError>
    ensures { IfOk result (λ made. made ≡ call.X11Request channel single_connection
        x11_auth_protocol.now x11_auth_cookie.now x11_screen_number (passed_on answer)
        session.now.recorded) }
{
    let asked = both(
        Text::new(alloc, x11_auth_protocol),
        Text::new(alloc, x11_auth_cookie),
    );
    let ((x11_auth_protocol, x11_auth_cookie), commands) = both(asked, session.copy_recorded())?;
    Ok(Call::X11Request {
        channel,
        single_connection,
        x11_auth_protocol,
        x11_auth_cookie,
        x11_screen_number,
        answer: passed(answer),
        commands,
    })
}

pub(crate) fn env<E: Copy>(
    alloc: Global,
    channel: ChannelId,
    variable_name: &str,
    variable_value: &str,
    answer: Result<(), E>,
    session: &Commands<'_>,
) -> Result<Call<RecordError<E>>, WireError>
    ensures { IfOk result (λ made. made ≡ call.EnvRequest channel variable_name.now
        variable_value.now (passed_on answer) session.now.recorded) }
{
    let asked = both(
        Text::new(alloc, variable_name),
        Text::new(alloc, variable_value),
    );
    let ((variable_name, variable_value), commands) = both(asked, session.copy_recorded())?;
    Ok(Call::EnvRequest {
        channel,
        variable_name,
        variable_value,
        answer: passed(answer),
        commands,
    })
}

pub(crate) fn exec<E: Copy>(
    alloc: Global,
    channel: ChannelId,
    bytes: &[u8],
    answer: Result<(), E>,
    session: &Commands<'_>,
) -> Result<Call<RecordError<E>>, WireError>
    ensures { IfOk result (λ made. made ≡ call.ExecRequest channel bytes.now (passed_on answer)
        session.now.recorded) }
{
    let (bytes, commands) = both(copied_bytes(alloc, bytes), session.copy_recorded())?;
    Ok(Call::ExecRequest {
        channel,
        bytes,
        answer: passed(answer),
        commands,
    })
}

pub(crate) fn subsystem<E: Copy>(
    alloc: Global,
    channel: ChannelId,
    name: &str,
    answer: Result<(), E>,
    session: &Commands<'_>,
) -> Result<Call<RecordError<E>>, WireError>
    ensures { IfOk result (λ made. made ≡ call.SubsystemRequest channel name.now (passed_on answer)
        session.now.recorded) }
{
    let (name, commands) = both(Text::new(alloc, name), session.copy_recorded())?;
    Ok(Call::SubsystemRequest {
        channel,
        name,
        answer: passed(answer),
        commands,
    })
}

pub(crate) fn signal<E: Copy>(
    channel: ChannelId,
    signal: Result<Sig, WireError>,
    answer: Result<(), E>,
    session: &Commands<'_>,
) -> Result<Call<RecordError<E>>, WireError>
    ensures ok { IfOk result (λ made. IfOk signal (λ sent. made ≡ call.Signal channel sent
        (passed_on answer) session.now.recorded)) }
    ensures made { IfOk result (λ made. IsOk signal) }
{
    let (signal, commands) = both(signal, session.copy_recorded())?;
    Ok(Call::Signal {
        channel,
        signal,
        answer: passed(answer),
        commands,
    })
}
