// The calls about opens, as they are recorded.
ghost use Rattle.std.specs.Prelude.{◌≡◌, IfOk};
ghost use Rattle.ssh_auth.specs.declared.call.Call.TheVariants as call;
ghost use Rattle.ssh_handler.specs.Recording.{passed_on};

use crate::made::both;
use crate::recorded::passed;
use crate::{Commands, RecordError};
use ssh_auth::Call;
use ssh_wire::{ChannelId, Text, WireError};
use std::alloc::Global;

pub(crate) fn x11<E: Copy>(
    alloc: Global,
    channel: ChannelId,
    originator_address: &str,
    originator_port: u32,
    answer: Result<(), E>,
    session: &Commands<'_>,
) -> Result<Call<RecordError<E>>, WireError>
    ensures { IfOk result (λ made. made ≡ call.ChannelOpenX11 channel originator_address.now
        originator_port (passed_on answer) session.now.recorded) }
{
    let text = Text::new(alloc, originator_address);
    let (originator_address, commands) = both(text, session.copy_recorded())?;
    Ok(Call::ChannelOpenX11 {
        channel,
        originator_address,
        originator_port,
        answer: passed(answer),
        commands,
    })
}

pub(crate) fn direct_tcpip<E: Copy>(
    alloc: Global,
    channel: ChannelId,
    host_to_connect: &str,
    port_to_connect: u32,
    originator_address: &str,
    originator_port: u32,
    answer: Result<(), E>,
    session: &Commands<'_>,
) -> Result<Call<RecordError<E>>, WireError>
    ensures { IfOk result (λ made. made ≡ call.ChannelOpenDirectTcpip channel host_to_connect.now
        port_to_connect originator_address.now originator_port (passed_on answer)
        session.now.recorded) }
{
    let ends = both(
        Text::new(alloc, host_to_connect),
        Text::new(alloc, originator_address),
    );
    let ((host_to_connect, originator_address), commands) = both(ends, session.copy_recorded())?;
    Ok(Call::ChannelOpenDirectTcpip {
        channel,
        host_to_connect,
        port_to_connect,
        originator_address,
        originator_port,
        answer: passed(answer),
        commands,
    })
}

pub(crate) fn forwarded_tcpip<E: Copy>(
    alloc: Global,
    channel: ChannelId,
    host_to_connect: &str,
    port_to_connect: u32,
    originator_address: &str,
    originator_port: u32,
    answer: Result<(), E>,
    session: &Commands<'_>,
) -> Result<Call<RecordError<E>>, WireError>
    ensures { IfOk result (λ made. made ≡ call.ChannelOpenForwardedTcpip channel host_to_connect.now
        port_to_connect originator_address.now originator_port (passed_on answer)
        session.now.recorded) }
{
    let ends = both(
        Text::new(alloc, host_to_connect),
        Text::new(alloc, originator_address),
    );
    let ((host_to_connect, originator_address), commands) = both(ends, session.copy_recorded())?;
    Ok(Call::ChannelOpenForwardedTcpip {
        channel,
        host_to_connect,
        port_to_connect,
        originator_address,
        originator_port,
        answer: passed(answer),
        commands,
    })
}

pub(crate) fn direct_streamlocal<E: Copy>(
    alloc: Global,
    channel: ChannelId,
    socket_path: &str,
    answer: Result<(), E>,
    session: &Commands<'_>,
) -> Result<Call<RecordError<E>>, WireError>
    ensures { IfOk result (λ made. made ≡ call.ChannelOpenDirectStreamlocal channel socket_path.now
        (passed_on answer) session.now.recorded) }
{
    let (socket_path, commands) = both(Text::new(alloc, socket_path), session.copy_recorded())?;
    Ok(Call::ChannelOpenDirectStreamlocal {
        channel,
        socket_path,
        answer: passed(answer),
        commands,
    })
}
