// The calls about forwarding, as they are recorded.
ghost use Rattle.std.specs.Prelude.{◌≡◌, IfOk};
ghost use Rattle.ssh_auth.specs.declared.call.Call.TheVariants as call;
ghost use Rattle.ssh_handler.specs.Recording.{passed_on};

use crate::made::both;
use crate::recorded::passed;
use crate::{Commands, RecordError};
use ssh_auth::Call;
use ssh_wire::{Text, WireError};
use std::alloc::Global;

pub(crate) fn tcpip<E: Copy>(
    alloc: Global,
    address: &str,
    port: u32,
    port_after: u32,
    answer: Result<bool, E>,
    session: &Commands<'_>,
) -> Result<Call<RecordError<E>>, WireError>
    ensures { IfOk result (λ made. made ≡ call.TcpipForward address.now port port_after
        (passed_on answer) session.now.recorded) }
{
    let (address, commands) = both(Text::new(alloc, address), session.copy_recorded())?;
    Ok(Call::TcpipForward {
        address,
        port,
        port_after,
        answer: passed(answer),
        commands,
    })
}

pub(crate) fn cancel_tcpip<E: Copy>(
    alloc: Global,
    address: &str,
    port: u32,
    answer: Result<bool, E>,
    session: &Commands<'_>,
) -> Result<Call<RecordError<E>>, WireError>
    ensures { IfOk result (λ made. made ≡ call.CancelTcpipForward address.now port
        (passed_on answer) session.now.recorded) }
{
    let (address, commands) = both(Text::new(alloc, address), session.copy_recorded())?;
    Ok(Call::CancelTcpipForward {
        address,
        port,
        answer: passed(answer),
        commands,
    })
}

pub(crate) fn streamlocal<E: Copy>(
    alloc: Global,
    socket_path: &str,
    answer: Result<bool, E>,
    session: &Commands<'_>,
) -> Result<Call<RecordError<E>>, WireError>
    ensures { IfOk result (λ made. made ≡ call.StreamlocalForward socket_path.now (passed_on answer)
        session.now.recorded) }
{
    let (socket_path, commands) = both(Text::new(alloc, socket_path), session.copy_recorded())?;
    Ok(Call::StreamlocalForward {
        socket_path,
        answer: passed(answer),
        commands,
    })
}

pub(crate) fn cancel_streamlocal<E: Copy>(
    alloc: Global,
    socket_path: &str,
    answer: Result<bool, E>,
    session: &Commands<'_>,
) -> Result<Call<RecordError<E>>, WireError>
    ensures { IfOk result (λ made. made ≡ call.CancelStreamlocalForward socket_path.now
        (passed_on answer) session.now.recorded) }
{
    let (socket_path, commands) = both(Text::new(alloc, socket_path), session.copy_recorded())?;
    Ok(Call::CancelStreamlocalForward {
        socket_path,
        answer: passed(answer),
        commands,
    })
}
