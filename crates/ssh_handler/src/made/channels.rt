// The calls about data on a channel, as they are recorded.
ghost use Rattle.std.specs.Prelude.{◌≡◌, IfOk};
ghost use Rattle.ssh_auth.specs.declared.call.Call.TheVariants as call;
ghost use Rattle.ssh_handler.specs.Recording.{passed_on};

use crate::made::{both, copied_bytes};
use crate::recorded::passed;
use crate::{Commands, RecordError};
use ssh_auth::Call;
use ssh_wire::{ChannelId, WireError};
use std::alloc::Global;

pub(crate) fn plain_data<E: Copy>(
    alloc: Global,
    channel: ChannelId,
    bytes: &[u8],
    answer: Result<(), E>,
    session: &Commands<'_>,
) -> Result<Call<RecordError<E>>, WireError>
    ensures { IfOk result (λ made. made ≡ call.Data channel bytes.now (passed_on answer)
        session.now.recorded) }
{
    let (bytes, commands) = both(copied_bytes(alloc, bytes), session.copy_recorded())?;
    Ok(Call::Data {
        channel,
        bytes,
        answer: passed(answer),
        commands,
    })
}

pub(crate) fn extended_data<E: Copy>(
    alloc: Global,
    channel: ChannelId,
    code: u32,
    bytes: &[u8],
    answer: Result<(), E>,
    session: &Commands<'_>,
) -> Result<Call<RecordError<E>>, WireError>
    ensures { IfOk result (λ made. made ≡ call.ExtendedData channel code bytes.now
        (passed_on answer) session.now.recorded) }
{
    let (bytes, commands) = both(copied_bytes(alloc, bytes), session.copy_recorded())?;
    Ok(Call::ExtendedData {
        channel,
        code,
        bytes,
        answer: passed(answer),
        commands,
    })
}
