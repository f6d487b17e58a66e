// What callers that are not Rattle call: include/gidzork.h says of each how it is called.
ghost use Rattle.std.specs.Prelude.{◌≡◌, ◌<◌, ◌^◌, length, None};
ghost use Rattle.ssh_rules.specs.World.{Settings};
ghost use Rattle.ssh_c.specs.Commanding.{commanded, data_command as data_of, rejected, tick};
ghost use Rattle.ssh_c.specs.Feeding.{Fed, HoldsOpened, Told, payload_at, command_at, reply_at};
ghost use Rattle.ssh_c.specs.Feeding.{input_at, DoesWhere, DoesSome};

use crate::codes::{BAD_ARGUMENT, CONTINUES, NO_CONNECTION, NO_MEMORY};
use crate::config::Setup;
use crate::entries::Entry;
use crate::given::{answer_of, command_of, disconnect, exit_signal, tick_of};
use crate::handle::Handle;
use crate::held::Held;
use crate::questions::Question;
use ssh_embed::Connection;
use ssh_link::Input;
use std::alloc::Global;

/// The number of this interface.
const VERSION: u32 = 1;

/// The number of this interface.
#[unsafe(no_mangle)]
pub extern "C" fn gidzork_version() -> u32 {
    VERSION
}

/// Opens a connection in the handle, which is to hold none.
#[unsafe(no_mangle)]
pub extern "C" fn gidzork_open(
    alloc: Global,
    handle: &mut Handle,
    setup: &Setup,
    session_id: &[u8],
    remote: &[u8],
) -> u32
    requires { length session_id.now < 2 ^ 32 }
    ensures { result ≡ 0 → (settings : Settings) × (settings.session_id ≡ session_id.now)
        × (settings.remote_sshid ≡ remote.now) × HoldsOpened settings handle.new.slot.held }
{
    if handle.is_live() {
        return BAD_ARGUMENT;
    }
    let Some(rules) = setup.rules() else {
        return BAD_ARGUMENT;
    };
    let config = setup.config();
    let Ok(connection) = Connection::new(
        alloc,
        &config,
        rules,
        session_id,
        remote,
        setup.repeatable(),
    ) else {
        return NO_MEMORY;
    };
    match Box::new(alloc, Held::new(connection, config.methods)) {
        Ok(held) => {
            handle.put(held);
            CONTINUES
        }
        Err(_) => NO_MEMORY,
    }
}

/// Ends a connection. The handle holds none afterwards.
#[unsafe(no_mangle)]
pub extern "C" fn gidzork_free(alloc: Global, handle: &mut Handle)
    ensures { handle.new.slot.held ≡ None }
{
    drop(handle.take(alloc));
}

/// Takes one opened payload, from its message number on.
#[unsafe(no_mangle)]
pub extern "C" fn gidzork_feed(
    alloc: Global,
    handle: &mut Handle,
    moment: u64,
    payload: &[u8],
    verdict: u32,
) -> u32
    ensures { Fed handle.old.slot.held (payload_at moment payload.now) handle.new.slot.held result }
{
    let Some(mut held) = handle.take(alloc) else {
        return NO_CONNECTION;
    };
    let code = held.feed_now(alloc, moment, payload, verdict);
    handle.put(held);
    code
}

/// Takes one payload of an exchange of keys, numbered 20 to 49.
#[unsafe(no_mangle)]
pub extern "C" fn gidzork_exchange(
    alloc: Global,
    handle: &mut Handle,
    moment: u64,
    payload: &[u8],
    keys_in_use: bool,
) -> u32
    ensures { Fed handle.old.slot.held (payload_at moment payload.now) handle.new.slot.held result }
{
    let Some(mut held) = handle.take(alloc) else {
        return NO_CONNECTION;
    };
    let code = held.exchange_now(alloc, moment, payload, keys_in_use);
    handle.put(held);
    code
}

/// Sends bytes on a channel, as data or as data of another type.
#[unsafe(no_mangle)]
pub extern "C" fn gidzork_data(
    alloc: Global,
    handle: &mut Handle,
    moment: u64,
    ticket: u64,
    channel: u32,
    ext: u32,
    bytes: &[u8],
) -> u32
    ensures { Fed handle.old.slot.held (command_at moment ticket (data_of channel ext bytes.now))
        handle.new.slot.held result }
{
    let Some(mut held) = handle.take(alloc) else {
        return NO_CONNECTION;
    };
    let code = held.data_now(alloc, moment, ticket, channel, ext, bytes);
    handle.put(held);
    code
}

/// Gives the command of this kind.
#[unsafe(no_mangle)]
pub extern "C" fn gidzork_command(
    alloc: Global,
    handle: &mut Handle,
    moment: u64,
    ticket: u64,
    kind: u32,
    channel: u32,
    number: u32,
) -> u32
    ensures { DoesWhere (commanded kind channel number) (command_at moment ticket)
        handle.old.slot.held handle.new.slot.held result }
{
    let Some(command) = command_of(kind, channel, number) else {
        return BAD_ARGUMENT;
    };
    let Some(mut held) = handle.take(alloc) else {
        drop(command);
        return NO_CONNECTION;
    };
    let code = held.command_now(moment, ticket, command);
    handle.put(held);
    code
}

/// Tells which signal ended the program on the channel.
#[unsafe(no_mangle)]
pub extern "C" fn gidzork_exit_signal(
    alloc: Global,
    handle: &mut Handle,
    moment: u64,
    ticket: u64,
    channel: u32,
    core_dumped: bool,
    signal: &[u8],
) -> u32
    ensures { DoesSome moment ticket handle.old.slot.held handle.new.slot.held result }
{
    let Some(mut held) = handle.take(alloc) else {
        return NO_CONNECTION;
    };
    let command = exit_signal(alloc, channel, core_dumped, signal);
    let code = held.say_now(moment, ticket, command);
    handle.put(held);
    code
}

/// Ends the connection.
#[unsafe(no_mangle)]
pub extern "C" fn gidzork_disconnect(
    alloc: Global,
    handle: &mut Handle,
    moment: u64,
    ticket: u64,
    reason: u32,
    description: &[u8],
) -> u32
    ensures { DoesSome moment ticket handle.old.slot.held handle.new.slot.held result }
{
    let Some(mut held) = handle.take(alloc) else {
        return NO_CONNECTION;
    };
    let command = disconnect(alloc, reason, description);
    let code = held.say_now(moment, ticket, command);
    handle.put(held);
    code
}

/// Answers an open of the peer's that waits for it.
#[unsafe(no_mangle)]
pub extern "C" fn gidzork_answer_open(
    alloc: Global,
    handle: &mut Handle,
    moment: u64,
    ticket: u64,
    channel: u32,
    reason: u32,
) -> u32
    ensures { DoesWhere (rejected channel reason) (reply_at moment ticket)
        handle.old.slot.held handle.new.slot.held result }
{
    let Some(answer) = answer_of(channel, reason) else {
        return BAD_ARGUMENT;
    };
    let Some(mut held) = handle.take(alloc) else {
        drop(answer);
        return NO_CONNECTION;
    };
    let code = held.answer_now(moment, ticket, answer);
    handle.put(held);
    code
}

/// Takes a tick, or the end of what comes from the peer.
#[unsafe(no_mangle)]
pub extern "C" fn gidzork_tick(alloc: Global, handle: &mut Handle, moment: u64, kind: u32) -> u32
    ensures { DoesWhere (tick kind) (input_at moment) handle.old.slot.held handle.new.slot.held
        result }
{
    let Some(kind) = tick_of(kind) else {
        return BAD_ARGUMENT;
    };
    let Some(mut held) = handle.take(alloc) else {
        drop(kind);
        return NO_CONNECTION;
    };
    let code = held.take_now(Input { moment, kind });
    handle.put(held);
    code
}

/// Tells what this payload asks of a user, were it fed now.
#[unsafe(no_mangle)]
pub extern "C" fn gidzork_question(
    alloc: Global,
    handle: &mut Handle,
    moment: u64,
    payload: &[u8],
    out: &mut [u8],
    question: &mut Question,
) -> u32
    ensures { handle.new.slot.held ≡ handle.old.slot.held }
{
    let Some(held) = handle.take(alloc) else {
        return NO_CONNECTION;
    };
    let code = held.tell_question(alloc, moment, payload, out, question);
    handle.put(held);
    code
}

/// Tells what happened next, and takes it out.
#[unsafe(no_mangle)]
pub extern "C" fn gidzork_next(
    alloc: Global,
    handle: &mut Handle,
    out: &mut [u8],
    entry: &mut Entry,
) -> u32
    ensures { Told handle.old.slot.held handle.new.slot.held out.new entry.new.length result }
{
    let Some(mut held) = handle.take(alloc) else {
        return NO_CONNECTION;
    };
    let code = held.next(alloc, out, entry);
    handle.put(held);
    code
}

/// Whether commands are taken now; not, where the handle holds no connection.
#[unsafe(no_mangle)]
pub extern "C" fn gidzork_commands_wanted(alloc: Global, handle: &mut Handle) -> bool
    ensures { handle.new.slot.held ≡ handle.old.slot.held }
{
    let Some(held) = handle.take(alloc) else {
        return false;
    };
    let wanted = held.connection().commands_wanted();
    handle.put(held);
    wanted
}

/// Whether answers to opens are taken now; not, where the handle holds no connection.
#[unsafe(no_mangle)]
pub extern "C" fn gidzork_replies_wanted(alloc: Global, handle: &mut Handle) -> bool
    ensures { handle.new.slot.held ≡ handle.old.slot.held }
{
    let Some(held) = handle.take(alloc) else {
        return false;
    };
    let wanted = held.connection().replies_wanted();
    handle.put(held);
    wanted
}

/// Tells the name of the user who was let in.
#[unsafe(no_mangle)]
pub extern "C" fn gidzork_user(
    alloc: Global,
    handle: &mut Handle,
    out: &mut [u8],
    entry: &mut Entry,
) -> u32
    ensures { handle.new.slot.held ≡ handle.old.slot.held }
{
    let Some(held) = handle.take(alloc) else {
        return NO_CONNECTION;
    };
    let code = held.tell_user(out, entry);
    handle.put(held);
    code
}
