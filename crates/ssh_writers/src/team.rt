// Writers at once, each in a thread of its own where one can be made.
ghost use Rattle.std.specs.Prelude.{◌≡◌, All};
ghost use Rattle.std.specs.Arc.{arc_value};
ghost use Rattle.ssh_hub.specs.Words.{IsSeatOf};
ghost use Rattle.ssh_writers.specs.Writers.{IsWriterOf, IsBackOf};

use crate::bell::Bells;
use crate::post::Post;
use crate::writer::{Writer, Written};
use ssh_handles::Gate;
use ssh_hub::{HandleError, HubLock, Seat};
use std::alloc::Global;
use std::sync::Wait;
use std::thread;
use std::thread::Threads;

/// Runs the writers at once, and gives back their seats, all joined into that of the post, with the
/// first error. Each sleeps on the bell of its channel, which whoever serves the session is to ring:
/// once the channel is there, more may be sent on it or it is closed, and all at the end of the hub.
/// Where there is no memory to run them all, it asks for the end of the connection.
pub fn write_all<R: Threads + Wait + Sync, G: Gate + Sync>(
    rt: &R,
    alloc: Global,
    gate: &G,
    bells: &Bells,
    lock: &HubLock,
    post: Post,
    writers: Vec<Writer>,
) -> Written
    requires post { arc_value post.lock ≡ lock.now }
    requires writers { All (IsWriterOf lock.now) writers.items }
    ensures { IsBackOf lock.now result }
{
    let done = thread::map_vec(
        rt,
        writers,
        &|writer: Writer| -> Written
            requires { IsWriterOf lock.now writer }
            ensures { IsBackOf lock.entry.now result }
        { writer.run(rt, alloc, gate, bells, lock) },
    );
    match done {
        Ok(done) => gather(lock, post.into_seat(), done),
        Err(_) => Written {
            seat: post.part(rt),
            result: Err(HandleError::NoMemory),
        },
    }
}

// Joins the seats into this one, with the first error.
fn gather(lock: &HubLock, seat: Seat, done: Vec<Written>) -> Written
    requires seat { IsSeatOf lock.now seat }
    requires seats { All (IsBackOf lock.now) done.items }
    ensures { IsBackOf lock.now result }
{
    let mut done = done;
    let mut all = Written {
        seat,
        result: Ok(()),
    };
    while let Some(one) = done.pop() {
        take_in(lock, &mut all, one);
    }
    all
}

// Joins one more seat, which is of a writer before the others.
fn take_in(lock: &HubLock, all: &mut Written, one: Written)
    requires all { IsBackOf lock.now all.old }
    requires one { IsBackOf lock.now one }
    ensures { IsBackOf lock.now all.new }
{
    let Written { seat, result } = one;
    lock.join(&mut all.seat, seat);
    all.result = result.and(all.result);
}
