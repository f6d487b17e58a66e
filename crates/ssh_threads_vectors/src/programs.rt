// What the program writes for the word `threads`.
use crate::odd_peer::{Odd, OddPeer};
use bytes::Bytes;
use ssh_link::{Calls, MemorySink, MemorySource};
use ssh_threads::{GrantingPeer, Peer, run_program};
use std::alloc::Global;
use std::sync::Wait;
use std::test::*;
use std::thread::Threads;

const TWO: &str = "channel 2 100000\nchannel 3 100000\nok\n";

const EIGHT: &str = "channel 2 100000\nchannel 3 100000\nchannel 4 100000\nchannel 5 100000\n\
                     channel 6 100000\nchannel 7 100000\nchannel 8 100000\nchannel 9 100000\nok\n";

// Whether the program ends so with this peer, and writes this.
fn shows<R: Threads + Wait + Clone + Drop + Sync, P: Peer + Send>(
    rt: &R,
    alloc: Global,
    words: &[&str],
    peer: &mut P,
    status: u8,
    text: &str,
) -> bool {
    let mut source = MemorySource::new(Bytes::new(), Calls::new(alloc));
    let mut sink = MemorySink::new(alloc, Calls::new(alloc));
    let answer = run_program(rt, alloc, words, &mut source, &mut sink, peer);
    let is_same = answer == status && sink.bytes() == text.as_bytes();
    drop(source);
    drop(sink);
    is_same
}

// The same with the program's own peer, so many times.
fn shows_always<R: Threads + Wait + Clone + Drop + Sync>(
    rt: &R,
    alloc: Global,
    words: &[&str],
    times: u32,
    text: &str,
) -> bool {
    for _ in 0..times {
        let mut peer = GrantingPeer::new(alloc);
        if !shows(rt, alloc, words, &mut peer, 0, text) {
            return false;
        }
    }
    true
}

// The same with an odd one.
fn shows_odd<R: Threads + Wait + Clone + Drop + Sync>(
    rt: &R,
    alloc: Global,
    odd: Odd<'_>,
    text: &str,
) -> bool {
    let mut peer = OddPeer::new(alloc, odd);
    shows(rt, alloc, &["threads", "1"], &mut peer, 1, text)
}

#[test]
fn two_writers_and_eight_come_to_their_end(rt: HostRuntime) {
    assert!(rt;
        shows_always(&rt, rt.alloc(), &["threads", "2"], 3, TWO)
            && shows_always(&rt, rt.alloc(), &["threads", "8"], 3, EIGHT)
    );
}

#[test]
fn a_peer_that_leaves_or_fails_is_told_of(rt: HostRuntime) {
    let totals = "channel 2 32768\nerror Totals\n";
    let fault = "error LinkFault\n";
    assert!(rt;
        shows_odd(&rt, rt.alloc(), Odd::Leaves, totals)
            && shows_odd(&rt, rt.alloc(), Odd::Takes(3), fault)
            && shows_odd(&rt, rt.alloc(), Odd::WantsNone, fault)
    );
}
