// The exchange of keys without cryptography, by the payloads that come to it.
use ssh_link::{Kex, KexFault, KexStep, PlainKex, PlainKexError};
use std::test::*;

// What a payload of the peer's leads to.
#[derive(Clone, Copy)]
enum Leads {
    // To so many payloads, and perhaps to the end.
    On(usize, bool),
    Nowhere,
}

fn is_so(answer: &Result<KexStep, KexFault<PlainKexError>>, leads: Leads) -> bool {
    match (answer, leads) {
        (Ok(step), Leads::On(frames, done)) => {
            (step.frames.as_slice().len(), step.done) == (frames, done)
        }
        (Err(KexFault::Refused(error)), Leads::Nowhere) => *error == PlainKexError::Unexpected,
        _ => false,
    }
}

// Whether the exchange's answer to this payload is so.
fn answers(kex: &mut PlainKex, payload: &[u8], leads: Leads) -> bool {
    let answer = kex.step(payload);
    is_so(&answer, leads)
}

static ROWS: [(&[u8], Leads); 7] = [
    (b"\x15", Leads::Nowhere),
    (b"\x14", Leads::On(0, false)),
    (b"\x14more", Leads::On(0, false)),
    (b"\x1e", Leads::Nowhere),
    (b"\x15", Leads::On(1, true)),
    (b"\x15", Leads::Nowhere),
    (b"", Leads::Nowhere),
];

// Whether it is begun.
fn begins(kex: &mut PlainKex) -> bool {
    let begun = kex.begin();
    begun.is_ok()
}

#[test]
fn the_plain_exchange_takes_a_kexinit_and_then_newkeys(rt: HostRuntime) {
    let mut kex = PlainKex::new(rt.alloc(), true);
    assert!(rt; kex.repeatable() && begins(&mut kex));
    for (payload, leads) in &ROWS {
        assert!(rt; answers(&mut kex, *payload, *leads), "{payload:?}");
    }
    assert!(rt; kex.calls().len() == 8);
}
