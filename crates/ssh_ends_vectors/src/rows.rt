// What lists of events deliver.
use bytes::Bytes;
use ssh_ends::{EndError, EndEvent, EventList, Side, run_ends};
use ssh_wire::ChannelId;
use std::alloc::Global;
use std::test::*;

const CHANNEL: ChannelId = ChannelId(2);

// Events behind those by which a side opens a channel and the other accepts it.
enum Step {
    Sends(&'static [u8]),
    Closes,
    Moves(Side),
}

fn event_of(step: &Step) -> EndEvent {
    match step {
        Step::Sends(bytes) => EndEvent::Data(Side::A, CHANNEL, None, Bytes::from_static(bytes)),
        Step::Closes => EndEvent::Close(Side::B, CHANNEL),
        Step::Moves(side) => EndEvent::Move(*side),
    }
}

// What is delivered over a window of three, each piece with its side.
fn delivered(alloc: Global, steps: &[Step]) -> Result<Vec<u8>, EndError> {
    let mut events = EventList::new(alloc);
    events.push(EndEvent::Open(Side::A))?;
    events.push(EndEvent::Move(Side::A))?;
    events.push(EndEvent::Move(Side::B))?;
    for step in steps {
        events.push(event_of(step))?;
    }
    let mut text = Vec::new(alloc);
    let deliveries = run_ends(alloc, 3, 100, events)?;
    for (side, delivered) in deliveries.as_slice() {
        text.push(if *side == Side::A { b'a' } else { b'b' })?;
        text.extend_from_slice(delivered.bytes.as_slice())?;
    }
    Ok(text)
}

struct Row {
    steps: &'static [Step],
    delivers: &'static [u8],
}

static ROWS: [Row; 2] = [
    // What finds no window waits until it is filled again.
    Row {
        steps: &[
            Step::Sends(b"hello"),
            Step::Moves(Side::A),
            Step::Moves(Side::B),
            Step::Moves(Side::A),
        ],
        delivers: b"bhelblo",
    },
    // What meets a closed channel is passed over.
    Row {
        steps: &[Step::Sends(b"x"), Step::Closes, Step::Moves(Side::A)],
        delivers: b"",
    },
];

#[test]
fn data_arrive_in_order_or_meet_a_closed_channel(rt: HostRuntime) {
    for row in &ROWS {
        assert!(rt;
            delivered(rt.alloc(), row.steps).is_ok_and(|text| text.as_slice() == row.delivers)
        );
    }
}
