// What two ends deliver, written line by line.
ghost use Rattle.std.specs.Prelude.{◌≡◌, ◌<◌, ◌^◌, ◌+◌, ◌++◌, length, flat_map, IfOk, OnOk};
ghost use Rattle.std.specs.String.{string_bytes};
ghost use Rattle.ssh_scene_ends.specs.Telling.{side_name, delivery_line, told_text};

use ssh_ends::{Delivered, EventList, Side, run_ends};
use ssh_transcript::{print_hex, print_number};
use std::alloc::{AllocError, Global};

/// How a side is named.
fn side_name(side: Side) -> &'static str
    ensures { result.now ≡ side_name side }
{
    match side {
        Side::A => "a",
        Side::B => "b",
    }
}

/// A delivery as a line: the side that delivers, its channel, and the bytes in hex.
fn print_delivery(
    alloc: Global,
    text: &mut String,
    delivery: &(Side, Delivered),
) -> Result<(), AllocError>
    ensures { OnOk result (string_bytes text.new ≡ string_bytes text.old
        ++ delivery_line delivery.now) }
{
    let (side, delivered) = delivery;
    text.push_str(side_name(*side))?;
    text.push_str(" ")?;
    print_number(alloc, text, u64::from(delivered.channel.0))?;
    text.push_str(" ")?;
    print_hex(alloc, text, delivered.bytes.as_slice())?;
    text.push_str("\n")
}

/// Deliveries, a line for each.
fn print_deliveries(
    alloc: Global,
    text: &mut String,
    deliveries: &[(Side, Delivered)],
) -> Result<(), AllocError>
    ensures { OnOk result (string_bytes text.new ≡ string_bytes text.old
        ++ flat_map delivery_line deliveries.now) }
{
    for delivery in deliveries {
        print_delivery(alloc, text, delivery)?;
    }
    Ok(())
}

/// What two new ends deliver to which these events happen, a line for each delivery, and then `ok`.
/// Each end gives this window and takes this packet size.
pub fn tell_events(
    alloc: Global,
    window: u32,
    packet: u32,
    events: EventList,
) -> Result<String, AllocError>
    requires some { 0 < packet }
    requires few { length events + 1 < 2 ^ 32 }
    ensures { IfOk result (λ text. string_bytes text ≡ told_text window packet events) }
{
    // So few events do not draw all numbers of channels, and nothing else fails but for memory.
    let Ok(deliveries) = run_ends(alloc, window, packet, events) else {
        return Err(AllocError);
    };
    let mut text = String::new(alloc);
    print_deliveries(alloc, &mut text, deliveries.as_slice())?;
    text.push_str("ok\n")?;
    Ok(text)
}
