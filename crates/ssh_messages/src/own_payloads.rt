// Messages of no channel that this side sends: global requests (RFC 4254 sections 4 and 7.1), and
// those of the transport (RFC 4253 section 11).
ghost use Rattle.std.specs.Prelude.{◌≡◌, ◌≤◌, ◌<◌, ◌^◌, length, IfOk, IfErr};
ghost use Rattle.ssh_wire.specs.declared.error.WireError.TheVariants.{NoMemory, TooLong};
ghost use Rattle.ssh_rules.specs.declared.outstanding.Outstanding.TheVariants as outstanding;
ghost use Rattle.ssh_rules.specs.OwnMessages.{IsBuilt, IsUnbuilt, awaited_by};
ghost use Rattle.ssh_rules.specs.OwnMessages as own;

use ssh_rules::Outstanding;
use ssh_wire::message::{DEBUG, DISCONNECT, GLOBAL_REQUEST};
use ssh_wire::{Disconnect, Text, WireError, put_text, put_u8, put_u32};
use std::alloc::Global;

/// A payload, or `TooLong` where it has more than 2^32 - 1 bytes.
fn within(payload: Vec<u8>) -> Result<Vec<u8>, WireError>
    ensures ok { IfOk result (λ p. IsBuilt payload.items p.items) }
    ensures refused { IfErr result (λ e. (e ≡ TooLong) × (2 ^ 32 ≤ length payload.items)) }
{
    if u32::try_from(payload.len()).is_err() {
        return Err(WireError::TooLong);
    }
    Ok(payload)
}

/// The request for a sign of life, which wants a reply (RFC 4254 section 4,
/// `keepalive@openssh.com`). `NoMemory` is the only error.
pub fn keepalive_payload(alloc: Global) -> Result<Vec<u8>, WireError>
    ensures ok { IfOk result (λ p. p.items ≡ own.keepalive.payload) }
    ensures memory { IfErr result (λ e. e ≡ NoMemory) }
{
    let mut payload = Vec::new(alloc);
    put_u8(&mut payload, GLOBAL_REQUEST)?;
    put_text(&mut payload, "keepalive@openssh.com")?;
    put_u8(&mut payload, 1)?;
    Ok(payload)
}

/// A request of this name about an address (RFC 4254 section 7.1). `TooLong` exactly where the
/// payload would have more than 2^32 - 1 bytes, and no other error but `NoMemory`.
pub fn address_payload(
    alloc: Global,
    name: &str,
    address: &Text,
    port: u32,
    wanted: bool,
) -> Result<Vec<u8>, WireError>
    requires short { length name.now < 2 ^ 32 }
    ensures ok { IfOk result (λ p.
        IsBuilt (own.address_payload name.now address.now port wanted) p.items) }
    ensures refused { IfErr result
        (IsUnbuilt (own.address_payload name.now address.now port wanted)) }
{
    let mut payload = Vec::new(alloc);
    put_u8(&mut payload, GLOBAL_REQUEST)?;
    put_text(&mut payload, name)?;
    put_u8(&mut payload, wanted as u8)?;
    put_text(&mut payload, address.as_str())?;
    put_u32(&mut payload, port)?;
    within(payload)
}

/// DEBUG (RFC 4253 section 11.3). `TooLong` exactly where the payload would have more than 2^32 - 1
/// bytes, and no other error but `NoMemory`.
pub fn debug_payload(
    alloc: Global,
    always: bool,
    text: &Text,
    language: &Text,
) -> Result<Vec<u8>, WireError>
    ensures ok { IfOk result (λ p.
        IsBuilt (own.debug always text.now language.now).payload p.items) }
    ensures refused { IfErr result (IsUnbuilt (own.debug always text.now language.now).payload) }
{
    let mut payload = Vec::new(alloc);
    put_u8(&mut payload, DEBUG)?;
    put_u8(&mut payload, always as u8)?;
    put_text(&mut payload, text.as_str())?;
    put_text(&mut payload, language.as_str())?;
    within(payload)
}

/// DISCONNECT (RFC 4253 section 11.1). `TooLong` exactly where the payload would have more than
/// 2^32 - 1 bytes, and no other error but `NoMemory`.
pub fn disconnect_payload(
    alloc: Global,
    reason: Disconnect,
    description: &Text,
    language: &Text,
) -> Result<Vec<u8>, WireError>
    ensures ok { IfOk result (λ p.
        IsBuilt (own.disconnect_message reason description.now language.now).payload p.items) }
    ensures refused { IfErr result
        (IsUnbuilt (own.disconnect_message reason description.now language.now).payload) }
{
    let mut payload = Vec::new(alloc);
    put_u8(&mut payload, DISCONNECT)?;
    put_u32(&mut payload, reason.code())?;
    put_text(&mut payload, description.as_str())?;
    put_text(&mut payload, language.as_str())?;
    within(payload)
}

/// A forward that is asked for under this slot.
pub fn forward_under(slot: Option<u64>) -> Option<Outstanding>
    ensures { result ≡ awaited_by outstanding.Forward slot }
{
    match slot {
        Some(slot) => Some(Outstanding::Forward { slot }),
        None => None,
    }
}

/// A cancelled forward that is asked for under this slot.
pub fn cancel_under(slot: Option<u64>) -> Option<Outstanding>
    ensures { result ≡ awaited_by outstanding.Cancel slot }
{
    match slot {
        Some(slot) => Some(Outstanding::Cancel { slot }),
        None => None,
    }
}
