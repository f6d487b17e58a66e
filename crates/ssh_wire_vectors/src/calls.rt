// Single calls, in one table.
use ssh_wire::{
    ChannelOpenConfirmation, ChannelType, LayoutError, MethodSet, NameList, OpenChannelMessage,
    Reader, Text, WireError,
};
use std::alloc::Global;
use std::test::*;

// A call that takes bytes.
#[derive(Clone, Copy)]
enum Call {
    Open,
    Confirmation,
    MethodNames,
}

fn refusal(error: LayoutError) -> &'static str {
    match error {
        LayoutError::Inconsistent => "inconsistent",
        LayoutError::Wire(WireError::Trailing { left: 1 }) => "one byte is left",
        LayoutError::Wire(_) => "another refusal",
    }
}

fn opened(alloc: Global, bytes: &[u8]) -> &'static str {
    let mut r = Reader::new(bytes);
    match OpenChannelMessage::parse(alloc, &mut r) {
        Ok(open) => match open.typ {
            ChannelType::Unknown { .. } => "an unknown type",
            _ => "a known type",
        },
        Err(e) => refusal(e),
    }
}

fn confirmed(bytes: &[u8]) -> &'static str {
    let mut r = Reader::new(bytes);
    match ChannelOpenConfirmation::parse(&mut r) {
        Ok(confirmation) if confirmation.maximum_packet_size == 32768 => "packets of 32768",
        Ok(_) => "other packets",
        Err(e) => refusal(e),
    }
}

fn named(alloc: Global, bytes: &[u8]) -> Result<Text, WireError> {
    let Ok(text) = str::from_utf8(bytes) else {
        return Ok(Text::new(alloc, "no text")?);
    };
    let methods = MethodSet::from_names(&NameList::parse(alloc, text)?);
    Ok(methods.to_names(alloc)?.to_text()?)
}

fn answer(alloc: Global, call: Call, bytes: &[u8]) -> Result<Text, WireError> {
    match call {
        Call::Open => Ok(Text::new(alloc, opened(alloc, bytes))?),
        Call::Confirmation => Ok(Text::new(alloc, confirmed(bytes))?),
        Call::MethodNames => named(alloc, bytes),
    }
}

static CASES: [(Call, &[u8], &str); 6] = [
    (
        Call::Open,
        b"\0\0\0\x07session\0\0\0\0\0\x10\0\0\0\0\x80\0\0",
        "one byte is left",
    ),
    (
        Call::Open,
        b"\0\0\0\x13unknown@example.com\0\0\0\0\0\x10\0\0\0\0\x80\0opaque",
        "an unknown type",
    ),
    (
        Call::Open,
        b"\0\0\0\x07session\0\0\0\0\0\x10\0\0\0\0\0\0",
        "inconsistent",
    ),
    (
        Call::Confirmation,
        b"\0\0\0\0\0\0\0\x01\0\x10\0\0\0\0\0\0",
        "inconsistent",
    ),
    (
        Call::Confirmation,
        b"\0\0\0\0\0\0\0\x01\0\x10\0\0\0\0\x80\0",
        "packets of 32768",
    ),
    (
        Call::MethodNames,
        b"password,publickey,password",
        "publickey,password",
    ),
];

fn is_answered(alloc: Global, call: Call, bytes: &[u8], wanted: &str) -> bool {
    match answer(alloc, call, bytes) {
        Ok(answer) => answer.as_str() == wanted,
        Err(_) => false,
    }
}

#[test]
fn single_calls(rt: HostRuntime) {
    for (call, bytes, wanted) in &CASES {
        assert!(rt; is_answered(rt.alloc(), *call, *bytes, *wanted), "{wanted}");
    }
}
