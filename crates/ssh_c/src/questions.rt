// What a caller is told of what a payload asks of a user.
use ssh_auth::{Asked, AskedMethod, Offer};
use ssh_wire::{WireError, put_bytes, put_text, put_u32};
use std::alloc::Global;

/// What a payload asks, without its bytes: see `gidzork_question` in include/gidzork.h.
#[repr(C)]
#[derive(Clone, Copy)]
pub struct Question {
    pub(crate) kind: u32,
    /// Whether the key is a certificate.
    pub(crate) certificate: bool,
    pub(crate) length: usize,
}

/// What is asked, without its bytes.
pub(crate) fn question_of(asked: &Asked<'_>) -> Question {
    let (kind, certificate) = match &asked.method {
        AskedMethod::None => (1, false),
        AskedMethod::Password { .. } => (2, false),
        AskedMethod::Probe { offer } => (3, offer.key.certificate().is_some()),
        AskedMethod::Signed { offer, .. } => (4, offer.key.certificate().is_some()),
        AskedMethod::KeyboardInteractive {
            responses: None,
            ..
        } => (5, false),
        AskedMethod::KeyboardInteractive {
            responses: Some(_),
            ..
        } => (6, false),
    };
    Question {
        kind,
        certificate,
        length: 0,
    }
}

/// The user's name, and what the method shows, as SSH spells them (RFC 4251 section 5).
pub(crate) fn question_fields(alloc: Global, asked: &Asked<'_>) -> Result<Vec<u8>, WireError> {
    let mut fields = Vec::new(alloc);
    put_text(&mut fields, asked.user)?;
    put_method(&mut fields, &asked.method)?;
    Ok(fields)
}

// Puts what a method shows.
fn put_method(fields: &mut Vec<u8>, method: &AskedMethod<'_>) -> Result<(), WireError> {
    match method {
        AskedMethod::None => Ok(()),
        AskedMethod::Password { password } => put_text(fields, password),
        AskedMethod::Probe { offer } => put_offer(fields, offer),
        AskedMethod::Signed {
            offer,
            message,
            signature,
            ..
        } => {
            put_offer(fields, offer)?;
            put_bytes(fields, message.as_slice())?;
            put_bytes(fields, signature.as_slice())
        }
        AskedMethod::KeyboardInteractive {
            submethods,
            responses,
        } => {
            put_text(fields, submethods)?;
            match responses {
                Some(responses) => put_responses(fields, responses.as_slice()),
                None => Ok(()),
            }
        }
    }
}

// Puts the name of an algorithm and a blob, as they stand in the request.
fn put_offer(fields: &mut Vec<u8>, offer: &Offer<'_>) -> Result<(), WireError> {
    put_text(fields, offer.name)?;
    put_bytes(fields, offer.blob)
}

// Puts how many responses there are, and each of them.
fn put_responses(fields: &mut Vec<u8>, responses: &[&[u8]]) -> Result<(), WireError> {
    let Ok(count) = u32::try_from(responses.len()) else {
        return Err(WireError::TooLong);
    };
    put_u32(fields, count)?;
    for response in responses {
        put_bytes(fields, response)?;
    }
    Ok(())
}
