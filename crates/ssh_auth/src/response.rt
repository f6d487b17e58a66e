// The responses of a round of keyboard-interactive, as a handler is given them.
ghost use Rattle.std.specs.Prelude.{◌≡◌, IfOk, IfErr, map};
ghost use Rattle.std.specs.Iterator.{YieldsFirstRef, item_count};
ghost use Rattle.ssh_wire.specs.declared.error.WireError.TheVariants.{NoMemory};

use bytes::Bytes;
use ssh_wire::{Blobs, WireError};
use std::alloc::Global;
use std::marker::Model;

/// The responses to the last prompts, in their order. A client that keeps to RFC 4256 section 3.4
/// gives one for each prompt; their number is not compared. A clause sees the list of those that
/// are left.
#[derive(Debug, Drop)]
pub struct Response<'a> {
    left: &'a [&'a [u8]],
}

impl<'a> Model for Response<'a> {
    ghost use Rattle.std.specs.Prelude.{ℕ, List, map};

    ghost Value = { List (List ℕ) };

    ghost view = { λ response. map (λ text. text.now) response.left.now };
}

impl<'a> Response<'a> {
    /// These responses, the first one first.
    pub fn new(responses: &'a [&'a [u8]]) -> Response<'a>
        ensures { result ≡ map (λ text. text.now) responses.now }
    {
        Response { left: responses }
    }

    /// The responses that are left, to be gone through once more.
    pub fn copy(&self) -> Response<'a>
        ensures { result ≡ self.now }
    {
        Response { left: self.left }
    }

    /// Copies of the responses that are left, in their order, to keep. `NoMemory` is the only
    /// error.
    pub fn into_blobs(self, alloc: Global) -> Result<Blobs, WireError>
        ensures ok { IfOk result (λ blobs. blobs ≡ self.entry) }
        ensures memory { IfErr result (λ e. e ≡ NoMemory) }
    {
        let mut blobs = Blobs::new(alloc);
        for text in self {
            blobs.push(Bytes::copy_from_slice(alloc, text)?)?;
        }
        Ok(blobs)
    }
}

/// Copies of the responses of a callback, to keep: none where nothing was prompted for yet.
/// `NoMemory` is the only error.
pub fn copied_response(
    alloc: Global,
    response: Option<Response<'_>>,
) -> Result<Option<Blobs>, WireError>
    ensures ok { IfOk result (λ copied. copied ≡ response.entry) }
    ensures memory { IfErr result (λ e. e ≡ NoMemory) }
{
    match response {
        Some(response) => Ok(Some(response.into_blobs(alloc)?)),
        None => Ok(None),
    }
}

impl<'a> Iterator for Response<'a> {
    type Item = &'a [u8];

    ghost next_gives = { YieldsFirstRef (λ response. response) };

    ghost remaining = { item_count (λ response. response) };

    fn next(&mut self) -> Option<&'a [u8]> {
        if self.left.is_empty() {
            return None;
        }
        let first = self.left[0];
        self.left = &self.left[1..];
        Some(first)
    }
}
