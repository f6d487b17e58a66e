// A script of what the client of a stream sends.
ghost use Rattle.std.specs.Prelude.{◌≡◌, Some, None, IfOk, if◌then◌else◌};
ghost use Rattle.ssh_scene.specs.Scene.{lines_of};
ghost use Rattle.ssh_scene.specs.Pieces.{piece_of, with_stream_line, BringsPieces, pieces_seen};

use crate::grammar::read_line;
use crate::lines::{InputLine, Line};
use crate::scene::first_line;
use bytes::Bytes;
use std::alloc::{AllocError, Global};

/// The piece that an input line brings; None where it is a line of a session.
fn piece_of(line: InputLine) -> Option<Bytes>
    ensures { result ≡ piece_of line }
{
    match line {
        InputLine::Recv(bytes) => Some(bytes),
        other => {
            drop(other);
            None
        }
    }
}

/// Takes in one more line; false where it is bad.
fn add(pieces: &mut Vec<Bytes>, line: Line) -> Result<bool, AllocError>
    ensures { IfOk result (λ done. with_stream_line pieces.old.items (Some line)
        ≡ (if done then Some pieces.new.items else None)) }
{
    match line {
        Line::Passed => Ok(true),
        Line::Setting(setting) => {
            drop(setting);
            Ok(false)
        }
        Line::Input(input) => match piece_of(input) {
            Some(piece) => {
                pieces.push(piece)?;
                Ok(true)
            }
            None => Ok(false),
        },
    }
}

/// The pieces of a stream that the lines bring, each by `recv` and its bytes in hex, or the number
/// of the first line that is bad: one of another word, or not written so.
pub fn read_pieces(alloc: Global, text: &[u8]) -> Result<Result<Vec<Bytes>, u64>, AllocError>
    ensures { IfOk result (λ read. BringsPieces (lines_of text.now) (pieces_seen read)) }
{
    let mut pieces = Vec::new(alloc);
    let mut rest = text;
    let mut done: u64 = 0;
    while let Some((line, more)) = first_line(rest) {
        done += 1;
        let Some(line) = read_line(alloc, line)? else {
            return Ok(Err(done));
        };
        if !add(&mut pieces, line)? {
            return Ok(Err(done));
        }
        rest = more;
    }
    Ok(Ok(pieces))
}
