// Why a line of a script is bad, in words for whoever wrote it.
ghost use Rattle.std.specs.Prelude.{Ok, Err, IfOk, MatchOption};
ghost use Rattle.ssh_scene.specs.Scene.{Scene, opening_scene, lines_of, Gives};

use crate::command_lines::small_in;
use crate::grammar::{bytes_in, key_in, number_in, read_line, text_in};
use crate::scene::{first_line, read_script};
use std::alloc::{AllocError, Global};
use thiserror::Error;

/// Why a line is bad.
#[derive(Clone, Copy, Debug, PartialEq, Eq, Error)]
pub enum LineFault {
    /// It is no text in UTF-8.
    #[error("it is no text in UTF-8")]
    NotText,
    /// A word of it is none of those that may stand there.
    #[error("it has a word that is not known there")]
    UnknownWord,
    /// It has too few words or too many.
    #[error("it has too few words, or too many; one space stands between each two")]
    WordCount,
    /// A number of it is not in decimal, or out of its range.
    #[error("it has a number that is not in decimal, or out of its range")]
    Number,
    /// Bytes of it are not in hex.
    #[error("it has bytes that are not in hex; none are written as -")]
    Hex,
    /// A text of it is not in hex, or no UTF-8.
    #[error("it has a text that is not in hex, or no UTF-8; the empty one is written as -")]
    Text,
    /// A key of it is none that is known.
    #[error("it has a key that is not in hex, or none that is known")]
    Key,
    /// It is a setting, and stands behind an input.
    #[error("it is a setting, and settings stand before the first input")]
    SettingAfterInput,
}

/// A line that is bad, and why.
#[derive(Clone, Copy, Debug, PartialEq, Eq)]
pub struct BadLine {
    /// Its number: all lines are counted, from 1.
    pub number: u64,
    /// What is wrong with it.
    pub fault: LineFault,
}

/// What a word of a line is.
#[derive(Clone, Copy)]
enum Field {
    /// One of a few words.
    Word,
    /// A number below 2^64.
    Number,
    /// A number below 2^32.
    Small,
    /// A number from 1 to this.
    Code(u32),
    /// Bytes.
    Hex,
    /// A text by its bytes.
    Text,
    /// A key by its blob.
    Key,
}

impl Field {
    /// Why a word is not such a field; None where it may be one.
    fn fault(self, alloc: Global, word: &str) -> Result<Option<LineFault>, AllocError> {
        let (fits, fault) = match self {
            Field::Word => (true, LineFault::UnknownWord),
            Field::Number => (number_in(alloc, word)?.is_some(), LineFault::Number),
            Field::Small => (small_in(alloc, word)?.is_some(), LineFault::Number),
            Field::Code(most) => (
                small_in(alloc, word)?.is_some_and(|code| 1 <= code && code <= most),
                LineFault::Number,
            ),
            Field::Hex => (bytes_in(alloc, word)?.is_some(), LineFault::Hex),
            Field::Text => (text_in(alloc, word)?.is_some(), LineFault::Text),
            Field::Key => (key_in(alloc, word)?.is_some(), LineFault::Key),
        };
        Ok(if fits { None } else { Some(fault) })
    }
}

/// What stands behind these first words of a line; None where no line begins so.
fn fields_behind(word: &str, rest: &str) -> Option<&'static [Field]> {
    match word {
        "session" | "recv" => Some(&[Field::Hex]),
        "inputs" | "at" => Some(&[Field::Number]),
        "banner" => Some(&[Field::Text]),
        "sign" => Some(&[Field::Key, Field::Word, Field::Hex, Field::Hex]),
        "config" => match rest.split_once(' ') {
            Some(("window" | "packet", _)) => Some(&[Field::Word, Field::Small]),
            _ => Some(&[Field::Word, Field::Number]),
        },
        "answer" => match rest.split_once(' ') {
            Some(("forward", words)) if words.starts_with("yes ") => {
                Some(&[Field::Word, Field::Word, Field::Small])
            }
            _ => Some(&[Field::Word, Field::Word]),
        },
        "data" => Some(&[Field::Small, Field::Hex]),
        "ext" => Some(&[Field::Small, Field::Small, Field::Hex]),
        "eof" | "close" | "success" | "failure" | "accept" => Some(&[Field::Small]),
        "status" => Some(&[Field::Small, Field::Small]),
        "open" | "tick" => Some(&[Field::Word]),
        "forward" => Some(&[Field::Text, Field::Small, Field::Number]),
        "disconnect" => Some(&[Field::Code(15), Field::Text]),
        "reject" => Some(&[Field::Small, Field::Code(4)]),
        "end" => Some(&[]),
        _ => None,
    }
}

/// The fault of the first of these words that is not what stands there.
fn first_fault(alloc: Global, fields: &[Field], words: &str) -> Result<LineFault, AllocError> {
    let mut left = fields;
    for word in words.split(' ') {
        let Some((field, more)) = left.split_first() else {
            return Ok(LineFault::WordCount);
        };
        // Two spaces stand in a row, or one at the end.
        if word.is_empty() {
            return Ok(LineFault::WordCount);
        }
        if let Some(fault) = field.fault(alloc, word)? {
            return Ok(fault);
        }
        left = more;
    }
    Ok(if left.is_empty() {
        LineFault::UnknownWord
    } else {
        LineFault::WordCount
    })
}

/// Why a line is bad whose words are in no form.
fn fault_of_words(alloc: Global, text: &str) -> Result<LineFault, AllocError> {
    let (word, rest) = match text.split_once(' ') {
        Some(parts) => parts,
        None => (text, ""),
    };
    let Some(fields) = fields_behind(word, rest) else {
        return Ok(LineFault::UnknownWord);
    };
    if word.len() == text.len() {
        return Ok(LineFault::WordCount);
    }
    first_fault(alloc, fields, rest)
}

/// Why a bad line is bad.
fn fault_of(alloc: Global, line: &[u8]) -> Result<LineFault, AllocError> {
    let Ok(text) = str::from_utf8(line) else {
        return Ok(LineFault::NotText);
    };
    match read_line(alloc, line)? {
        // It is in a form, and may not stand where it stands.
        Some(said) => {
            drop(said);
            Ok(LineFault::SettingAfterInput)
        }
        None => fault_of_words(alloc, text),
    }
}

/// The line of this number, counted from 1; the last one where there are fewer.
fn line_at(text: &[u8], number: u64) -> &[u8] {
    let mut rest = text;
    let mut last = text;
    for _ in 0..number {
        let Some((line, more)) = first_line(rest) else {
            return last;
        };
        last = line;
        rest = more;
    }
    last
}

/// The first bad line of a script, and why it is bad; None where no line is.
pub fn bad_line(alloc: Global, text: &[u8]) -> Result<Option<BadLine>, AllocError>
    ensures { IfOk result (λ found. MatchOption found
        ((scene : Scene) × Gives 0 opening_scene (lines_of text.now) (Ok scene))
        (λ bad. Gives 0 opening_scene (lines_of text.now) (Err bad.number))) }
{
    match read_script(alloc, text)? {
        Ok(script) => {
            drop(script);
            Ok(None)
        }
        Err(number) => {
            let fault = fault_of(alloc, line_at(text, number))?;
            Ok(Some(BadLine { number, fault }))
        }
    }
}
