// What comes true around one line that is made where it is wanted, or by many lines that are.
use crate::answering::{Plan, QUIET};
use crate::sides::{Side, is_logged_in};
use crate::stories::{Line, Place, Turn, play};
use ssh_handler::Config;
use ssh_wire::WireError;
use std::alloc::Global;

/// Lines, and lines behind one more: what comes, what is done, and all that the link is told of it.
/// And what the handler is asked.
#[derive(Clone, Copy)]
pub struct Around {
    /// Whether a login comes first, of which nothing is looked at.
    pub logged_in: bool,
    pub plan: Plan,
    pub first: Turn,
    pub then: Turn,
    pub last: Turn,
    pub asked: &'static [u8],
}

/// Behind a login nothing comes, and nothing is told.
pub const NOTHING: Around = Around {
    logged_in: true,
    plan: QUIET,
    first: &[],
    then: &[],
    last: &[],
    asked: b"",
};

fn play_line(side: &mut Side, place: &mut Place, line: Line<'_>) -> Result<bool, WireError> {
    play(side, place, &[line])
}

fn play_around(side: &mut Side, around: Around, line: Option<Line<'_>>) -> Result<bool, WireError> {
    if around.logged_in && !is_logged_in(side)? {
        return Ok(false);
    }
    let mut place = Place::behind(side.link.trace().len(), false);
    if !play(side, &mut place, around.first)? {
        return Ok(false);
    }
    if let Some(line) = line {
        if !play_line(side, &mut place, line)? {
            return Ok(false);
        }
    }
    if !play(side, &mut place, around.then)? || !play(side, &mut place, around.last)? {
        return Ok(false);
    }
    Ok(place.is_at_the_end(&side.link))
}

impl Around {
    /// Whether it comes true around this line, or around none; without memory it does not.
    pub fn holds(self, alloc: Global, line: Option<Line<'_>>) -> bool {
        match Side::new(alloc, &Config::standard(), true, self.plan) {
            Ok(mut side) => {
                let is_true = play_around(&mut side, self, line) == Ok(true);
                let was_asked = side.handler.asked.as_slice() == self.asked;
                drop(side);
                is_true && was_asked
            }
            Err(_) => false,
        }
    }
}

fn play_frames(side: &mut Side, lines: &[Line<'_>]) -> Result<bool, WireError> {
    if !is_logged_in(side)? {
        return Ok(false);
    }
    let mut place = Place::behind(side.link.trace().len(), true);
    Ok(play(side, &mut place, lines)? && place.is_at_the_end(&side.link))
}

/// Whether all these lines come true behind a login, where the frames alone are looked at of what
/// the link is told; without memory they do not.
pub fn are_true(alloc: Global, plan: Plan, lines: &[Line<'_>]) -> bool {
    match Side::new(alloc, &Config::standard(), false, plan) {
        Ok(mut side) => {
            let are_true = play_frames(&mut side, lines) == Ok(true);
            drop(side);
            are_true
        }
        Err(_) => false,
    }
}
