//! Calls of `Lines` that allocate: octets and line ends.

use crate::outcome::{Trouble, right, right_after};
use std::alloc::Global;
use wire_story::{Lines, StorySink, is_text};
use worked::FIRST_LINE;

/// The number of times that a line and its end are passed.
const TIMES: usize = 50;

/// Returns the number of lines, and the total number of their octets.
pub(crate) fn size_of(lines: &Lines) -> (usize, usize) {
    let mut count = 0usize;
    let mut octets = 0usize;
    for line in lines.iter() {
        count = count.saturating_add(1);
        octets = octets.saturating_add(line.len());
    }
    (count, octets)
}

/// Passes the octets of a line, and repeats the call if it fails. Returns whether it failed the
/// first time. A failed call must change nothing.
fn take_text(lines: &mut Lines) -> Result<bool, Trouble> {
    if !is_text(FIRST_LINE) {
        return Err(Trouble::Wrong);
    }
    let before = size_of(lines);
    let Err(stop) = lines.text(FIRST_LINE) else {
        return Ok(false);
    };
    right(stop.taken == 0 && size_of(lines) == before)?;
    match lines.text(FIRST_LINE) {
        Ok(()) => Ok(true),
        Err(_) => Err(Trouble::OutOfMemory),
    }
}

/// Passes the end of a line, and repeats the call if it fails. Returns whether it failed the first
/// time. A failed call must change nothing.
fn take_line_end(lines: &mut Lines) -> Result<bool, Trouble> {
    let before = size_of(lines);
    let Err(stop) = lines.line_end() else {
        return Ok(false);
    };
    right(stop.taken == 0 && size_of(lines) == before)?;
    match lines.line_end() {
        Ok(()) => Ok(true),
        Err(_) => Err(Trouble::OutOfMemory),
    }
}

/// Passes lines repeatedly. Returns whether a call failed.
fn take_lines(lines: &mut Lines) -> Result<bool, Trouble> {
    let mut was_refused = false;
    for _ in 0..TIMES {
        was_refused |= take_text(lines)?;
        was_refused |= take_line_end(lines)?;
    }
    Ok(was_refused)
}

/// Passes the end of the first line, before any octets.
fn end_first(lines: &mut Lines) -> Result<(), Trouble> {
    right(size_of(lines) == (1, 0))?;
    match lines.line_end() {
        Ok(()) => right(size_of(lines) == (2, 0)),
        Err(_) => right(size_of(lines) == (1, 0)).and(Err(Trouble::OutOfMemory)),
    }
}

/// Makes lines grow repeatedly, beginning with the end of an empty line.
pub(crate) fn grown(alloc: Global) -> Result<(), Trouble> {
    end_first(&mut Lines::new(alloc))?;
    let mut lines = Lines::new(alloc);
    let was_refused = take_lines(&mut lines)?;
    let is_right = size_of(&lines) == (TIMES + 1, TIMES * FIRST_LINE.len());
    right_after(is_right, was_refused)
}
