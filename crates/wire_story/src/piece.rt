//! Consumes a chunk of a text, possibly after pending CR: the longest slices that are within one
//! line, and otherwise octet by octet.

ghost use Rattle.std.specs.Prelude.{◌≡◌, ◌<◌, ◌≤◌, false, length, drop, slice_index, take, Some, IfErr, IfOk, IsTrue, OnOk};
ghost use Rattle.iim_dataset.specs.Format.Octets.{lf, cr};
ghost use Rattle.wire_story.specs.Format.Texts.{is_line_octet, IsLine, max_returns};
ghost use Rattle.wire_story.specs.States.Reading.{TextReaderConsumes, TextReaderRejects};
ghost use Rattle.wire_story.specs.Steps.{MaskCovers, IsTextPrefix, BeginsWithLineEnd};

use crate::fault::{TextCause, TextFault};
use crate::marks::{BLOCK, Marks, tail_len};
use crate::sink::StorySink;
use iim_dataset::octets::{CR, LF};

/// The maximum number of CR before an LF.
const MAX_RETURNS: u8 = 2;

/// Returns the length of the longest prefix that is within one line, and the mask after it. The
/// length is 0 if CR are pending.
#[inline(always)]
fn run_len(held: u8, marks: Marks, octets: &[u8]) -> (usize, Marks)
    requires { MaskCovers octets.now marks }
    ensures within { result.0 ≤ length octets.now }
    ensures line { IsLine (take result.0 octets.now) }
    ensures held { 0 < result.0 → held ≡ 0 }
    ensures longest { held ≡ 0 → result.0 < length octets.now →
        is_line_octet (slice_index octets.now result.0) ≡ false }
    ensures marks { MaskCovers (drop result.0 octets.now) result.1 }
{
    if held > 0 {
        return (0, marks);
    }
    marks.run_len(octets)
}

/// Checks whether CR LF is first and no CR is pending.
#[inline(always)]
fn has_line_end(held: u8, octets: &[u8]) -> bool
    ensures none { IsTrue result → held ≡ 0 }
    ensures two { IsTrue result → 2 ≤ length octets.now }
    ensures first { IsTrue result → slice_index octets.now 0 ≡ cr }
    ensures second { IsTrue result → slice_index octets.now 1 ≡ lf }
{
    held == 0 && octets.len() >= 2 && octets[0] == CR && octets[1] == LF
}

/// Consumes the CR at the start, or CR LF at once if no CR is pending. Returns the number of CR
/// that are pending afterwards, and the number of octets consumed.
#[inline(always)]
fn consume_return<S: StorySink>(
    held: u8,
    rest: &[u8],
    sink: &mut S,
) -> Result<(u8, usize), TextFault>
    requires few { held ≤ max_returns }
    requires some { 0 < length rest.now }
    requires first { slice_index rest.now 0 ≡ cr }
    ensures few { IfOk result (λ front. front.0 ≤ max_returns) }
    ensures short { IfOk result (λ front. (0 < front.1) × (front.1 ≤ 2) × (front.1 ≤ length rest.now)) }
    ensures taken { IfOk result (λ front.
        TextReaderConsumes S.goes S.failures (Some held) (take front.1 rest.now) (Some front.0) sink.old sink.new) }
    ensures refused { IfErr result (λ fault.
        TextReaderRejects S.goes S.failures (Some held) rest.now fault sink.old sink.new) }
{
    if has_line_end(held, rest) {
        return match sink.line_end() {
            Ok(()) => Ok((0, 2)),
            Err(_) => Err(TextFault {
                taken: 1,
                cause: TextCause::Sink,
            }),
        };
    }
    if held < MAX_RETURNS {
        return Ok((held + 1, 1));
    }
    Err(TextFault {
        taken: 0,
        cause: TextCause::LoneReturn,
    })
}

/// Consumes the octet at the start, which is not allowed in a line or follows pending CR. Returns
/// the number of CR that are pending afterwards, and the number of octets consumed.
#[inline(always)]
fn consume_marked<S: StorySink>(
    held: u8,
    rest: &[u8],
    sink: &mut S,
) -> Result<(u8, usize), TextFault>
    requires few { held ≤ max_returns }
    requires some { 0 < length rest.now }
    requires mark { held ≡ 0 → is_line_octet (slice_index rest.now 0) ≡ false }
    ensures few { IfOk result (λ front. front.0 ≤ max_returns) }
    ensures short { IfOk result (λ front. (0 < front.1) × (front.1 ≤ 2) × (front.1 ≤ length rest.now)) }
    ensures taken { IfOk result (λ front.
        TextReaderConsumes S.goes S.failures (Some held) (take front.1 rest.now) (Some front.0) sink.old sink.new) }
    ensures refused { IfErr result (λ fault.
        TextReaderRejects S.goes S.failures (Some held) rest.now fault sink.old sink.new) }
{
    let octet = rest[0];
    if octet == LF {
        return match sink.line_end() {
            Ok(()) => Ok((0, 1)),
            Err(_) => Err(TextFault {
                taken: 0,
                cause: TextCause::Sink,
            }),
        };
    }
    if octet == CR {
        return consume_return(held, rest, sink);
    }
    if held > 0 {
        return Err(TextFault {
            taken: 0,
            cause: TextCause::LoneReturn,
        });
    }
    Err(TextFault {
        taken: 0,
        cause: TextCause::ControlOctet,
    })
}

/// Passes the first `run` octets to the sink, if there are any. They are within one line.
#[inline(always)]
fn take_run<S: StorySink>(held: u8, run: usize, rest: &[u8], sink: &mut S) -> Result<(), TextFault>
    requires within { run ≤ length rest.now }
    requires line { IsLine (take run rest.now) }
    requires held { 0 < run → held ≡ 0 }
    ensures taken { OnOk result (
        TextReaderConsumes S.goes S.failures (Some held) (take run rest.now) (Some held) sink.old sink.new) }
    ensures refused { IfErr result (λ fault.
        TextReaderRejects S.goes S.failures (Some held) rest.now fault sink.old sink.new) }
{
    if run == 0 {
        return Ok(());
    }
    match sink.text(&rest[..run]) {
        Ok(()) => Ok(()),
        Err(stop) => Err(TextFault {
            taken: stop.taken,
            cause: TextCause::Sink,
        }),
    }
}

/// Consumes the longest prefix that is within one line, and the octet after it. Returns the number
/// of CR that are pending afterwards, the number of octets consumed, and the mask after them.
#[inline(always)]
fn consume_prefix<S: StorySink>(
    held: u8,
    rest: &[u8],
    marks: Marks,
    sink: &mut S,
) -> Result<(u8, usize, Marks), TextFault>
    requires few { held ≤ max_returns }
    requires some { 0 < length rest.now }
    requires marks { MaskCovers rest.now marks }
    ensures front { IfOk result (λ front. IsTextPrefix rest.now front.0 front.1 front.2) }
    ensures taken { IfOk result (λ front.
        TextReaderConsumes S.goes S.failures (Some held) (take front.1 rest.now) (Some front.0) sink.old sink.new) }
    ensures refused { IfErr result (λ fault.
        TextReaderRejects S.goes S.failures (Some held) rest.now fault sink.old sink.new) }
{
    let (run, here) = run_len(held, marks, rest);
    match take_run(held, run, rest, sink) {
        Ok(()) => {
            if run == rest.len() {
                return Ok((held, run, here));
            }
            match consume_marked(held, &rest[run..], sink) {
                Ok((now, used)) => Ok((now, run + used, here.after(used, &rest[run..]))),
                Err(fault) => Err(fault.after(run)),
            }
        }
        Err(fault) => Err(fault),
    }
}

/// Returns the length of the line end after the first `run` octets, or 0 if there is none. No CR is
/// pending.
#[inline(always)]
fn end_len(run: usize, octets: &[u8]) -> usize
    requires { run ≤ length octets.now }
    ensures { 0 < result → BeginsWithLineEnd (drop run octets.now) result }
{
    if run == octets.len() {
        return 0;
    }
    if octets[run] == LF {
        return 1;
    }
    if has_line_end(0, &octets[run..]) {
        return 2;
    }
    0
}

/// Passes the line end at the start, of `end` octets, to the sink. No CR is pending.
#[inline(always)]
fn consume_line_end<S: StorySink>(end: usize, rest: &[u8], sink: &mut S) -> Result<(), TextFault>
    requires { BeginsWithLineEnd rest.now end }
    ensures taken { OnOk result (
        TextReaderConsumes S.goes S.failures (Some 0) (take end rest.now) (Some 0) sink.old sink.new) }
    ensures refused { IfErr result (λ fault.
        TextReaderRejects S.goes S.failures (Some 0) rest.now fault sink.old sink.new) }
{
    let _ = rest;
    match sink.line_end() {
        Ok(()) => Ok(()),
        Err(_) => Err(TextFault {
            taken: end - 1,
            cause: TextCause::Sink,
        }),
    }
}

/// Consumes the first line and its line end, if that end is at the first low octet or directly
/// after the octets of the mask. Returns the number of octets consumed, or 0 if the end is
/// elsewhere. No CR is pending.
#[inline(always)]
fn consume_line<S: StorySink>(rest: &[u8], marks: Marks, sink: &mut S) -> Result<usize, TextFault>
    requires marks { MaskCovers rest.now marks }
    ensures within { IfOk result (λ used. used ≤ length rest.now) }
    ensures short { IfOk result (λ used. used ≤ 18) }
    ensures taken { IfOk result (λ used.
        TextReaderConsumes S.goes S.failures (Some 0) (take used rest.now) (Some 0) sink.old sink.new) }
    ensures refused { IfErr result (λ fault.
        TextReaderRejects S.goes S.failures (Some 0) rest.now fault sink.old sink.new) }
{
    let run = marks.unmarked_len(rest);
    let end = end_len(run, rest);
    if end == 0 {
        return Ok(0);
    }
    match take_run(0, run, rest, sink) {
        Ok(()) => match consume_line_end(end, &rest[run..], sink) {
            Ok(()) => Ok(run + end),
            Err(fault) => Err(fault.after(run)),
        },
        Err(fault) => Err(fault),
    }
}

/// Consumes lines from the start, as long as the mask marks a low octet. Returns the number of
/// octets consumed, and the mask after them. No CR is pending.
#[inline(always)]
fn consume_lines<S: StorySink>(
    rest: &[u8],
    marks: Marks,
    sink: &mut S,
) -> Result<(usize, Marks), TextFault>
    requires marks { MaskCovers rest.now marks }
    ensures within { IfOk result (λ lines. lines.0 ≤ length rest.now) }
    ensures marks { IfOk result (λ lines. MaskCovers (drop lines.0 rest.now) lines.1) }
    ensures taken { IfOk result (λ lines.
        TextReaderConsumes S.goes S.failures (Some 0) (take lines.0 rest.now) (Some 0) sink.old sink.new) }
    ensures refused { IfErr result (λ fault.
        TextReaderRejects S.goes S.failures (Some 0) rest.now fault sink.old sink.new) }
{
    let mut at = 0;
    let mut here = marks;
    while here.has_low_octet() {
        match consume_line(&rest[at..], here, sink) {
            Ok(used) => {
                if used == 0 {
                    return Ok((at, here));
                }
                here = here.after(used, &rest[at..]);
                at += used;
            }
            Err(fault) => return Err(fault.after(at)),
        }
    }
    Ok((at, here))
}

/// Consumes a prefix of the remaining octets and, if that prefix is short, the lines that the mask
/// covers.
#[inline(always)]
fn consume_prefixes<S: StorySink>(
    held: u8,
    rest: &[u8],
    marks: Marks,
    sink: &mut S,
) -> Result<(u8, usize, Marks), TextFault>
    requires few { held ≤ max_returns }
    requires some { 0 < length rest.now }
    requires marks { MaskCovers rest.now marks }
    ensures front { IfOk result (λ front. IsTextPrefix rest.now front.0 front.1 front.2) }
    ensures taken { IfOk result (λ front.
        TextReaderConsumes S.goes S.failures (Some held) (take front.1 rest.now) (Some front.0) sink.old sink.new) }
    ensures refused { IfErr result (λ fault.
        TextReaderRejects S.goes S.failures (Some held) rest.now fault sink.old sink.new) }
{
    let (now, used, after) = consume_prefix(held, rest, marks, sink)?;
    if used == rest.len() || used >= BLOCK || now > 0 {
        return Ok((now, used, after));
    }
    match consume_lines(&rest[used..], after, sink) {
        Ok((more, last)) => Ok((0, used + more, last)),
        Err(fault) => Err(fault.after(used)),
    }
}

/// Consumes a chunk after `held` pending CR. Returns the number of CR that are pending afterwards.
pub(crate) fn consume_chunk<S: StorySink>(
    held: u8,
    piece: &[u8],
    sink: &mut S,
) -> Result<u8, TextFault>
    requires { held ≤ max_returns }
    ensures few { IfOk result (λ now. now ≤ max_returns) }
    ensures taken { IfOk result (λ now.
        TextReaderConsumes S.goes S.failures (Some held) piece.now (Some now) sink.old sink.new) }
    ensures refused { IfErr result (λ fault.
        TextReaderRejects S.goes S.failures (Some held) piece.now fault sink.old sink.new) }
{
    if held == 0 && piece.len() < BLOCK && tail_len(0, piece) == piece.len() {
        return match take_run(0, piece.len(), piece, sink) {
            Ok(()) => Ok(0),
            Err(fault) => Err(fault),
        };
    }
    let mut now = held;
    let mut at = 0;
    let mut marks = Marks::new();
    while at < piece.len() {
        match consume_prefixes(now, &piece[at..], marks, sink) {
            Ok((next, used, after)) => {
                now = next;
                marks = after;
                at += used;
            }
            Err(fault) => return Err(fault.after(at)),
        }
    }
    Ok(now)
}
