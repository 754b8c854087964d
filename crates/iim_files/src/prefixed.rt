//! A target that begins each line with a prefix.

ghost use Rattle.std.specs.Prelude.{◌≡◌, ◌+◌, ◌<◌, ◌≤◌, [], ◌++◌, true, length, take};
ghost use Rattle.iim_files.specs.Format.{begins_line, front, prefixed};

use iim_dataset::internals::ReservedOctets;
use iim_dataset::octets::LF;
use iim_dataset::{IoFault, Target, put};

/// A target that writes each line to another target, with a prefix. Its model in contracts is a
/// target that accepts the text without the prefixes, after the octets of the other target, which
/// are preceded by their number. After a failed write it writes nothing more.
#[derive(Drop)]
pub struct Prefixed<'p, W> {
    /// The target of the lines.
    writer: W,
    /// The prefix of each line.
    prefix: &'p [u8],
    /// A buffer in which lines are built.
    block: ReservedOctets,
    /// Whether the next octet is the first of a line.
    fresh: bool,
    /// Whether a write failed.
    broken: bool,
    /// The number of octets of a prefix that were written, if a write failed inside that prefix.
    cut: usize,
    /// The number of octets of text written since the value was created.
    count: u64,
    /// The number of failed writes.
    failures: u64,
    ghost room: { length prefix.now < block.room },
}

/// Returns the prefix if `fresh` is true, otherwise an empty slice.
fn front_of(prefix: &[u8], fresh: bool) -> &[u8]
    ensures { result.now ≡ front prefix.now fresh }
{
    if fresh { prefix } else { &[] }
}

/// Appends to an empty block as much of a chunk as fits, each line with its prefix. Returns the
/// number of octets of the chunk that were appended, and whether the next octet is the first of a
/// line.
fn append_prefixed(
    block: &mut ReservedOctets,
    prefix: &[u8],
    fresh: bool,
    piece: &[u8],
) -> (usize, bool)
    requires empty { block.old.items ≡ [] }
    requires room { length prefix.now < block.old.room }
    requires more { 0 < length piece.now }
    ensures some { 0 < result.0 × result.0 ≤ length piece.now }
    ensures laid { block.new.items ≡ prefixed prefix.now fresh (take result.0 piece.now) }
    ensures fresh { result.1 ≡ begins_line fresh (take result.0 piece.now) }
    ensures room { block.new.room ≡ block.old.room }
{
    let mut begins = fresh;
    let mut taken = 0;
    for octet in piece {
        let front = front_of(prefix, begins);
        if block.room() - block.len() <= front.len() {
            return (taken, begins);
        }
        block.take(front);
        block.take(&[*octet]);
        begins = *octet == LF;
        taken += 1;
    }
    (taken, begins)
}

/// Determines how much of a chunk the first `out` octets of its prefixed form contain. Returns the
/// number of octets of the chunk in them, the number of octets of an incomplete prefix at their
/// end, and whether the next octet is the first of a line.
fn count_complete(prefix: &[u8], fresh: bool, piece: &[u8], out: usize) -> (usize, usize, bool)
    requires { out ≤ length (prefixed prefix.now fresh piece.now) }
    ensures within { result.0 ≤ length piece.now × result.1 ≤ length prefix.now }
    ensures parts { take out (prefixed prefix.now fresh piece.now)
        ≡ prefixed prefix.now fresh (take result.0 piece.now) ++ take result.1 prefix.now }
    ensures begins { result.2 ≡ begins_line fresh (take result.0 piece.now) }
    ensures front { 0 < result.1 → result.2 ≡ true }
{
    let mut begins = fresh;
    let mut left = out;
    let mut whole = 0;
    for octet in piece {
        let front = front_of(prefix, begins);
        if left <= front.len() {
            return (whole, left, begins);
        }
        left -= front.len() + 1;
        begins = *octet == LF;
        whole += 1;
    }
    (whole, 0, begins)
}

impl<'p, W: Target> Prefixed<'p, W> {
    ghost use Rattle.std.specs.Prelude.{◌≡◌, IfOk, IfErr, Err, length};
    ghost use Rattle.iim_dataset.specs.Format.Octets.{CounterRose};
    ghost use Rattle.iim_dataset.specs.States.Devices.{WriteAccepted, CountedFault};
    ghost use Rattle.iim_files.specs.States.Seen.{empty_prefixed_device, seen, IsFinishedOutput, IsReturnedOutput, IsSameButFailures};

    /// Creates a target to which nothing was written. The capacity of `block` must be greater than
    /// the length of the prefix.
    pub fn new(writer: W, prefix: &'p [u8], block: ReservedOctets) -> Prefixed<'p, W>
        requires { length prefix.now < block.room }
        ensures { seen W.state result ≡ empty_prefixed_device prefix.entry.now (W.state writer) }
    {
        Prefixed {
            writer,
            prefix,
            block,
            fresh: true,
            broken: false,
            cut: 0,
            count: 0,
            failures: 0,
        }
    }

    /// Returns the inner target, and whether a write failed.
    fn into_parts(self) -> (W, bool)
        ensures parts { IsReturnedOutput (seen W.state self.entry).octets self.entry.fresh
            (W.state result.0).octets result.1 }
        ensures broken { result.1 ≡ self.entry.broken }
    {
        let Prefixed {
            writer,
            prefix: _,
            block: _,
            fresh: _,
            broken,
            cut: _,
            count: _,
            failures: _,
        } = self;
        (writer, broken)
    }

    /// Ends the last line with LF, unless it has ended. Returns the inner target, and whether a
    /// write failed.
    pub fn finish(self) -> (W, bool)
        ensures { IsFinishedOutput (seen W.state self.entry).octets (W.state result.0).octets result.1 }
    {
        if self.fresh || self.broken {
            return self.into_parts();
        }
        let mut ending = self;
        match put(&mut ending, &[LF]) {
            Ok(()) => ending.into_parts(),
            Err(_) => {
                let (writer, _) = ending.into_parts();
                (writer, true)
            }
        }
    }

    /// Counts a failure, and returns the error.
    fn count_failure(&mut self) -> IoFault
        ensures fault { result ≡ IoFault.Failed }
        ensures same { IsSameButFailures self.old self.new }
        ensures counted { CounterRose self.old.failures self.new.failures }
    {
        self.failures = self.failures.saturating_add(1);
        IoFault::Failed
    }

    /// Writes octets of a non-empty chunk. Returns the number of octets written.
    fn write_some(&mut self, piece: &[u8]) -> Result<usize, IoFault>
        requires { 0 < length piece.now }
        ensures ok { IfOk result (WriteAccepted (seen W.state self.old) (seen W.state self.new) piece.now) }
        ensures err { IfErr result (CountedFault (seen W.state self.old) (seen W.state self.new)) }
    {
        if self.broken {
            return Err(self.count_failure());
        }
        self.block.clear();
        let (taken, begins) = append_prefixed(&mut self.block, self.prefix, self.fresh, piece);
        let Some(count) = self.count.checked_add(self.block.len() as u64) else {
            return Err(self.count_failure());
        };
        match put(&mut self.writer, self.block.as_slice()) {
            Ok(()) => {
                self.count = count;
                self.fresh = begins;
                self.cut = 0;
                Ok(taken)
            }
            Err(out) => {
                let (whole, cut, begins) = count_complete(self.prefix, self.fresh, piece, out);
                self.broken = true;
                self.count += out as u64;
                self.fresh = begins;
                self.cut = cut;
                if whole == 0 {
                    return Err(self.count_failure());
                }
                Ok(whole)
            }
        }
    }
}

impl<'p, W: Target> Target for Prefixed<'p, W> {
    ghost use Rattle.iim_files.specs.States.Seen.{seen};

    ghost state = { seen W.state };

    fn write(&mut self, piece: &[u8]) -> Result<usize, IoFault> {
        match piece {
            [] => Ok(0),
            _ => self.write_some(piece),
        }
    }
}
