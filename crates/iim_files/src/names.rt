//! Lists of file names.

ghost use Rattle.std.specs.Prelude.{◌≡◌, ◌<◌, ◌≤◌, IfOk, length, true};

use iim_commands::fault::CommandFault;
use iim_dataset::octets::LF;
use iim_dataset::{BLOCK, Source, take};

/// The octet that ends a name if the names are not separated by LF.
const NUL: u8 = 0;

/// A reader of a list of file names. Either each name ends in LF, or each name ends in NUL: the
/// first LF or NUL of the list decides which. The last name may end with the list. Empty names are
/// skipped.
#[derive(Drop)]
pub struct Names<R> {
    /// The reader of the list.
    reader: R,
    /// Buffered octets of the list.
    block: [u8; BLOCK],
    /// The number of buffered octets that were consumed.
    at: usize,
    /// The number of buffered octets.
    end: usize,
    /// The octet that ends a name, or `None` before the end of the first name.
    separator: Option<u8>,
    ghost within: { at ≤ end × end ≤ 4096 },
}

impl<R: Source> Names<R> {
    /// Creates a list of which nothing was read yet.
    pub fn new(reader: R) -> Names<R> {
        Names {
            reader,
            block: [0; BLOCK],
            at: 0,
            end: 0,
            separator: None,
        }
    }

    /// Reads the next octets into the buffer.
    fn fill(&mut self) -> Result<(), CommandFault> {
        match take(&mut self.reader, &mut self.block) {
            Ok(count) => {
                self.at = 0;
                self.end = count;
                Ok(())
            }
            Err(_) => Err(CommandFault::CannotRead),
        }
    }

    /// Returns the next octet of the list, or `None` at its end.
    fn next_octet(&mut self) -> Result<Option<u8>, CommandFault> {
        if self.at == self.end {
            self.fill()?;
        }
        if self.at == self.end {
            return Ok(None);
        }
        let octet = self.block[self.at];
        self.at += 1;
        Ok(Some(octet))
    }

    /// Returns whether an octet ends a name. The first LF or NUL decides which of the two ends all
    /// names.
    fn ends_name(&mut self, octet: u8) -> bool {
        match self.separator {
            Some(separator) => octet == separator,
            None => {
                if octet != LF && octet != NUL {
                    return false;
                }
                self.separator = Some(octet);
                true
            }
        }
    }

    /// Replaces `name` with the next name. Returns whether there is a next name.
    pub fn next_name(&mut self, name: &mut Vec<u8>) -> Result<bool, CommandFault>
        ensures { IfOk result (λ more. more ≡ true → 0 < length name.new.items) }
    {
        name.clear();
        'octets: for _ in 0..u64::MAX {
            match self.next_octet()? {
                Some(octet) => {
                    if !self.ends_name(octet) {
                        if name.push(octet).is_err() {
                            return Err(CommandFault::OutOfMemory);
                        }
                    } else if !name.is_empty() {
                        return Ok(true);
                    }
                }
                None => return Ok(!name.is_empty()),
            }
        }
        Ok(!name.is_empty())
    }
}
