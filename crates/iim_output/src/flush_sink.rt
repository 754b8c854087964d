//! Sinks that are flushed before their reader waits for input.

ghost use Rattle.std.specs.Prelude.{◌≡◌, [], OnOk, OnErr};

use iim_dataset::Stop;
use wire_story::StorySink;

/// A sink that may buffer octets until it is flushed.
pub trait FlushSink: StorySink {
    /// The buffer is empty.
    ghost is_flushed: { Self → Type 0 };

    /// Relates the values of a sink before and after a flush that failed.
    ghost write_failed: { Self → Self → Type 0 };

    /// Writes all buffered octets. After an error some of them are still buffered.
    fn flush_all(&mut self) -> Result<(), Stop>
        ensures told { OnOk result (Self.goes self.old [] self.new) }
        ensures no_failure { OnOk result (Self.failures self.new ≡ Self.failures self.old) }
        ensures is_flushed { OnOk result (is_flushed self.new) }
        ensures write_failed { OnErr result (write_failed self.old self.new) };
}
