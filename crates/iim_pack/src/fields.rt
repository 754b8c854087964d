//! Writes records 1 and 2.

ghost use Rattle.std.specs.Prelude.{◌≡◌, ◌+◌, ◌<◌, ◌^◌, length, IfOk, IfErr, OnOk};
ghost use Rattle.iim_dataset.specs.Format.Datasets.{canonical_stream};
ghost use Rattle.iim_dataset.specs.States.Devices.{WroteAllOf, WroteOnlyPrefixOf, WithinInterruptionLimit};
ghost use Rattle.iim_fields.specs.Format.Records.{IsEnvelope};

use iim_dataset::device_laws::writes_join;
use iim_dataset::{Target, put_dataset};
use iim_fields::Envelope;

/// Writes records 1 and 2. Returns the number of octets written, as the result or, if a write
/// fails, as the error.
pub(crate) fn put_fields<W: Target>(writer: &mut W, envelope: &Envelope) -> Result<u64, u64>
    ensures ok { OnOk result (WroteAllOf (W.state writer.old) (W.state writer.new) (canonical_stream envelope.now)) }
    ensures all { IfOk result (λ out. out ≡ length (canonical_stream envelope.now)) }
    ensures small { IfOk result (λ out. out < 2 ^ 40) }
    ensures envelope { IsEnvelope envelope.now }
    ensures err { IfErr result (WroteOnlyPrefixOf (W.state writer.old) (W.state writer.new)
        (canonical_stream envelope.now)) }
    // At most a million interruptions occurred for each octet written, plus one million if a write
    // failed.
    ensures retry_limit { IfOk result (λ out. WithinInterruptionLimit out (W.state writer.old) (W.state writer.new)) }
    ensures given_up { IfErr result (λ out.
        WithinInterruptionLimit (out + 1) (W.state writer.old) (W.state writer.new)) }
{
    writes_join();
    let mut fields = envelope.fields();
    let mut written = 0;
    while let Some((rec, set, octets)) = fields.next() {
        match put_dataset(writer, rec, set, octets) {
            Ok(out) => written += out,
            Err(out) => return Err(written + out),
        }
    }
    Ok(written)
}
