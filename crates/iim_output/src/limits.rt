//! The limits of the commands on an envelope.

use iim_fields::Limits;

/// The limits on records 1 and 2 of an envelope.
pub const LIMITS: Limits = Limits::WIRE;
