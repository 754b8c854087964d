//! Slices of a ticket.

/// A slice of a ticket: `count` octets from `offset` on.
#[repr(C)]
#[derive(Clone, Copy)]
pub struct IimSpan {
    /// The offset of the first octet.
    pub offset: usize,
    /// The number of octets.
    pub count: usize,
}

/// The empty slice at offset 0.
pub const NO_SPAN: IimSpan = IimSpan {
    offset: 0,
    count: 0,
};
