//! Octets by their names in ISO 646.

/// Null: filler around a message.
pub const NUL: u8 = 0x00;

/// Start of heading: the beginning of a message.
pub const SOH: u8 = 0x01;

/// Start of text: the beginning of the text of a message.
pub const STX: u8 = 0x02;

/// End of text.
pub const ETX: u8 = 0x03;

/// End of transmission: the end of a message.
pub const EOT: u8 = 0x04;

/// Horizontal tabulation.
pub const TAB: u8 = 0x09;

/// Line feed: the end of a line.
pub const LF: u8 = 0x0a;

/// Carriage return: may precede the line feed at the end of a line.
pub const CR: u8 = 0x0d;

/// Synchronous idle: filler around a message.
pub const SYN: u8 = 0x16;

/// Space.
pub const SP: u8 = 0x20;
