//! States of a reader of messages.

use crate::head::MessageHead;
use crate::lengths::MAX_TRAILER;
use crate::part::{HeaderPart, HeaderTexts};
use arrayvec::ArrayVec;
use wire_story::TextReader;

/// The part of a message that is in progress, with what was received of the header and the trailer.
#[derive(Drop)]
pub(crate) enum Place {
    /// The filler before SOH: `count` octets of it were received.
    Filler {
        count: u8,
    },
    /// In the header, after SOH: the octets received of the parts, up to the part in progress.
    InHeader {
        part: HeaderPart,
        texts: HeaderTexts,
    },
    /// In the info, after the SP before it: the header so far.
    Info {
        head: MessageHead,
    },
    /// In the gap: the header, the number of octets of the gap, and whether an LF is among them.
    Gap {
        head: MessageHead,
        count: u8,
        has_feed: bool,
    },
    /// In the text, after STX: the header, and the number of pending CR.
    Text {
        head: MessageHead,
        text: TextReader,
    },
    /// In the trailer, after ETX: the header, and the trailer so far.
    Trailer {
        head: MessageHead,
        trailer: ArrayVec<u8, MAX_TRAILER>,
    },
    /// In the filler after EOT: the header, the trailer, and the number of octets of this filler.
    AfterEnd {
        head: MessageHead,
        trailer: ArrayVec<u8, MAX_TRAILER>,
        count: u8,
    },
}
