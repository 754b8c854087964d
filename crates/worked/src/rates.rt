//! The example envelope with a story of two lines, and its parts.

/// An envelope with by-lines, keywords and a story of two lines. It has a known size, and one
/// subfile of at most 1,024 octets.
pub const STORY: &[u8; 246] =
    b"\x1c\x01\x00\x00\x02\x00\x04\x1c\x01\x14\x00\x02\x00\x02\x1c\x01\x16\x00\x02\x00\x01\
\x1c\x01\x1e\x00\x03TST\x1c\x01\x28\x00\x0800000002\x1c\x01\x46\x00\x0820240301\x1c\x02\x00\x00\x02\x00\x04\
\x1c\x02\x69\x00\x0aRates held\x1c\x02\x50\x00\x07A. Moor\x1c\x02\x55\x00\x06Editor\
\x1c\x02\x50\x00\x07B. Lund\x1c\x02\x55\x00\x06Writer\x1c\x02\x19\x00\x05rates\x1c\x02\x19\x00\x04bank\
\x1c\x02\x19\x00\x04euro\x1c\x02\xfa\x00\x02\x00\xff\x1c\x07\x0a\x00\x01\x01\x1c\x07\x14\x00\x04\x00\x00\x04\x00\
\x1c\x07\x5a\x00\x04\x00\x00\x00\x32\x1c\x08\x0a\x00\x32\x01TST0007 4 ECO 5 rates\r\n\x02Rates stay.\r\nNo change.\x03\x04\
\x1c\x09\x0a\x00\x04\x00\x00\x00\x32";

/// The datasets of records 1 and 2 of the envelope: record, number and data of each.
pub const STORY_FIELDS: [(u8, u8, &[u8]); 16] = [
    (1, 0, b"\0\x04"),
    (1, 20, b"\0\x02"),
    (1, 22, b"\0\x01"),
    (1, 30, b"TST"),
    (1, 40, b"00000002"),
    (1, 70, b"20240301"),
    (2, 0, b"\0\x04"),
    (2, 105, b"Rates held"),
    (2, 80, b"A. Moor"),
    (2, 85, b"Editor"),
    (2, 80, b"B. Lund"),
    (2, 85, b"Writer"),
    (2, 25, b"rates"),
    (2, 25, b"bank"),
    (2, 25, b"euro"),
    (2, 250, b"\0\xff"),
];

/// The encoding of these datasets, which is the envelope before record 7.
pub const STORY_FRONT: &[u8] =
    b"\x1c\x01\x00\x00\x02\x00\x04\x1c\x01\x14\x00\x02\x00\x02\x1c\x01\x16\x00\x02\x00\x01\
\x1c\x01\x1e\x00\x03TST\x1c\x01\x28\x00\x0800000002\x1c\x01\x46\x00\x0820240301\x1c\x02\x00\x00\x02\x00\x04\
\x1c\x02\x69\x00\x0aRates held\x1c\x02\x50\x00\x07A. Moor\x1c\x02\x55\x00\x06Editor\
\x1c\x02\x50\x00\x07B. Lund\x1c\x02\x55\x00\x06Writer\x1c\x02\x19\x00\x05rates\x1c\x02\x19\x00\x04bank\
\x1c\x02\x19\x00\x04euro\x1c\x02\xfa\x00\x02\x00\xff";

/// The object of the envelope: a message with a story of two lines.
pub const STORY_OBJECT: &[u8] =
    b"\x01TST0007 4 ECO 5 rates\r\n\x02Rates stay.\r\nNo change.\x03\x04";

/// The dataset after the object, which confirms the size of the object.
pub const STORY_CONFIRMED: &[u8] = b"\x1c\x09\x0a\x00\x04\x00\x00\x00\x32";

/// The octets of the envelope from record 7 on.
pub const STORY_REST: &[u8] =
    b"\x1c\x07\x0a\0\x01\x01\x1c\x07\x14\0\x04\0\0\x04\0\x1c\x07\x5a\0\x04\0\0\0\x32\
\x1c\x08\x0a\0\x32\x01TST0007 4 ECO 5 rates\r\n\x02Rates stay.\r\nNo change.\x03\x04\x1c\x09\x0a\0\x04\0\0\0\x32";

/// The first line of the story.
pub const FIRST_LINE: &[u8] = b"Rates stay.";

/// The last line of the story.
pub const LAST_LINE: &[u8] = b"No change.";
