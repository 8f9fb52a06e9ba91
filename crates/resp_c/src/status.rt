//! What the calls return.

/// More bytes are needed.
pub const MORE: u32 = 0;
/// It was done.
pub const DONE: u32 = 1;
/// The bytes can't begin a value.
pub const FAULT: u32 = 2;
/// Memory ran out.
pub const MEMORY: u32 = 3;
/// The parser has failed before.
pub const FAILED: u32 = 4;
/// No parser is open.
pub const CLOSED: u32 = 5;
/// The buffer has too little room.
pub const ROOM: u32 = 6;
/// A limit or a size is out of range.
pub const RANGE: u32 = 7;

/// The parser holds no bytes.
pub const BETWEEN_VALUES: u32 = 1;
/// The parser holds bytes that aren't part of a value that was taken.
pub const IN_PROGRESS: u32 = 2;
/// The parser has failed.
pub const HAS_FAILED: u32 = 3;
