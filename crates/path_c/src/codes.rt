//! The codes of answers, by their names in `wanzoche.h` without `WANZOCHE_`. They never change.

/// The handle is closed.
pub(crate) const CLOSED: u32 = 0;
/// A start was admitted.
pub(crate) const STARTED: u32 = 1;
/// A path forbids the start.
pub(crate) const BLOCKED: u32 = 2;
/// No operation has this number.
pub(crate) const UNKNOWN_OPERATION: u32 = 3;
/// The device answered.
pub(crate) const USED: u32 = 4;
/// The device doesn't offer this verb.
pub(crate) const NOT_OFFERED: u32 = 5;
/// The queue is empty.
pub(crate) const EMPTY: u32 = 6;
/// The queue is full.
pub(crate) const FULL: u32 = 7;
/// The total would be too large.
pub(crate) const OVERFLOW: u32 = 8;
/// The device failed.
pub(crate) const DEVICE_FAILED: u32 = 9;
/// The activation is over.
pub(crate) const FINISHED: u32 = 10;
/// No live activation has this number.
pub(crate) const STALE: u32 = 11;
/// The activation is another worker's.
pub(crate) const NOT_YOURS: u32 = 12;
/// The journal has no room.
pub(crate) const NO_ROOM: u32 = 13;
/// No verb has this code.
pub(crate) const NO_VERB: u32 = 14;
/// No path forbids a start now.
pub(crate) const CAN_START: u32 = 15;
/// The lines so far were given up.
pub(crate) const ROTATED: u32 = 16;
/// The text and a zero byte are in the buffer.
pub(crate) const WRITTEN: u32 = 17;
/// The buffer is too small for the text and a zero byte.
pub(crate) const TOO_SMALL: u32 = 18;
/// The handle was opened.
pub(crate) const OPENED: u32 = 19;
/// The handle is open already.
pub(crate) const ALREADY_OPEN: u32 = 20;
/// No journal has such a room.
pub(crate) const BAD_ROOM: u32 = 21;
/// An allocation failed.
pub(crate) const OUT_OF_MEMORY: u32 = 22;
/// Each reply was owed.
pub(crate) const SOUND: u32 = 23;
/// A line's reply wasn't owed.
pub(crate) const WRONG_LINE: u32 = 24;
/// The journal has too many bytes.
pub(crate) const JOURNAL_TOO_LONG: u32 = 25;
/// A line isn't one of a journal.
pub(crate) const BAD_LINE: u32 = 26;
/// A line names an operation that isn't declared.
pub(crate) const UNDECLARED_LINE: u32 = 27;
/// The handle keeps no lines.
pub(crate) const NO_JOURNAL: u32 = 28;
/// The declaration has too many bytes.
pub(crate) const TOO_LONG: u32 = 32;
/// No word or sign begins with the byte.
pub(crate) const BAD_BYTE: u32 = 33;
/// A word has too many bytes.
pub(crate) const WORD_TOO_LONG: u32 = 34;
/// A number has too many digits.
pub(crate) const NUMBER_TOO_LONG: u32 = 35;
/// Something else has to stand there.
pub(crate) const UNEXPECTED: u32 = 36;
/// Too many parentheses or braces are open.
pub(crate) const TOO_DEEP: u32 = 37;
/// Another resource has the name.
pub(crate) const DUPLICATE_RESOURCE: u32 = 38;
/// Another operation has the name.
pub(crate) const DUPLICATE_OPERATION: u32 = 39;
/// A name isn't an operation of the resource.
pub(crate) const UNDECLARED: u32 = 40;
/// The path has the name already.
pub(crate) const REPEATED_NAME: u32 = 41;
/// Braces stand in braces.
pub(crate) const NESTED_BRACES: u32 = 42;
/// No queue has such a capacity.
pub(crate) const BAD_CAPACITY: u32 = 43;
/// No braces have such a bound.
pub(crate) const BAD_COUNT: u32 = 44;
/// There are too many resources, operations, paths or names.
pub(crate) const TOO_MANY: u32 = 45;
/// All whole lines were taken over.
pub(crate) const TAKEN: u32 = 46;
/// Every schedule ends done.
pub(crate) const ALL_DONE: u32 = 47;
/// A schedule stalls.
pub(crate) const STALLS: u32 = 48;
/// A schedule has a step refused.
pub(crate) const REFUSED: u32 = 49;
/// There are more states than were to be looked at.
pub(crate) const UNDECIDED: u32 = 50;
/// The script has too many bytes.
pub(crate) const SCRIPT_TOO_LONG: u32 = 51;
/// A line can't come there.
pub(crate) const SCRIPT_BAD_LINE: u32 = 52;
/// A line enters an operation that isn't declared.
pub(crate) const SCRIPT_UNDECLARED: u32 = 53;
/// A line uses, leaves or ends wrongly.
pub(crate) const SCRIPT_UNBALANCED: u32 = 54;
/// A process enters too many operations at once.
pub(crate) const SCRIPT_TOO_DEEP: u32 = 55;
/// There are too many processes or steps.
pub(crate) const SCRIPT_TOO_MANY: u32 = 56;
/// The start is withheld for one who waits.
pub(crate) const WITHHELD: u32 = 57;
/// One who waits may go on.
pub(crate) const NEXT: u32 = 58;
/// None who waits may.
pub(crate) const NOBODY: u32 = 59;
