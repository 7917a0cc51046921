//! Replies.

use path_model::Reply;

/// Each reply that brings no number.
pub const WITHOUT_NUMBER: [Reply; 10] = [
    Reply::UnknownOperation,
    Reply::NotOffered,
    Reply::Empty,
    Reply::Full,
    Reply::Overflow,
    Reply::DeviceFailed,
    Reply::Finished,
    Reply::Stale,
    Reply::NotYours,
    Reply::NoRoom,
];
