//! What a call answers.

/// It was done.
pub const OK: i32 = 0;
/// Memory was refused.
pub const NO_MEMORY: i32 = 1;
/// The tree cannot count one more rectangle.
pub const TOO_MANY: i32 = 2;
/// Two lists that go together have not the lengths that they must have.
pub const BAD_LENGTH: i32 = 3;
/// The list has not room for all that would be taken out.
pub const NO_ROOM: i32 = 4;
