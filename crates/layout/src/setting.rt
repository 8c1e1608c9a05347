// A call's setting: the old one, or the strict one for any other number.
pub const OLD: u32 = 0;
