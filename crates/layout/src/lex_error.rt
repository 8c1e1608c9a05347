// Those of `LexError` that the lexer makes, as token rows have them.
pub const UNEXPECTED_END_STRING: u32 = 70;

pub const UNEXPECTED_END_BYTESTRING: u32 = 71;

pub const UNEXPECTED_END_CHAR: u32 = 72;

pub const UNEXPECTED_END_BLOCK_COMMENT: u32 = 73;

pub const DEFAULT: u32 = 74;
