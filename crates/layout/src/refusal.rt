// Document 01's causes.
ghost use Rattle.std.specs.Prelude.{◌≡◌};
ghost use Rattle.layout.specs.Numbers.{refusal_number};

#[derive(Clone, Copy, PartialEq, Eq)]
pub enum Refusal {
    UnknownEntry = 1,
    TooLong,
    OddCount,
    BadText,
    TooDeep,
    NoEventRoom,
    NoReportRoom,
    NoTreeRoom,
    HighByte,
    Directive,
    BadKind,
    ZeroLength,
    BadEnd,
}

impl Refusal {
    pub fn number(self) -> u32
        ensures { result ≡ refusal_number self }
    {
        self as u32
    }
}

pub const UNKNOWN_ENTRY: u32 = 1;

pub const TOO_LONG: u32 = 2;

pub const ODD_COUNT: u32 = 3;

pub const BAD_TEXT: u32 = 4;

pub const TOO_DEEP: u32 = 5;

pub const NO_EVENT_ROOM: u32 = 6;

pub const NO_REPORT_ROOM: u32 = 7;

pub const NO_TREE_ROOM: u32 = 8;

// Document 02's, of a text that is to be lexed.
pub const HIGH_BYTE: u32 = 9;

pub const DIRECTIVE: u32 = 10;

// Document 02's, of a token row; the last also of all rows together.
pub const BAD_KIND: u32 = 11;

pub const ZERO_LENGTH: u32 = 12;

pub const BAD_END: u32 = 13;
