// errors.rs: the messages of a report.
ghost use Rattle.std.specs.Prelude.{◌≡◌};
ghost use Rattle.layout.specs.Numbers.{message_number};

#[derive(Clone, Copy, PartialEq, Eq)]
pub enum Message {
    Expected = 1,
    UnmatchedRcurly,
    UnmatchedSemicolon,
    UnmatchedEndif,
    StrayContinuation,
    AtSignInLabel,
    UnclosedNode,
    // In the strict setting alone.
    NotALabel,
}

impl Message {
    pub fn number(self) -> u32
        ensures { result ≡ message_number self }
    {
        self as u32
    }
}

pub const EXPECTED: u32 = 1;

pub const UNMATCHED_RCURLY: u32 = 2;

pub const UNMATCHED_SEMICOLON: u32 = 3;

pub const UNMATCHED_ENDIF: u32 = 4;

pub const STRAY_CONTINUATION: u32 = 5;

pub const AT_SIGN_IN_LABEL: u32 = 6;

pub const UNCLOSED_NODE: u32 = 7;

// In the strict setting alone.
pub const NOT_A_LABEL: u32 = 8;
