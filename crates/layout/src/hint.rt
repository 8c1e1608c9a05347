// errors.rs: the hints of a report.
ghost use Rattle.std.specs.Prelude.{◌≡◌};
ghost use Rattle.layout.specs.Numbers.{hint_number};

#[derive(Clone, Copy, PartialEq, Eq)]
pub enum Hint {
    UnnamedProperty = 1,
    UnnamedNode,
    MissingParentheses,
    InCells,
    PropertyNotAllowed,
    MissingLeftSide,
}

impl Hint {
    pub fn number(self) -> u32
        ensures { result ≡ hint_number self }
    {
        self as u32
    }
}

pub const NO_HINT: u32 = 0;

pub const UNNAMED_PROPERTY: u32 = 1;

pub const UNNAMED_NODE: u32 = 2;

pub const MISSING_PARENTHESES: u32 = 3;

pub const IN_CELLS: u32 = 4;

pub const PROPERTY_NOT_ALLOWED: u32 = 5;

pub const MISSING_LEFT_SIDE: u32 = 6;
