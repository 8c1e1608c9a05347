// event.rs: the first number of an event row.
ghost use Rattle.std.specs.Prelude.{◌≡◌};
ghost use Rattle.layout.specs.Numbers.{tag_number};

#[derive(Clone, Copy, PartialEq, Eq)]
pub enum EventTag {
    Placeholder,
    StartNode,
    AddToken,
    AddCombinedToken,
    FinishNode,
    Error,
    LinkedStartNode,
}

impl EventTag {
    pub fn number(self) -> u32
        ensures { result ≡ tag_number self }
    {
        self as u32
    }
}

pub const PLACEHOLDER: u32 = 0;

pub const START_NODE: u32 = 1;

pub const ADD_TOKEN: u32 = 2;

pub const ADD_COMBINED_TOKEN: u32 = 3;

pub const FINISH_NODE: u32 = 4;

pub const ERROR: u32 = 5;

// As START_NODE, of a marker that was made by `precede`: the start that a link leads to.
pub const LINKED_START_NODE: u32 = 6;
