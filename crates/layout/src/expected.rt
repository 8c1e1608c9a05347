// errors.rs: the cases of `Expected` beside `Kind`, in their order. A kind is its own number.
ghost use Rattle.std.specs.Prelude.{◌≡◌};
ghost use Rattle.layout.specs.Numbers.{expected_number};

use crate::token_kind::TokenKind;

#[derive(Clone, Copy, PartialEq, Eq)]
pub enum Expected {
    Kind(TokenKind),
    PreprocessorDirective,
    PreprocessorDefinedOperator,
    Value,
    Cell,
    LabelName,
    InfixOperator,
    PrefixOperator,
    End,
}

impl Expected {
    // A kind is its own number.
    pub fn number(self) -> u8
        ensures { result ≡ expected_number self }
    {
        match self {
            Expected::Kind(kind) => kind.number(),
            Expected::PreprocessorDirective => 101,
            Expected::PreprocessorDefinedOperator => 102,
            Expected::Value => 103,
            Expected::Cell => 104,
            Expected::LabelName => 105,
            Expected::InfixOperator => 106,
            Expected::PrefixOperator => 107,
            Expected::End => 108,
        }
    }
}

pub const PREPROCESSOR_DIRECTIVE: u8 = 101;

pub const PREPROCESSOR_DEFINED_OPERATOR: u8 = 102;

pub const VALUE: u8 = 103;

pub const CELL: u8 = 104;

pub const LABEL_NAME: u8 = 105;

pub const INFIX_OPERATOR: u8 = 106;

pub const PREFIX_OPERATOR: u8 = 107;

pub const END: u8 = 108;

// Kinds are 0 to 60.
pub const KIND_CODES: u8 = 61;

// The others, from the first on, and past the last.
pub const FIRST_OTHER: u8 = PREPROCESSOR_DIRECTIVE;

pub const PAST_OTHERS: u8 = 109;
