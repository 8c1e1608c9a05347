// lexer.rs: `TokenKind`, in its order.
ghost use Rattle.std.specs.Prelude.{◌≡◌};
ghost use Rattle.layout.specs.Numbers.{kind_number};

#[derive(Clone, Copy, PartialEq, Eq)]
pub enum TokenKind {
    Whitespace,
    BlockComment,
    Comma,
    LineComment,
    IfDirective,
    IfdefDirective,
    IfndefDirective,
    ElifDirective,
    ElifdefDirective,
    ElifndefDirective,
    ElseDirective,
    EndifDirective,
    PragmaDirective,
    DefineDirective,
    UndefDirective,
    IncludeDirective,
    ErrorDirective,
    BitsDirective,
    OmitIfNoRefDirective,
    DtIncludeDirective,
    MemreserveDirective,
    DeleteNodeDirective,
    DeletePropertyDirective,
    V1Directive,
    PluginDirective,
    Unrecognized,
    Name,
    Ident,
    Equals,
    Semicolon,
    Ampersand,
    Colon,
    AtSign,
    String,
    Char,
    Number,
    DtBytestring,
    LCurly,
    RCurly,
    LAngle,
    RAngle,
    LParen,
    RParen,
    Plus,
    Minus,
    Asterisk,
    Slash,
    Modulo,
    BitwiseOr,
    BitwiseXor,
    BitwiseNot,
    BitwiseShl,
    BitwiseShr,
    LogicalAnd,
    LogicalOr,
    LogicalNot,
    RelationalLtEq,
    RelationalGtEq,
    RelationalEq,
    RelationalNeq,
    QuestionMark,
}

impl TokenKind {
    pub fn number(self) -> u8
        ensures { result ≡ kind_number self }
    {
        self as u8
    }
}

pub const WHITESPACE: u8 = 0;

pub const BLOCK_COMMENT: u8 = 1;

pub const COMMA: u8 = 2;

pub const LINE_COMMENT: u8 = 3;

pub const IF_DIRECTIVE: u8 = 4;

pub const IFDEF_DIRECTIVE: u8 = 5;

pub const IFNDEF_DIRECTIVE: u8 = 6;

pub const ELIF_DIRECTIVE: u8 = 7;

pub const ELIFDEF_DIRECTIVE: u8 = 8;

pub const ELIFNDEF_DIRECTIVE: u8 = 9;

pub const ELSE_DIRECTIVE: u8 = 10;

pub const ENDIF_DIRECTIVE: u8 = 11;

pub const PRAGMA_DIRECTIVE: u8 = 12;

pub const DEFINE_DIRECTIVE: u8 = 13;

pub const UNDEF_DIRECTIVE: u8 = 14;

pub const INCLUDE_DIRECTIVE: u8 = 15;

pub const ERROR_DIRECTIVE: u8 = 16;

pub const BITS_DIRECTIVE: u8 = 17;

pub const OMIT_IF_NO_REF_DIRECTIVE: u8 = 18;

pub const DT_INCLUDE_DIRECTIVE: u8 = 19;

pub const MEMRESERVE_DIRECTIVE: u8 = 20;

pub const DELETE_NODE_DIRECTIVE: u8 = 21;

pub const DELETE_PROPERTY_DIRECTIVE: u8 = 22;

pub const V1_DIRECTIVE: u8 = 23;

pub const PLUGIN_DIRECTIVE: u8 = 24;

pub const UNRECOGNIZED: u8 = 25;

pub const NAME: u8 = 26;

pub const IDENT: u8 = 27;

pub const EQUALS: u8 = 28;

pub const SEMICOLON: u8 = 29;

pub const AMPERSAND: u8 = 30;

pub const COLON: u8 = 31;

pub const AT_SIGN: u8 = 32;

pub const STRING: u8 = 33;

pub const CHAR: u8 = 34;

pub const NUMBER: u8 = 35;

pub const DT_BYTESTRING: u8 = 36;

pub const LCURLY: u8 = 37;

pub const RCURLY: u8 = 38;

pub const LANGLE: u8 = 39;

pub const RANGLE: u8 = 40;

pub const LPAREN: u8 = 41;

pub const RPAREN: u8 = 42;

pub const PLUS: u8 = 43;

pub const MINUS: u8 = 44;

pub const ASTERISK: u8 = 45;

pub const SLASH: u8 = 46;

pub const MODULO: u8 = 47;

pub const BITWISE_OR: u8 = 48;

pub const BITWISE_XOR: u8 = 49;

pub const BITWISE_NOT: u8 = 50;

pub const BITWISE_SHL: u8 = 51;

pub const BITWISE_SHR: u8 = 52;

pub const LOGICAL_AND: u8 = 53;

pub const LOGICAL_OR: u8 = 54;

pub const LOGICAL_NOT: u8 = 55;

pub const RELATIONAL_LT_EQ: u8 = 56;

pub const RELATIONAL_GT_EQ: u8 = 57;

pub const RELATIONAL_EQ: u8 = 58;

pub const RELATIONAL_NEQ: u8 = 59;

pub const QUESTION_MARK: u8 = 60;

// `LexError` runs from 64 to 74 in a token row. A test sees such a token as Unrecognized.
pub const FIRST_LEX_ERROR: u32 = 64;

pub const LAST_LEX_ERROR: u32 = 74;
