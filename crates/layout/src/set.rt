// Sets of token kinds. Those that the definitions name have the same name there.
use crate::token_kind;

pub const NAME_SET: [u8; 4] = [
    token_kind::IDENT,
    token_kind::NUMBER,
    token_kind::COMMA,
    token_kind::MINUS,
];

pub const LABEL_NAME_SET: [u8; 2] = [token_kind::IDENT, token_kind::NUMBER];

// What begins a conditional.
pub const BEGIN_COND_SET: [u8; 3] = [
    token_kind::IFNDEF_DIRECTIVE,
    token_kind::IFDEF_DIRECTIVE,
    token_kind::IF_DIRECTIVE,
];

// What continues a conditional. A path ends there too.
pub const CONTINUE_COND_SET: [u8; 4] = [
    token_kind::ELIFNDEF_DIRECTIVE,
    token_kind::ELIFDEF_DIRECTIVE,
    token_kind::ELIF_DIRECTIVE,
    token_kind::ELSE_DIRECTIVE,
];

// `TokenKind::is_preprocessor_directive`
pub const PREPROCESSOR_DIRECTIVES: [u8; 13] = [
    token_kind::IF_DIRECTIVE,
    token_kind::IFDEF_DIRECTIVE,
    token_kind::IFNDEF_DIRECTIVE,
    token_kind::ELIF_DIRECTIVE,
    token_kind::ELIFDEF_DIRECTIVE,
    token_kind::ELIFNDEF_DIRECTIVE,
    token_kind::ELSE_DIRECTIVE,
    token_kind::ENDIF_DIRECTIVE,
    token_kind::PRAGMA_DIRECTIVE,
    token_kind::DEFINE_DIRECTIVE,
    token_kind::UNDEF_DIRECTIVE,
    token_kind::INCLUDE_DIRECTIVE,
    token_kind::ERROR_DIRECTIVE,
];

pub const PREFIX_OPERATORS_SET: [u8; 4] = [
    token_kind::PLUS,
    token_kind::MINUS,
    token_kind::BITWISE_NOT,
    token_kind::LOGICAL_NOT,
];

// The infix operators, the prefix operators and the colon.
pub const OPERATORS_SET: [u8; 24] = [
    token_kind::PLUS,
    token_kind::MINUS,
    token_kind::ASTERISK,
    token_kind::SLASH,
    token_kind::MODULO,
    token_kind::AMPERSAND,
    token_kind::BITWISE_OR,
    token_kind::BITWISE_XOR,
    token_kind::BITWISE_SHL,
    token_kind::BITWISE_SHR,
    token_kind::LOGICAL_AND,
    token_kind::LOGICAL_OR,
    token_kind::LANGLE,
    token_kind::RANGLE,
    token_kind::RELATIONAL_LT_EQ,
    token_kind::RELATIONAL_GT_EQ,
    token_kind::RELATIONAL_EQ,
    token_kind::RELATIONAL_NEQ,
    token_kind::QUESTION_MARK,
    token_kind::PLUS,
    token_kind::MINUS,
    token_kind::BITWISE_NOT,
    token_kind::LOGICAL_NOT,
    token_kind::COLON,
];

// Kinds that are left where they stand after a report in an item.
pub const ITEM_RECOVERY_SET: [u8; 24] = [
    token_kind::SLASH,
    token_kind::IDENT,
    token_kind::NUMBER,
    token_kind::COMMA,
    token_kind::MINUS,
    token_kind::AMPERSAND,
    token_kind::EQUALS,
    token_kind::LCURLY,
    token_kind::SEMICOLON,
    token_kind::V1_DIRECTIVE,
    token_kind::PLUGIN_DIRECTIVE,
    token_kind::DT_INCLUDE_DIRECTIVE,
    token_kind::MEMRESERVE_DIRECTIVE,
    token_kind::DELETE_NODE_DIRECTIVE,
    token_kind::DELETE_PROPERTY_DIRECTIVE,
    token_kind::RCURLY,
    token_kind::ENDIF_DIRECTIVE,
    token_kind::IFNDEF_DIRECTIVE,
    token_kind::IFDEF_DIRECTIVE,
    token_kind::IF_DIRECTIVE,
    token_kind::ELIFNDEF_DIRECTIVE,
    token_kind::ELIFDEF_DIRECTIVE,
    token_kind::ELIF_DIRECTIVE,
    token_kind::ELSE_DIRECTIVE,
];

// Kinds that begin a value after a missing comma.
pub const PROPERTY_VALUE_RECOVERY_SET: [u8; 4] = [
    token_kind::STRING,
    token_kind::LANGLE,
    token_kind::DT_BYTESTRING,
    token_kind::AMPERSAND,
];

// Kinds at which a list of cells is cut off.
pub const CELLS_RECOVERY_SET: [u8; 3] = [
    token_kind::SEMICOLON,
    token_kind::LCURLY,
    token_kind::RCURLY,
];
