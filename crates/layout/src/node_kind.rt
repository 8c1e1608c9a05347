// cst.rs: `NodeKind`, in its order.
ghost use Rattle.std.specs.Prelude.{◌≡◌};
ghost use Rattle.layout.specs.Numbers.{node_number};

#[derive(Clone, Copy, PartialEq, Eq)]
pub enum NodeKind {
    SourceFile,
    EntryName,
    EntryPropValues,
    EntryCells,
    EntryPreprocessorConditional,
    PreprocessorDefinedOperation,
    InfixExpr,
    PrefixExpr,
    ParenExpr,
    LiteralExpr,
    ParseError,
    DtsDirective,
    DtsDirectiveArguments,
    PreprocessorConditional,
    PreprocessorBranch,
    DtNode,
    DtProperty,
    DtCellList,
    DtExpr,
    DtLabel,
    PropValueList,
    DtPhandle,
    UnitAddress,
    MacroInvocation,
    MacroArgument,
}

impl NodeKind {
    pub fn number(self) -> u32
        ensures { result ≡ node_number self }
    {
        self as u32
    }
}

pub const SOURCE_FILE: u32 = 0;

pub const ENTRY_NAME: u32 = 1;

pub const ENTRY_PROP_VALUES: u32 = 2;

pub const ENTRY_CELLS: u32 = 3;

pub const ENTRY_PREPROCESSOR_CONDITIONAL: u32 = 4;

pub const PREPROCESSOR_DEFINED_OPERATION: u32 = 5;

pub const INFIX_EXPR: u32 = 6;

pub const PREFIX_EXPR: u32 = 7;

pub const PAREN_EXPR: u32 = 8;

pub const LITERAL_EXPR: u32 = 9;

pub const PARSE_ERROR: u32 = 10;

pub const DTS_DIRECTIVE: u32 = 11;

pub const DTS_DIRECTIVE_ARGUMENTS: u32 = 12;

pub const PREPROCESSOR_CONDITIONAL: u32 = 13;

pub const PREPROCESSOR_BRANCH: u32 = 14;

pub const DT_NODE: u32 = 15;

pub const DT_PROPERTY: u32 = 16;

pub const DT_CELL_LIST: u32 = 17;

pub const DT_EXPR: u32 = 18;

pub const DT_LABEL: u32 = 19;

pub const PROP_VALUE_LIST: u32 = 20;

pub const DT_PHANDLE: u32 = 21;

pub const UNIT_ADDRESS: u32 = 22;

pub const MACRO_INVOCATION: u32 = 23;

pub const MACRO_ARGUMENT: u32 = 24;
