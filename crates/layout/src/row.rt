// How many numbers a row has.

// Kind, length in bytes.
pub const TOKEN_ROW: usize = 2;

// Tag, argument, distance.
pub const EVENT_ROW: usize = 3;

// Class, kind, width, count, the parent's row.
pub const TREE_ROW: usize = 5;

// Number, start, end.
pub const ERROR_ROW: usize = 3;

// Message, start, end, mark, first pool place, pool count, hint, label start, label end.
pub const REPORT_ROW: usize = 9;

// Where a number stands in its row. The first stands where the row starts.
pub const TOKEN_LENGTH: usize = 1;

pub const EVENT_TAG: usize = 0;

// A start's kind, or how many raw tokens a combined token has.
pub const EVENT_ARGUMENT: usize = 1;

// For a start: the distance, in events, to the event of the marker that precedes it, or 0.
pub const EVENT_DISTANCE: usize = 2;

pub const TREE_KIND: usize = 1;

pub const TREE_WIDTH: usize = 2;

pub const TREE_COUNT: usize = 3;

pub const TREE_PARENT: usize = 4;

pub const ERROR_START: usize = 1;

pub const ERROR_END: usize = 2;

pub const REPORT_START: usize = 1;

pub const REPORT_END: usize = 2;

pub const REPORT_MARK: usize = 3;

// Its first place in the pool, and how many expectations it has there.
pub const REPORT_POOL_FIRST: usize = 4;

pub const REPORT_POOL_COUNT: usize = 5;

pub const REPORT_HINT: usize = 6;

pub const REPORT_LABEL_START: usize = 7;

pub const REPORT_LABEL_END: usize = 8;

// The first number of a tree row.
pub const NODE: u32 = 0;

pub const LEAF: u32 = 1;
