// The limits of a call.

// Cause 2: the most bytes of input, and the most token numbers.
pub const MOST_BYTES: usize = 1048576;

pub const MOST_TOKEN_NUMBERS: usize = 131072;

// Cause 5: the most calls of `item`, `propvalues`, `eat_cell` and `expr_binding_power` that may be open.
pub const MOST_OPEN_CALLS: usize = 64;

// No limit of a call: each expectation is pending once, so that there are never more.
pub const MOST_PENDING: usize = 69;

// The pending expectations, each a code: a kind, or one of `expected`.
pub type Codes = [u8; MOST_PENDING];
