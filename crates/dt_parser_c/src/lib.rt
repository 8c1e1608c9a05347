// What C callers link: the calls of the crate `dt_parser` under their C names. Each has the clauses of the library's
// function, and is a call of it. A slice is a pointer and a length in C, and an answer a struct (include/dt_parser.h).
#![tactic(auto)]

ghost use Rattle.std.specs.Prelude.{◌≡◌};
ghost use Rattle.definitions.specs.Call as Call;
ghost use Rattle.definitions.specs.Text.{text_call};
ghost use Rattle.definitions.specs.Caret.{caret, range, query_call};
ghost use Rattle.call.specs.Result.{at_entry, at_exit, result_of, text_result_of, list_result_of};

use call::Answer;
use call::list::ListAnswer;
use call::text::TextAnswer;
use dt_parser::{query, text};

// The whole call, for any numbers in the lent slices: the answer and each element of every buffer are what `call` of
// `definitions` gives. Entry, setting (0: the old one, any other: the strict one), input bytes, token rows; then the
// buffers: events (work only), tree rows, lexical errors, reports, expectations.
#[unsafe(no_mangle)]
pub extern "C" fn dt_parse(
    entry: u32,
    setting: u32,
    bytes: &[u8],
    tokens: &[u32],
    events: &mut [u32],
    trees: &mut [u32],
    errors: &mut [u32],
    reports: &mut [u32],
    pool: &mut [u32],
) -> Answer
    ensures { result_of result (at_exit events trees errors reports pool)
        ≡ Call.call entry setting bytes.now tokens.now (at_entry events trees errors reports pool) }
{
    dt_parser::dt_parse(
        entry, setting, bytes, tokens, events, trees, errors, reports, pool,
    )
}

// The whole call over a text, for any bytes and lent slices: the answer and each element of every buffer are what
// `text_call` of `definitions` gives. Entry, setting, input bytes; then the buffers: token rows, and those of
// `dt_parse`.
#[unsafe(no_mangle)]
pub extern "C" fn dt_parse_text(
    entry: u32,
    setting: u32,
    bytes: &[u8],
    tokens: &mut [u32],
    events: &mut [u32],
    trees: &mut [u32],
    errors: &mut [u32],
    reports: &mut [u32],
    pool: &mut [u32],
) -> TextAnswer
    ensures { text_result_of result tokens.new (at_exit events trees errors reports pool)
        ≡ text_call entry setting bytes.now tokens.old (at_entry events trees errors reports pool) }
{
    text::dt_parse_text(
        entry, setting, bytes, tokens, events, trees, errors, reports, pool,
    )
}

// What is under the caret, for any bytes, numbers and lent slices: the answer and each element of every buffer are what
// `query_call` of `definitions` gives. Setting, byte offset, input bytes, token rows; then the buffers: those of
// `dt_parse`, and the list of row numbers.
#[unsafe(no_mangle)]
pub extern "C" fn dt_caret(
    setting: u32,
    offset: u64,
    bytes: &[u8],
    tokens: &[u32],
    events: &mut [u32],
    trees: &mut [u32],
    errors: &mut [u32],
    reports: &mut [u32],
    pool: &mut [u32],
    list: &mut [u32],
) -> ListAnswer
    ensures { list_result_of result list.new (at_exit events trees errors reports pool)
        ≡ query_call (caret offset) setting bytes.now tokens.now
        (at_entry events trees errors reports pool) list.old }
{
    query::dt_caret(
        setting, offset, bytes, tokens, events, trees, errors, reports, pool, list,
    )
}

// The same for the top-level parts that share a byte with a range, from its first byte to its end.
#[unsafe(no_mangle)]
pub extern "C" fn dt_parts_in_range(
    setting: u32,
    start: u64,
    end: u64,
    bytes: &[u8],
    tokens: &[u32],
    events: &mut [u32],
    trees: &mut [u32],
    errors: &mut [u32],
    reports: &mut [u32],
    pool: &mut [u32],
    list: &mut [u32],
) -> ListAnswer
    ensures { list_result_of result list.new (at_exit events trees errors reports pool)
        ≡ query_call (range start end) setting bytes.now tokens.now
        (at_entry events trees errors reports pool) list.old }
{
    query::dt_parts_in_range(
        setting, start, end, bytes, tokens, events, trees, errors, reports, pool, list,
    )
}
