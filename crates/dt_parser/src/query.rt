// The exported queries about a source file: what is under the caret, and the parts in a range. Both parse first.
ghost use Rattle.std.specs.Prelude.{◌≡◌, ◌*◌, ◌≤◌, length, take};
ghost use Rattle.definitions.specs.Layout.{TREE_ROW};
ghost use Rattle.definitions.specs.Token.{tokens_of};
ghost use Rattle.definitions.specs.Refusal.{accepted};
ghost use Rattle.definitions.specs.RowCauses.{check_input};
ghost use Rattle.definitions.specs.Caret.{caret, range, listed, source_tree, with_list, query_call};
ghost use Rattle.rows.specs.OnePass.{tree_rows_of, Sound};
ghost use Rattle.caret.specs.Asked.{query_of};
ghost use Rattle.call.specs.Result.{at_entry, at_exit, held, SameSlices, list_result_of};
ghost use Rattle.grammar.specs.declared.entry.Entrypoint.TheVariants.{SourceFile};
ghost use Rattle.caret.specs.Walk.{laid};
ghost use Rattle.dt_parser.specs.Asked.{parse_of, rows_listed};

use crate::parse;
use call::Answer;
use call::buffer::clear;
use call::check_input::check;
use call::lent::{Buffers, Input};
use call::list::ListAnswer;
use caret::{Query, list_rows};
use grammar::entry::Entrypoint;
use layout::row::TREE_ROW;
use listing::{finish, without_list};

// Writes the rows that a query lists, of an accepted parse, as far as they fit, and says how many there are.
fn write_list(
    query: Query,
    a: Answer,
    size: usize,
    buffers: &Buffers<'_>,
    list: &mut [u32],
) -> usize
    requires { (a.tree_count * TREE_ROW ≤ length buffers.now.trees.now)
        × Sound size (tree_rows_of (take (a.tree_count * TREE_ROW) buffers.now.trees.now)) }
    ensures value { result ≡ length (rows_listed query a size buffers.now) }
    ensures list_after { list.new ≡ laid (rows_listed query a size buffers.now) list.old }
{
    list_rows(query, size, &buffers.trees[..a.tree_count * TREE_ROW], list)
}

// The query of an input that passed the checks.
fn parse_and_list(
    query: Query,
    input: Input<'_>,
    buffers: &mut Buffers<'_>,
    list: &mut [u32],
) -> ListAnswer
    requires { check_input input.bytes.now input.tokens.now ≡ accepted }
    ensures same { SameSlices buffers.old buffers.new }
    ensures ended { list_result_of result list.new (held buffers.new)
        ≡ with_list
        (listed (query_of query) (length input.entry.bytes.now)
        (source_tree (tokens_of input.entry.tokens.now)))
        list.old (held buffers.old) (parse_of SourceFile input.entry (held buffers.old)) }
{
    let a = parse(Entrypoint::SourceFile, input, buffers);
    if a.is_accepted() {
        let count = write_list(query, a, input.bytes.len(), buffers, list);
        return finish(a, count, buffers, list);
    }
    clear(list, 0);
    without_list(a)
}

// The whole query.
#[tactic(auto, unfolding(definitions::specs::Caret::query_call, definitions::specs::Caret::checked_query, definitions::specs::Refusal::number_of, definitions::specs::Refusal::place_of))]
fn answer_query(
    query: Query,
    input: Input<'_>,
    buffers: &mut Buffers<'_>,
    list: &mut [u32],
) -> ListAnswer
    ensures same { SameSlices buffers.old buffers.new }
    ensures ended { list_result_of result list.new (held buffers.new)
        ≡ query_call (query_of query) input.entry.setting input.entry.bytes.now
        input.entry.tokens.now (held buffers.old) list.old }
{
    match check(input.bytes, input.tokens) {
        Ok(()) => parse_and_list(query, input, buffers, list),
        Err(refusal) => without_list(refusal),
    }
}

// What is under the caret, for any bytes, numbers and lent slices: the answer and each element of every buffer are what
// `query_call` of `definitions` gives. Setting, byte offset, input bytes, token rows; then the buffers: those of
// `dt_parse`, and the list of row numbers.
pub fn dt_caret(
    setting: u32,
    offset: u64,
    bytes: &[u8],
    tokens: &[u32],
    events: &mut [u32],
    trees: &mut [u32],
    errors: &mut [u32],
    reports: &mut [u32],
    pool: &mut [u32],
    list: &mut [u32],
) -> ListAnswer
    ensures { list_result_of result list.new (at_exit events trees errors reports pool)
        ≡ query_call (caret offset) setting bytes.now tokens.now
        (at_entry events trees errors reports pool) list.old }
{
    answer_query(
        Query::Caret(offset),
        Input {
            setting,
            bytes,
            tokens,
        },
        &mut Buffers {
            events,
            trees,
            errors,
            reports,
            pool,
        },
        list,
    )
}

// The same for the top-level parts that share a byte with a range, from its first byte to its end.
pub fn dt_parts_in_range(
    setting: u32,
    start: u64,
    end: u64,
    bytes: &[u8],
    tokens: &[u32],
    events: &mut [u32],
    trees: &mut [u32],
    errors: &mut [u32],
    reports: &mut [u32],
    pool: &mut [u32],
    list: &mut [u32],
) -> ListAnswer
    ensures { list_result_of result list.new (at_exit events trees errors reports pool)
        ≡ query_call (range start end) setting bytes.now tokens.now
        (at_entry events trees errors reports pool) list.old }
{
    answer_query(
        Query::Range(start, end),
        Input {
            setting,
            bytes,
            tokens,
        },
        &mut Buffers {
            events,
            trees,
            errors,
            reports,
            pool,
        },
        list,
    )
}
