// Document 02, 5/14: the rows that a query lists, found in one pass over tree rows, without a stack.
#![tactic(auto)]

mod chain;
mod list;
mod parts;

ghost use Rattle.std.specs.Prelude.{◌≡◌, length};
ghost use Rattle.rows.specs.OnePass.{tree_rows_of, found, Sound};
ghost use Rattle.caret.specs.Walk.{laid};
ghost use Rattle.caret.specs.Asked.{query_of};

// A byte offset; or a range, from its first byte to its end.
#[derive(Clone, Copy)]
pub enum Query {
    Caret(u64),
    Range(u64, u64),
}

// Writes the rows that a query lists to the front of a list, as many as fit, and answers how many they are. The tree
// rows are those of a source file of so many bytes.
pub fn list_rows(query: Query, size: usize, trees: &[u32], list: &mut [u32]) -> usize
    requires { Sound size (tree_rows_of trees.now) }
    ensures value { result ≡ length (found (query_of query) size (tree_rows_of trees.now)) }
    ensures list_after { list.new
        ≡ laid (found (query_of query) size (tree_rows_of trees.now)) list.old }
{
    match query {
        Query::Caret(offset) => chain::rows_at(offset, size, trees, list),
        Query::Range(from, to) => parts::sharing(from, to, size, trees, list),
    }
}
