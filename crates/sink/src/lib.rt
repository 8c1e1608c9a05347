// sink.rs: the `Sink` turns events and tokens into tree rows and lexical errors. There is no heap and no stack beside
// the rows: while a node is open, its row holds what the sink returns to when the node is finished.
#![tactic(auto)]

ghost use Rattle.std.specs.Prelude.{◌≡◌, ◌-◌, ◌/◌, ◌≤◌, length};
ghost use Rattle.definitions.specs.Layout.{TOKEN_ROW};
ghost use Rattle.sink.specs.Promise.{Promise};
ghost use Rattle.sink.specs.Model.{on, leaf_on, token_on, trivia_on, combined_on, start_on, finish_on, event_on, events_on, root_on, finished, finish_all};

use layout::row::{
    EVENT_ARGUMENT, EVENT_ROW, EVENT_TAG, LEAF, NODE, TOKEN_ROW, TREE_KIND, TREE_PARENT, TREE_ROW,
};
use layout::rows::{field, row_at, row_count};
use layout::{event_tag, row_kind, word};
use sink_rows::event_row::links;
use sink_rows::tree_row::{CHILDREN_BEFORE, FIRST_BYTE, open_rows, rows_fit, write_row};
use sink_tokens::{lexical, token_row};

#[derive(Clone, Copy)]
pub struct Sink {
    // The raw token that is read next, and its first byte.
    pub cursor: usize,
    pub byte: u32,
    // The tree rows so far, including those that did not fit.
    pub rows: u32,
    // The row of the open node, and its children so far.
    pub node: u32,
    pub children: u32,
}

// How many tree rows and lexical errors were written.
#[derive(Clone, Copy)]
pub struct Written {
    pub rows: u32,
    pub errors: u32,
}

// They do not fit: document 01's refusal 8.
#[derive(Clone, Copy, Debug)]
pub struct NoRoom;

impl Sink {
    // The root's row, open. It is its own parent.
    #[tactic(auto, unfolding(crate::specs::Model::root_on))]
    fn root_node(trees: &mut [u32], kind: u32) -> Sink
        ensures { on result trees.new
            ≡ root_on kind trees.old }
    {
        write_row(trees, 0, [NODE, kind, 0, 0, 0]);
        Sink {
            cursor: 0,
            byte: 0,
            rows: 1,
            node: 0,
            children: 0,
        }
    }

    // A leaf of the open node.
    #[tactic(auto, unfolding(crate::specs::Model::leaf_on))]
    fn leaf(&mut self, trees: &mut [u32], kind: u32, width: u32, count: u32)
        ensures trees_after { on self.new trees.new
            ≡ leaf_on kind width count (on self.old trees.old) }
        ensures cursor_value { self.new.cursor ≡ self.old.cursor }
    {
        write_row(trees, self.rows, [LEAF, kind, width, count, self.node]);
        self.byte = word::add(self.byte, width);
        self.rows = word::add(self.rows, 1);
        self.children = word::add(self.children, 1);
    }

    // The raw token at the cursor as a leaf; nothing at the end.
    #[tactic(auto, unfolding(crate::specs::Model::token_on))]
    fn token(&mut self, tokens: &[u32], trees: &mut [u32])
        ensures trees_after { on self.new trees.new
            ≡ token_on tokens.now (on self.old trees.old) }
        ensures cursor_in_bounds { length tokens.now / TOKEN_ROW - self.new.cursor
            ≤ length tokens.now / TOKEN_ROW - self.old.cursor - 1 }
    {
        if let Some([kind, width]) = row_at::<TOKEN_ROW>(tokens, self.cursor) {
            self.cursor += 1;
            self.leaf(trees, token_row::leaf_kind(*kind), *width, 1);
        }
    }

    #[tactic(auto, using(crate::proofs::Loops::trivia))]
    fn eat_trivia(&mut self, tokens: &[u32], trees: &mut [u32])
        ensures { on self.new trees.new
            ≡ trivia_on tokens.now (on self.old trees.old) }
    {
        while token_row::trivia_at(tokens, self.cursor) {
            self.token(tokens, trees);
        }
    }

    // `AddCombinedToken`: n raw tokens as one leaf, or those that are left.
    #[tactic(auto, unfolding(crate::specs::Model::combined_on))]
    fn combined_token(&mut self, tokens: &[u32], trees: &mut [u32], n: usize)
        ensures { on self.new trees.new
            ≡ combined_on tokens.now n (on self.old trees.old) }
    {
        let taken = row_count::<TOKEN_ROW>(tokens)
            .saturating_sub(self.cursor)
            .min(n);
        let width = token_row::width_of(tokens, self.cursor, taken);
        self.cursor += taken;
        self.leaf(trees, row_kind::NAME, width, word::low32(taken));
    }

    // `StartNode`: opens the nodes of the chain that starts at event i, outermost first. Its links are counted first,
    // and the rows are then written from the innermost node's up.
    #[tactic(auto, unfolding(crate::specs::Model::start_on))]
    fn start_node(&mut self, events: &[u32], trees: &mut [u32], i: usize)
        ensures { on self.new trees.new
            ≡ start_on events.now i (on self.old trees.old) }
    {
        let n = word::low32(links(events, i));
        open_rows(
            trees,
            events,
            i,
            n,
            self.rows,
            self.byte,
            self.node,
            self.children,
        );
        self.node = word::add(self.rows, n);
        self.rows = word::add(self.node, 1);
        self.children = 0;
    }

    // `FinishNode`: the open node's row gets its width and count, and its parent is the open node again.
    #[tactic(auto, unfolding(crate::specs::Model::finish_on))]
    fn finish_node(&mut self, trees: &mut [u32])
        ensures { on self.new trees.new
            ≡ finish_on (on self.old trees.old) }
    {
        let node = self.node as usize;
        let parent = field::<TREE_ROW>(trees, node, TREE_PARENT);
        let kind = field::<TREE_ROW>(trees, node, TREE_KIND);
        let first = field::<TREE_ROW>(trees, node, FIRST_BYTE);
        let children = field::<TREE_ROW>(trees, node, CHILDREN_BEFORE);
        let width = word::minus(self.byte, first);
        write_row(trees, self.node, [NODE, kind, width, self.children, parent]);
        self.node = parent;
        self.children = word::add(children, 1);
    }

    // One event. A start that a link leads to was opened with its chain, so it is passed over, as placeholders and
    // errors are.
    #[tactic(auto, unfolding(crate::specs::Model::event_on))]
    fn one_event(&mut self, tokens: &[u32], events: &[u32], trees: &mut [u32], i: usize)
        ensures { on self.new trees.new
            ≡ event_on tokens.now events.now i (on self.old trees.old) }
    {
        match field::<EVENT_ROW>(events, i, EVENT_TAG) {
            event_tag::START_NODE => {
                self.eat_trivia(tokens, trees);
                self.start_node(events, trees, i);
            }
            event_tag::ADD_TOKEN => {
                self.eat_trivia(tokens, trees);
                self.token(tokens, trees);
            }
            event_tag::ADD_COMBINED_TOKEN => {
                let n = field::<EVENT_ROW>(events, i, EVENT_ARGUMENT) as usize;
                self.eat_trivia(tokens, trees);
                self.combined_token(tokens, trees, n);
            }
            event_tag::FINISH_NODE => self.finish_node(trees),
            _ => {}
        }
    }
}

// All events, and the trivia at the end.
#[tactic(auto, using(crate::proofs::Loops::events_done), unfolding(crate::specs::Model::events_on))]
fn all_events(kind: u32, tokens: &[u32], events: &[u32], trees: &mut [u32]) -> Sink
    ensures { on result trees.new
        ≡ events_on kind tokens.now events.now trees.old }
{
    let mut sink = Sink::root_node(trees, kind);
    for i in 0..row_count::<EVENT_ROW>(events) {
        sink.one_event(tokens, events, trees, i);
    }
    sink.eat_trivia(tokens, trees);
    sink.finish_node(trees);
    sink
}

// `Sink::finish`. The first clause says what it answers and what the buffers then hold, whatever the events are; the
// second, that for events that encode a skeleton it is what the definitions say.
#[tactic(auto, unfolding(crate::specs::Model::finish_all, crate::specs::Model::finished_in))]
pub fn finish(
    root_kind: u32,
    tokens: &[u32],
    events: &[u32],
    trees: &mut [u32],
    errors: &mut [u32],
) -> Result<Written, NoRoom>
    ensures errors_after { finished result trees.new errors.new
        ≡ finish_all root_kind tokens.now events.now trees.old errors.old }
    ensures promise { Promise root_kind tokens.now events.now trees.old errors.old
        result trees.new errors.new }
{
    let trees_len = trees.len();
    let errors_len = errors.len();
    let sink = all_events(root_kind, tokens, events, trees);
    let found = lexical::lexical_errors(tokens, errors);
    if rows_fit(trees_len, sink.rows) && lexical::errors_fit(errors_len, found) {
        Ok(Written {
            rows: sink.rows,
            errors: found,
        })
    } else {
        Err(NoRoom)
    }
}
