// What a case asks beside its source file.
ghost use Rattle.std.specs.Prelude.{◌≡◌};
ghost use Rattle.definitions.specs.Caret.{query_call};
ghost use Rattle.caret.specs.Asked.{query_of};
ghost use Rattle.call.specs.Result.{list_result_of};
ghost use Rattle.cases.specs.Scanner.{ReadsOn};
ghost use Rattle.replay.specs.Held.{held};

use call::list::ListAnswer;
use caret::Query;
use cases::lend::{Buffers, Sizes};
use cases::scan::Scanner;
use dt_parser::query::{dt_caret, dt_parts_in_range};
use replay::head::Head;

// The number of the query that is not the caret.
const RANGE: u32 = 2;

// No case is lent a longer list.
const LIST: usize = 400;

#[derive(Clone, Copy)]
pub struct Asked {
    pub query: Query,
    pub setting: u32,
    pub lent: Sizes,
    pub list: usize,
}

impl Asked {
    // The numbers after the first nine.
    pub fn read(head: Head, scanner: &mut Scanner<'_>) -> Self
        ensures { ReadsOn scanner.old scanner.new }
    {
        let list = scanner.number_at_most(LIST);
        let start = wide(scanner);
        let end = wide(scanner);
        let query = if head.entry == RANGE {
            Query::Range(start, end)
        } else {
            Query::Caret(start)
        };
        Asked {
            query,
            setting: head.setting,
            lent: head.lent,
            list,
        }
    }

    pub fn call(
        &self,
        bytes: &[u8],
        tokens: &[u32],
        lent: &mut Buffers,
        list: &mut [u32],
    ) -> ListAnswer
        ensures { list_result_of result list.new (held lent.new)
            ≡ query_call (query_of self.now.query) self.now.setting bytes.now tokens.now (held lent.old) list.old }
    {
        match self.query {
            Query::Caret(offset) => dt_caret(
                self.setting,
                offset,
                bytes,
                tokens,
                &mut lent.events,
                &mut lent.trees,
                &mut lent.errors,
                &mut lent.reports,
                &mut lent.pool,
                list,
            ),
            Query::Range(start, end) => dt_parts_in_range(
                self.setting,
                start,
                end,
                bytes,
                tokens,
                &mut lent.events,
                &mut lent.trees,
                &mut lent.errors,
                &mut lent.reports,
                &mut lent.pool,
                list,
            ),
        }
    }
}

// A number of 64 bits, high then low.
fn wide(scanner: &mut Scanner<'_>) -> u64
    ensures { ReadsOn scanner.old scanner.new }
{
    let high = scanner.number();
    let low = scanner.number();
    u64::from(high) << 32 | u64::from(low)
}
