// The numbers of a call that stand in a case's line: how many token numbers and how many bytes there are, the entry, the
// setting, and how many numbers of each other buffer are lent (events, trees, errors, reports, pool).
ghost use Rattle.std.specs.Prelude.{◌≡◌};
ghost use Rattle.definitions.specs.Call as Call;
ghost use Rattle.call.specs.Result.{result_of};
ghost use Rattle.cases.specs.Scanner.{ReadsOn};
ghost use Rattle.replay.specs.Held.{held};

use call::Answer;
use cases::lend::{Buffers, Sizes, TOKENS};
use cases::scan::Scanner;
use dt_parser::dt_parse;

#[derive(Clone, Copy)]
pub struct Head {
    pub token_numbers: usize,
    pub bytes: usize,
    pub entry: u32,
    pub setting: u32,
    pub lent: Sizes,
}

impl Head {
    pub fn read(scanner: &mut Scanner<'_>) -> Self
        ensures { ReadsOn scanner.old scanner.new }
    {
        Head {
            token_numbers: scanner.number_at_most(TOKENS),
            bytes: scanner.number() as usize,
            entry: scanner.number(),
            setting: scanner.number(),
            lent: Sizes::read(scanner),
        }
    }

    // The call on these bytes and token numbers.
    pub fn call(&self, bytes: &[u8], tokens: &[u32], lent: &mut Buffers) -> Answer
        ensures { result_of result (held lent.new)
            ≡ Call.call self.now.entry self.now.setting bytes.now tokens.now (held lent.old) }
    {
        dt_parse(
            self.entry,
            self.setting,
            bytes,
            tokens,
            &mut lent.events,
            &mut lent.trees,
            &mut lent.errors,
            &mut lent.reports,
            &mut lent.pool,
        )
    }
}
