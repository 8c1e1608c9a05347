// event.rs, and what parser/mod.rs pushes. The first number of an event row is its tag. The second is a node's kind or a
// name's count of raw tokens; the third, of a start that `precede` linked forward, how many events further on the new
// marker is.
ghost use Rattle.std.specs.Prelude.{◌≡◌, ◌-◌, eqb};
ghost use Rattle.basics.specs.Word.{low};
ghost use Rattle.layout.specs.Numbers.{refusal_number, tag_number};
ghost use Rattle.definitions.specs.Prog.{yes, act, bump as bump_act, bump_name as bump_name_act};
ghost use Rattle.machine.specs.Machine.{refuse as refuse_machine, push_row as push_row_machine, push, name_stretch};
ghost use Rattle.parser.specs.View.{rest, tokens_left, Becomes, Walks, TakesOne};

use crate::{Parser, Refused};
use layout::TokenIndex;
use layout::event_tag::EventTag;
use layout::refusal::Refusal;
use layout::row::EVENT_ROW;
use layout::rows::put_row;
use layout::word::low32;
use token_rows::fit::fits;
use token_rows::token::is_one_of_at;

// The cursor after a refusal: past every row, so that every loop ends by itself.
pub const PAST_THE_END: TokenIndex = TokenIndex(18446744073709551615);

impl<'a> Parser<'a> {
    // Whether nothing was refused so far.
    pub fn is_open(&self) -> bool
        ensures { result ≡ eqb self.now.refused.number 0 }
    {
        self.refused.number == 0
    }

    // The first refusal stays. Any number.
    pub fn refuse_number(&mut self, number: u32)
        ensures becomes { Becomes (refuse_machine number) self.old self.new }
        ensures ended { tokens_left self.new ≡ 0 }
    {
        if self.is_open() {
            self.refused = Refused {
                number,
                place: self.mark,
            };
        }
        // No slice is longer.
        prove!(self.tokens.len() <= PAST_THE_END.0);
        self.cursor = PAST_THE_END;
    }

    pub fn refuse(&mut self, cause: Refusal)
        ensures becomes { Becomes (refuse_machine (refusal_number cause)) self.old self.new }
        ensures ended { tokens_left self.new ≡ 0 }
    {
        self.refuse_number(cause.number());
    }

    // An event with any number for its tag, if it fits.
    pub fn push_row_numbers(&mut self, tag: u32, argument: u32)
        ensures { Becomes (push_row_machine tag argument) self.old self.new }
    {
        let index = self.events_written;
        if fits(self.events.len(), index, EVENT_ROW) {
            put_row(self.events, index, [tag, argument, 0]);
            self.events_written = index + EVENT_ROW;
        } else {
            self.refuse(Refusal::NoEventRoom);
        }
    }

    // The same, but nothing is pushed once something was refused.
    pub fn push_event_numbers(&mut self, tag: u32, argument: u32)
        ensures { Becomes (push tag argument) self.old self.new }
    {
        if self.is_open() {
            self.push_row_numbers(tag, argument);
        }
    }

    // An event, if it fits.
    pub fn push_row(&mut self, tag: EventTag, argument: u32)
        ensures { Becomes (push_row_machine (tag_number tag) argument) self.old self.new }
    {
        self.push_row_numbers(tag.number(), argument);
    }

    // Nothing is pushed once something was refused.
    pub fn push_event(&mut self, tag: EventTag, argument: u32)
        ensures { Becomes (push (tag_number tag) argument) self.old self.new }
    {
        self.push_event_numbers(tag.number(), argument);
    }

    // Takes the next token that is not trivia; nothing at the end.
    pub fn bump(&mut self)
        ensures walks { Walks (act bump_act) self.old yes self.new }
        ensures taken { TakesOne self.old self.new }
    {
        self.peek();
        if self.has_token() {
            self.next_token();
            self.push_event(EventTag::AddToken, 0);
        }
    }

    // Takes the rows of the set that follow.
    fn take_while(&mut self, set: &[u8])
        ensures { Becomes (name_stretch set.now (rest self.old)) self.old self.new }
    {
        while is_one_of_at(self.tokens, self.cursor.0, set) {
            self.next_token();
        }
    }

    // `bump_name_generic`: takes the next token that is not trivia, and those of the set right after it, as one name.
    pub fn bump_name(&mut self, set: &[u8])
        ensures walks { Walks (act (bump_name_act set.now)) self.old yes self.new }
        ensures taken { TakesOne self.old self.new }
    {
        self.peek();
        let first = self.cursor.0;
        if self.has_token() {
            self.next_token();
            self.take_while(set);
            let raw_tokens = low32(self.cursor.0.saturating_sub(first));
            self.push_event(EventTag::AddCombinedToken, raw_tokens);
        }
    }
}
