// errors.rs: reports. Message, hint and bump go by value in the place of the builder.
ghost use Rattle.std.specs.Prelude.{◌≡◌, ◌+◌, ◌-◌, ◌≤◌, length};
ghost use Rattle.basics.specs.Word.{low};
ghost use Rattle.layout.specs.Numbers.{message_number};
ghost use Rattle.definitions.specs.Prog.{yes};
ghost use Rattle.definitions.specs.Check.{when◌then◌else◌, end?, bump!, tell, in_node as node_prog};
ghost use Rattle.definitions.specs.NodeKind as N;
ghost use Rattle.definitions.specs.Run.{only_separators, pool_of};
ghost use Rattle.machine.specs.Machine.{pool_count, error_range, emit as emit_machine, write_report};
ghost use Rattle.machine.specs.Walk.{unlabelled};
ghost use Rattle.std.proofs.lemmas.List.Edits.{sets};
ghost use Rattle.parser.specs.View.{view, toks, rest, tokens_left, pending_of, hint_of, span_of, error_prog, takes, Becomes, Walks, TakesOne};

use crate::Parser;
use crate::pending::Pending;
use layout::ByteOffset;
use layout::event_tag::EventTag;
use layout::hint::Hint;
use layout::message::Message;
use layout::node_kind::NodeKind;
use layout::refusal::Refusal;
use layout::row::REPORT_ROW;
use layout::rows::put_row;
use layout::token_kind::TokenKind;
use layout::word::low32;
use token_rows::fit::fits;

#[derive(Clone, Copy)]
pub struct TextRange {
    pub start: ByteOffset,
    pub end: ByteOffset,
}

// Whether a report takes the current token, as it stands or into a ParseError; at the end it takes nothing.
#[derive(Clone, Copy, PartialEq, Eq)]
pub enum Bump {
    No,
    Yes,
    YesWrapErr,
}

pub const NO_LABEL: TextRange = TextRange {
    start: ByteOffset(0),
    end: ByteOffset(0),
};

// Whether the codes are exactly [Semicolon], [Comma] or [Comma, Semicolon].
fn ends_statement(codes: &[u8]) -> bool
    ensures { result ≡ only_separators codes.now }
{
    const SEMICOLON: u8 = TokenKind::Semicolon as u8;
    const COMMA: u8 = TokenKind::Comma as u8;
    matches!(codes, [SEMICOLON] | [COMMA] | [COMMA, SEMICOLON])
}

// Codes written to the pool from an index on.
fn put_codes(pool: &mut [u32], first: usize, codes: &[u8])
    requires { first + length codes.now ≤ length pool.old }
    ensures { pool.new ≡ sets pool.old first codes.now }
{
    for (i, code) in codes.iter().enumerate() {
        pool[first + i] = *code as u32;
    }
}

// The expectations that a report with this message has.
fn codes_of(message: Message, pending: &Pending) -> &[u8]
    ensures value { result.now ≡ pool_of (message_number message) (pending_of pending.now).codes }
{
    if message == Message::Expected {
        pending.as_slice()
    } else {
        &[]
    }
}

// How many different ones.
fn pool_count(message: Message, pending: &Pending) -> u32
    ensures { result ≡ low (pool_count (message_number message) (pending_of pending.now)) }
{
    if message == Message::Expected {
        low32(pending.different())
    } else {
        0
    }
}

// A hint's number, or 0.
fn hint_number(hint: Option<Hint>) -> u32
    ensures { result ≡ hint_of hint }
{
    hint.map_or(0, Hint::number)
}

impl<'a> Parser<'a> {
    // The cursor stands at a token, or at the end.
    fn current_token_error_range(&self) -> TextRange
        ensures { span_of result ≡ error_range (rest self.now) (view self.now) }
    {
        if !self.has_token() {
            return TextRange {
                start: ByteOffset(self.byte.0.saturating_sub(1)),
                end: self.byte,
            };
        }
        if ends_statement(self.pending.as_slice()) {
            return TextRange {
                start: self.mark_byte,
                end: ByteOffset(self.mark_byte.0.wrapping_add(1)),
            };
        }
        self.range()
    }

    // The report's row and its expectations: both fit, or neither is written. Nothing is once something was refused.
    fn push_report(
        &mut self,
        message: Message,
        hint: Option<Hint>,
        range: TextRange,
        label: TextRange,
    )
        ensures { Becomes (write_report (message_number message) (hint_of hint) (span_of range) (span_of label)) self.old self.new }
    {
        if !self.is_open() {
            return;
        }
        let index = self.reports_written;
        let first = self.pool_written;
        let n = codes_of(message, &self.pending).len();
        if !fits(self.reports.len(), index, REPORT_ROW) || !fits(self.pool.len(), first, n) {
            self.refuse(Refusal::NoReportRoom);
            return;
        }
        put_row(
            self.reports,
            index,
            [
                message.number(),
                range.start.0,
                range.end.0,
                low32(self.mark.0),
                low32(first),
                pool_count(message, &self.pending),
                hint_number(hint),
                label.start.0,
                label.end.0,
            ],
        );
        put_codes(self.pool, first, codes_of(message, &self.pending));
        self.reports_written = index + REPORT_ROW;
        self.pool_written = first + n;
    }

    // A report alone: its event, and then its row.
    pub fn emit(&mut self, message: Message, hint: Option<Hint>, label: TextRange)
        ensures { Becomes (emit_machine (toks self.old) (message_number message) (hint_of hint) (span_of label)) self.old self.new }
    {
        self.peek();
        let range = self.current_token_error_range();
        self.push_event(EventTag::Error, 0);
        self.push_report(message, hint, range, label);
    }

    fn bump_unless_at_end(&mut self)
        ensures walks { Walks (when end? then tell yes else bump!) self.old yes self.new }
        ensures taken { TakesOne self.old self.new }
    {
        if !self.at_end() {
            self.bump();
        }
    }

    fn wrap_unless_at_end(&mut self)
        ensures walks { Walks (when end? then tell yes else node_prog N.ParseError bump!) self.old yes self.new }
        ensures taken { TakesOne self.old self.new }
    {
        if !self.at_end() {
            let m = self.start();
            self.bump();
            m.complete(self, NodeKind::ParseError);
        }
    }

    // `error().msg_..().add_hint(..).bump..().emit()`
    pub fn error(&mut self, message: Message, hint: Option<Hint>, bump: Bump)
        ensures walks { Walks (error_prog bump (message_number message) (hint_of hint)) self.old yes self.new }
        ensures taken { tokens_left self.new ≤ tokens_left self.old - takes bump }
    {
        self.emit(message, hint, NO_LABEL);
        match bump {
            Bump::No => {}
            Bump::Yes => self.bump_unless_at_end(),
            Bump::YesWrapErr => self.wrap_unless_at_end(),
        }
    }
}
