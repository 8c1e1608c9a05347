// The longest match from a byte on.
ghost use Rattle.std.specs.Prelude.{◌≤◌, length};
ghost use Rattle.lexer.specs.Found.{Hits};

use lex_table::{Automaton, DEAD, FIRST_FINAL, FIRST_SILENT, START};

// The row of the state that the match ends in, which is the start's where there is none, and the byte after the match.
#[derive(Clone, Copy)]
pub struct Hit {
    pub row: usize,
    pub end: usize,
}

// By any state, which is how the rare tokens are found that lead through a state without a match: `0x1f`, `/dts-v1/`.
fn longest_by_all(automaton: &Automaton, bytes: &[u8], at: usize) -> Hit
    requires { at ≤ length bytes.now }
    ensures { Hits bytes.now at result.row result.end }
{
    let mut row = START;
    let mut best = Hit {
        row: START,
        end: at,
    };
    for n in at..bytes.len() {
        let next = automaton.step_any(row, bytes[n]);
        let hit = Hit {
            row: next,
            end: n + 1,
        };
        if FIRST_FINAL <= next {
            return if next == DEAD { best } else { hit };
        }
        if next < FIRST_SILENT {
            best = hit;
        }
        row = next;
    }
    best
}

// As long as every state matches, the last one is the longest match. Where one does not, all is tried again.
pub fn longest(automaton: &Automaton, bytes: &[u8], at: usize) -> Hit
    requires { at ≤ length bytes.now }
    ensures { Hits bytes.now at result.row result.end }
{
    let mut row = START;
    for n in at..bytes.len() {
        let next = automaton.step(row, bytes[n]);
        if FIRST_SILENT <= next {
            if next == DEAD {
                return Hit { row, end: n };
            }
            if FIRST_FINAL <= next {
                return Hit {
                    row: next,
                    end: n + 1,
                };
            }
            return longest_by_all(automaton, bytes, at);
        }
        row = next;
    }
    Hit {
        row,
        end: bytes.len(),
    }
}
