// The automaton of the lexer's rules: its table, and a step. A state is held as its row's place in the table, which is
// its number times 256: the start and the states that match and go on first, then those that do not match (from
// FIRST_SILENT on), those that match and do not go on (from FIRST_FINAL on), of these last those with a callback
// (from BLOCK_COMMENT on), and the one in which nothing can match any more.
#![tactic(auto)]

pub mod callback;
pub mod table;

ghost use Rattle.std.specs.Prelude.{◌≡◌, ◌<◌};
ghost use Rattle.lex_table.specs.Table.{table as the_table, row_after, kind_of_row};

use crate::table::TABLE;

pub const START: usize = 0;

pub const FIRST_SILENT: usize = 5376;

pub const FIRST_FINAL: usize = 24576;

// The callbacks, in the order of the rows of their states.
pub const BLOCK_COMMENT: usize = 32768;

pub const STRING: usize = 33024;

pub const CHAR: usize = 33280;

pub const BYTESTRING: usize = 33536;

pub const DEAD: usize = 33792;

// The table is built where it is made: make it once for a call, and lend it.
#[derive(Drop)]
pub struct Automaton {
    table: [u16; 8090],
    ghost of_the_rules: { table ≡ the_table },
}

impl Automaton {
    pub fn new() -> Self {
        Automaton { table: TABLE }
    }

    // From the start or a state that matches and goes on: these have a row of 256 places, one for each byte.
    pub fn step(&self, row: usize, b: u8) -> usize
        requires { row < 5376 }
        ensures { result ≡ row_after row b }
    {
        self.table[row + usize::from(b)].into()
    }

    // From any state that goes on. The others have a row of 31 places, one for each class of bytes.
    pub fn step_any(&self, row: usize, b: u8) -> usize
        requires { row < 24576 }
        ensures { result ≡ row_after row b }
    {
        if row < FIRST_SILENT {
            return self.step(row, b);
        }
        let class = usize::from(self.table[usize::from(b) + 5376]);
        self.table[row / 256 * 31 + class + 4981].into()
    }

    // The kind of the token that ends in a state.
    pub fn kind_of(&self, row: usize) -> u16
        requires { row < 33792 }
        ensures { result ≡ kind_of_row row }
    {
        self.table[row / 256 + 7957]
    }
}
