// The binding powers of the operators, by kind: a table of the binary operators' levels, and the powers worked out from
// a level.
#![tactic(auto)]

ghost use Rattle.std.specs.Prelude.{◌≡◌, ◌≤◌, ◌<◌, IsSome};
ghost use Rattle.definitions.specs.BindingPower.{binary_levels};
ghost use Rattle.binding_power.specs.Power.{level_in, left_of, right_of, is_binary};
ghost use Rattle.binding_power.specs.Answer.{left_in, right_in, binary_in};

use layout::token_kind::TokenKind;

pub const FIRST_OPERATOR: u8 = TokenKind::Ampersand as u8;

pub const LAST_OPERATOR: u8 = TokenKind::RelationalNeq as u8;

// By the operator's kind, from FIRST_OPERATOR to LAST_OPERATOR: 1 to 10 from || to multiplication, 0 where the kind is
// not a binary operator.
pub const LEVELS: [u8; 30] = [
    5, // Ampersand
    0, // Colon
    0, // AtSign
    0, // String
    0, // Char
    0, // Number
    0, // DtBytestring
    0, // LCurly
    0, // RCurly
    7, // LAngle
    7, // RAngle
    0, // LParen
    0, // RParen
    9, // Plus
    9, // Minus
    10, // Asterisk
    10, // Slash
    10, // Modulo
    3, // BitwiseOr
    4, // BitwiseXor
    0, // BitwiseNot
    8, // BitwiseShl
    8, // BitwiseShr
    2, // LogicalAnd
    1, // LogicalOr
    0, // LogicalNot
    7, // RelationalLtEq
    7, // RelationalGtEq
    6, // RelationalEq
    6, // RelationalNeq
];

// The ternary has no level; its powers are the lowest of all.
pub const TERNARY_LEFT: u8 = 2;

pub const TERNARY_RIGHT: u8 = 1;

// `PrefixOp::binding_power`.
pub const PREFIX_POWER: u8 = 23;

// `InfixOp::binding_power`: left and right; and whether the operator is one other than the ternary.
#[derive(Clone, Copy)]
pub struct BindingPower {
    pub left: u8,
    pub right: u8,
    pub binary: bool,
}

// The level of a binary operator; 0 where the kind is not one.
#[tactic(auto, using(crate::proofs::Powers::levels))]
fn level(k: u8) -> u8
    ensures value { result ≡ level_in binary_levels k }
    ensures result_bound { result ≤ 10 }
{
    match k {
        FIRST_OPERATOR..=LAST_OPERATOR => LEVELS[(k - FIRST_OPERATOR) as usize],
        _ => 0,
    }
}

// None where the kind is not an infix operator.
pub fn binding_power(k: u8) -> Option<BindingPower>
    ensures left { left_in result ≡ left_of k }
    ensures right { right_in result ≡ right_of k }
    ensures binary { binary_in result ≡ is_binary k }
    ensures some { IsSome result → 0 < left_in result }
{
    if k == TokenKind::QuestionMark as u8 {
        return Some(BindingPower {
            left: TERNARY_LEFT,
            right: TERNARY_RIGHT,
            binary: false,
        });
    }
    match level(k) {
        0 => None,
        n => Some(BindingPower {
            left: 2 * n + 1,
            right: 2 * n + 2,
            binary: true,
        }),
    }
}
