// The operators on 32-bit signed integers: where there is no result, for a zero divisor, the least integer divided by -1 or a number out of range, the
// library's checked operations and `rem` give nothing.
ghost use Rattle.std.specs.Prelude.{◌≡◌};
ghost use Rattle.std.specs.Int.Signed.{rem_z};
ghost use Rattle.machine.specs.Operator.{divided};
ghost use Rattle.operands.specs.Answers.{number};
ghost use Rattle.operands.specs.Operands.{Computes};

// Numbers and no enum: a call's word carries any number, and each function below takes it as it stands there.
pub const ADD: u32 = 0;

pub const SUBTRACT: u32 = 1;

pub const MULTIPLY: u32 = 2;

pub const DIV: u32 = 3;

pub const REM: u32 = 4;

pub const EQUAL: u32 = 5;

pub const UNEQUAL: u32 = 6;

pub const LESS: u32 = 7;

pub const AT_MOST: u32 = 8;

// `checked_rem` has no remainder of the least integer by -1, which is 0.
pub fn rem(x: i32, y: i32) -> Option<i32>
    ensures { number result ≡ divided y (rem_z x y) }
{
    if y == 0 {
        return None;
    }
    Some(x.wrapping_rem(y))
}

// The operators + - * div rem; no other computes a number.
pub fn compute(op: u32, x: i32, y: i32) -> Option<i32>
    ensures { Computes op x y result }
{
    match op {
        ADD => x.checked_add(y),
        SUBTRACT => x.checked_sub(y),
        MULTIPLY => x.checked_mul(y),
        DIV => x.checked_div(y),
        REM => rem(x, y),
        _ => None,
    }
}
