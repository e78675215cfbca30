// A content model as postfix code, stored after the rows of its table, and what a pass over it with a stack
// determines of two places.
//
// A place is represented by its number; the numbers below are operators, and each follows the groups that it
// joins or changes. A group of k members joined by "&" ends with `AND_CODE` + k.
#![tactic(auto)]

ghost use Rattle.std.specs.Prelude.{◌≡◌, ◌<◌, ◌&&◌, ◌||◌};
ghost use Rattle.and_laws.specs.Fold.{cross};
ghost use Rattle.and_laws.specs.Code.{sixes};
ghost use Rattle.model_code.specs.Six.{put_code, code_next, six, then_six, either_six, added_six, maybe_six, many_six, joined_six, Told};

use layout::{CODE, MODEL, MODEL_ROWS, POSITIONS};

// Kept: these numbers of kinds are no enum (fixed): a byte of the code holds a place, or one of them, or how
// many members an "&" group has.

// The two groups before are joined by ",". Every number below this one is a place.
pub const SEQ_CODE: u8 = POSITIONS as u8;

// The two groups before are joined by "|".
pub const ALT_CODE: u8 = SEQ_CODE + 1;

// The group before has "?".
pub const OPT_CODE: u8 = SEQ_CODE + 2;

// The group before has "+".
pub const PLUS_CODE: u8 = SEQ_CODE + 3;

// The group before is one member more of an "&" group.
pub const ALSO_CODE: u8 = SEQ_CODE + 4;

// An "&" group ends: what stands above this number says how many members it has.
pub const AND_CODE: u8 = 128;

// A number is put behind the n numbers of the code; how many there are now. Where there is no room for it nothing is put.
pub fn put(table: &mut [u8; MODEL], n: u16, op: u8) -> u16
    ensures { (table.new ≡ put_code table.old n op) × (result ≡ code_next n) }
{
    let i = usize::from(n);
    if CODE <= i {
        return n;
    }
    table[MODEL_ROWS + i] = op;
    n + 1
}

// What a pass keeps of a group for the places p and q: whether it can be nothing; whether p, whether q can begin a walk of it; whether p,
// whether q can go on after some walk of it; whether both can come next after one beginning.
#[derive(Clone, Copy, Default)]
pub struct Pairing {
    pub null: bool,
    pub begins_p: bool,
    pub begins_q: bool,
    pub extends_p: bool,
    pub extends_q: bool,
    pub clash: bool,
}

// Whether p of the members before and q of the one that is joined can both come next.
fn crossing(begins_p: bool, extends_p: bool, begins_q: bool, extends_q: bool) -> bool
    ensures { result ≡ cross begins_p extends_p begins_q extends_q }
{
    ((begins_p | extends_p) & begins_q) | (extends_q & begins_p)
}

// The place n alone, asked for the places p and q.
fn at_place(n: usize, p: usize, q: usize) -> Pairing
    ensures { six result ≡ (sixes p q).at n }
{
    let is_p = n == p;
    let is_q = n == q;
    Pairing {
        begins_p: is_p,
        begins_q: is_q,
        clash: is_p & is_q,
        ..Pairing::default()
    }
}

// The group a, then the group b.
fn in_sequence(a: Pairing, b: Pairing) -> Pairing
    ensures { six result ≡ then_six (six a) (six b) }
{
    Pairing {
        null: a.null & b.null,
        begins_p: a.begins_p | (a.null & b.begins_p),
        begins_q: a.begins_q | (a.null & b.begins_q),
        extends_p: (b.null & a.extends_p) | b.extends_p,
        extends_q: (b.null & a.extends_q) | b.extends_q,
        clash: a.clash | b.clash | ((a.extends_p & b.begins_q) | (a.extends_q & b.begins_p)),
    }
}

// The group a or the group b.
fn in_choice(a: Pairing, b: Pairing) -> Pairing
    ensures { six result ≡ either_six (six a) (six b) }
{
    Pairing {
        null: a.null | b.null,
        begins_p: a.begins_p | b.begins_p,
        begins_q: a.begins_q | b.begins_q,
        extends_p: a.extends_p | b.extends_p | ((b.null & a.begins_p) | (a.null & b.begins_p)),
        extends_q: a.extends_q | b.extends_q | ((b.null & a.begins_q) | (a.null & b.begins_q)),
        clash: a.clash | b.clash | ((a.begins_p & b.begins_q) | (a.begins_q & b.begins_p)),
    }
}

// The members a of an "&" group, and the member b.
fn in_any_order(a: Pairing, b: Pairing) -> Pairing
    ensures { six result ≡ added_six (six a) (six b) }
{
    Pairing {
        null: a.null & b.null,
        begins_p: a.begins_p | b.begins_p,
        begins_q: a.begins_q | b.begins_q,
        extends_p: a.extends_p | b.extends_p,
        extends_q: a.extends_q | b.extends_q,
        clash: a.clash
            | b.clash
            | (crossing(a.begins_p, a.extends_p, b.begins_q, b.extends_q)
                | crossing(a.begins_q, a.extends_q, b.begins_p, b.extends_p)),
    }
}

// The group a or nothing.
fn made_optional(a: Pairing) -> Pairing
    ensures { six result ≡ maybe_six (six a) }
{
    Pairing {
        null: true,
        extends_p: a.extends_p | a.begins_p,
        extends_q: a.extends_q | a.begins_q,
        ..a
    }
}

// The group a, once or more.
fn made_repeated(a: Pairing) -> Pairing
    ensures { six result ≡ many_six (six a) }
{
    Pairing {
        extends_p: a.extends_p | a.begins_p,
        extends_q: a.extends_q | a.begins_q,
        clash: a.clash | ((a.extends_p & a.begins_q) | (a.extends_q & a.begins_p)),
        ..a
    }
}

// Two groups joined as the number says.
fn joined(op: u8, a: Pairing, b: Pairing) -> Pairing
    ensures { six result ≡ joined_six op (six a) (six b) }
{
    match op {
        SEQ_CODE => in_sequence(a, b),
        ALT_CODE => in_choice(a, b),
        _ => in_any_order(a, b),
    }
}

// Whether the places p and q can both come next after one beginning, in the model whose code has n numbers.
pub fn clash(table: &[u8; MODEL], n: usize, p: usize, q: usize) -> bool
    ensures { Told table.now p q n result }
{
    let mut stack = [Pairing::default(); POSITIONS];
    let mut top = 0;
    for i in 0..n.min(CODE) {
        let op = table[MODEL_ROWS + i];
        if op < SEQ_CODE {
            if top < POSITIONS {
                stack[top] = at_place(op as usize, p, q);
                top += 1;
            }
        } else if op == OPT_CODE {
            if 1 <= top {
                stack[top - 1] = made_optional(stack[top - 1]);
            }
        } else if op == PLUS_CODE {
            if 1 <= top {
                stack[top - 1] = made_repeated(stack[top - 1]);
            }
        } else if op < AND_CODE {
            if 2 <= top {
                stack[top - 2] = joined(op, stack[top - 2], stack[top - 1]);
                top -= 1;
            }
        }
    }
    stack[0].clash
}
