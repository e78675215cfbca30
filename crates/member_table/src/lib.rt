// The members of a model's "&" groups, from its code: what the crates and_groups and and_next need to know,
// except for the sets, which the crate member_sets writes.
//
// Groups count from 1 in the order of their ")", so that an inner one comes before those around it; members
// count from 1, group after group, in each those that cannot be nothing first. What is stored for each is
// described in the crate member_entries.
#![tactic(auto)]

ghost use Rattle.std.specs.Prelude.{◌≡◌, ◌+◌, ◌*◌, ◌≤◌, ◌<◌};
ghost use Rattle.rules.specs.Bytes.{GRPGTCNT};
ghost use Rattle.layout.specs.Sizes.{AND_GROUPS, CONTENTS, MEMBERS, POSITIONS};
ghost use Rattle.member_table.specs.Filling.{needed_in, number_at, put_one, put_group, fits, place_piece, opt_piece, joined_piece, closed_piece, filled};

use layout::{AND_GROUPS, CODE, ElementNo, LASTS, MEMBER, MODEL, MODEL_ROWS, POSITIONS};
use member_entries::{Draft, Member};

const AND_CODE: usize = model_code::AND_CODE as usize;

// A group on the stack: its places are those from `lo` to `last`; whether it can be nothing, and the place that it requires at its start, or 0.
// Kept: `required` has 0 for none (fixed: it is put into the table as it stands).
#[derive(Clone, Copy)]
pub struct Piece {
    pub lo: u8,
    pub last: u8,
    pub null: bool,
    pub required: u8,
}

impl Piece {
    // A place by itself.
    fn placed(p: u8) -> Piece
        ensures { result ≡ place_piece p }
    {
        Piece {
            lo: p,
            last: p,
            null: false,
            required: p,
        }
    }

    // It may be left out.
    fn optional(self) -> Piece
        ensures { result ≡ opt_piece self }
    {
        Piece {
            null: true,
            required: 0,
            ..self
        }
    }

    // It is joined to b by "," or "|".
    fn joined(self, op: u8, b: Piece) -> Piece
        ensures { result ≡ joined_piece op self b }
    {
        if op == model_code::SEQ_CODE {
            Piece {
                lo: self.lo,
                last: b.last,
                null: self.null && b.null,
                required: if self.null { b.required } else { self.required },
            }
        } else {
            Piece {
                lo: self.lo,
                last: b.last,
                null: self.null || b.null,
                required: 0,
            }
        }
    }

    // An "&" group from it to the piece b, of whose members so many cannot be nothing.
    fn closed(self, needed: usize, b: Piece) -> Piece
        ensures { result ≡ closed_piece needed self b }
    {
        Piece {
            lo: self.lo,
            last: b.last,
            null: needed == 0,
            required: 0,
        }
    }
}

// How many of the k pieces of the stack from `first` on cannot be nothing.
// Kept: the stack, `first` and k, no sub-slice: (fixed) `needed_in`, `number_at` and `put_group` of Filling
// say it of the stack from `first` on.
fn needed_in(stack: &[Piece; POSITIONS], first: usize, k: usize) -> usize
    requires { first + k ≤ POSITIONS }
    ensures { (result ≡ needed_in stack.now first k) × (result ≤ k) }
{
    let mut n = 0;
    for j in 0..k {
        if !stack[first + j].null {
            n += 1;
        }
    }
    n
}

// The piece j of the stack from `first` on is a member of the next group, whose members are numbered from `own`.
fn put_one(
    members: &mut [u8],
    d: Draft,
    own: usize,
    stack: &[Piece; POSITIONS],
    first: usize,
    needed: usize,
    j: usize,
)
    requires first_bound { first < GRPGTCNT }
    requires j_bound { first + j < POSITIONS }
    requires own_bound { (own < POSITIONS) × (needed ≤ POSITIONS) }
    requires j_bound_2 { number_at stack.now first own needed j < POSITIONS }
    ensures { members.new ≡ put_one members.old d.entry.base d.entry.table.now d.entry.lasts.now
        d.entry.groups own stack.now first needed j }
{
    let m = stack[first + j];
    let n = needed_in(stack, first, j);
    let mut h = own + n;
    if m.null {
        h = own + needed + (j - n);
    }
    let mut o = first;
    if j == 0 {
        o = first + 1;
    }
    let member = Member {
        number: h,
        lo: numbers::wide(m.lo),
        hi: numbers::wide(m.last) + 1,
        other: numbers::wide(stack[o].lo),
    };
    member_entries::put_member(members, d, member, m.required);
}

// The next group: its members are the k pieces of the stack from `first` on, numbered behind the `count` members that
// there are. It gives how many of them cannot be nothing.
fn put_group(
    members: &mut [u8],
    d: Draft,
    count: usize,
    stack: &[Piece; POSITIONS],
    first: usize,
    k: usize,
) -> usize
    requires le_k { 2 ≤ k }
    requires k_bound { first + k ≤ POSITIONS }
    requires k_bound_2 { count + k < POSITIONS }
    ensures members_after { members.new ≡ put_group members.old d.entry.base d.entry.table.now
        d.entry.lasts.now d.entry.groups (count + 1) stack.now first (needed_in stack.now first k) k }
    ensures value { result ≡ needed_in stack.now first k }
{
    let own = count + 1;
    let needed = needed_in(stack, first, k);
    member_entries::put_record(members, d, own, needed, k);
    for j in 0..k {
        put_one(members, d, own, stack, first, needed, j);
    }
    needed
}

// Whether a group of k members can be put, where so many pieces are on the stack and so many groups and members are put.
fn fits(k: usize, top: usize, groups: usize, count: usize) -> bool
    requires k_bound { k < 256 }
    requires count_bound { count < POSITIONS }
    ensures { result ≡ fits k top groups count }
{
    2 <= k && k <= top && groups < AND_GROUPS && count + k < POSITIONS
}

// The members of the element e, whose model has its table in `table` with n numbers of code. Where they are all 0 before, the table tells the model then (`fills`).
pub fn fill(members: &mut [u8], e: ElementNo, table: &[u8; MODEL], n: usize)
    requires { e.0 < CONTENTS }
    ensures { members.new ≡ filled members.old e.0 table.now n }
{
    let base = e.0 * MEMBER;
    let none = Piece::placed(0);
    let mut stack = [none; POSITIONS];
    let mut lasts = [0u8; LASTS];
    let mut groups = 0;
    let mut count = 0;
    let mut top = 0;
    let end = n.min(CODE);
    for i in 0..end {
        let op = table[MODEL_ROWS + i];
        if op < model_code::SEQ_CODE {
            if top < POSITIONS {
                stack[top] = Piece::placed(op);
                top += 1;
            }
        } else if op == model_code::OPT_CODE {
            if 1 <= top {
                stack[top - 1] = stack[top - 1].optional();
            }
        } else if op < model_code::PLUS_CODE {
            if 2 <= top {
                stack[top - 2] = stack[top - 2].joined(op, stack[top - 1]);
                top -= 1;
            }
        } else if model_code::AND_CODE < op {
            let k = numbers::wide(op) - AND_CODE;
            if fits(k, top, groups, count) {
                let first = top - k;
                let d = Draft {
                    base,
                    table,
                    lasts: &lasts,
                    groups,
                };
                let needed = put_group(members, d, count, &stack, first, k);
                let b = stack[top - 1];
                stack[first] = stack[first].closed(needed, b);
                groups += 1;
                count += k;
                lasts[groups] = b.last;
                top = first + 1;
            }
        }
    }
}
