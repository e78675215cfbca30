// The table of a content model, filled as the model is read.
//
// It has `POSITIONS` rows of `MODEL_ROW` numbers. Row 0 is the start, row u is after the place u; the places
// are 1 to 96. Column 0 is 1 where the content is complete, column p is 1 where the place p may come next,
// the last column is the required place, or 0. While a model is read, row 0 holds the places that can begin,
// and column 0 those that can end, the innermost finished group around them. The places of a group are [lo,
// hi). A row is cleared when its place is read: what the previous model left in the rows after the last
// place, and in the code after what is written there, is never read.
#![tactic(auto)]

ghost use Rattle.std.specs.Prelude.{◌≡◌, ◌≤◌, ◌<◌, true, false};
ghost use Rattle.layout.specs.Sizes.{POSITIONS};
ghost use Rattle.model_table.specs.Fill.{put_place, part, part_seq, part_alt, close_ends, close_starts, join_seq, join_and, part_and, repeated, finished};
ghost use Rattle.model_table.specs.Shows.{Fresh};

use layout::{MODEL, MODEL_ROW, POSITIONS};

// What is kept of a group beside the table: whether it can be empty, and which place it requires, or 0.
// Kept: `required` has 0 for none (fixed: it is a byte of the table, and `join_seq` and the others hand it on).
#[derive(Clone, Copy)]
pub struct Part {
    pub nullable: bool,
    pub required: u8,
}

// A new model: no place can begin it yet. What is said of anything else is not decided.
pub fn clear(table: &mut [u8; MODEL])
    ensures { Fresh table.new }
{
    model_links::unbegin(table, 1, POSITIONS);
}

// A new place p, after which nothing comes yet.
pub fn put_place(table: &mut [u8; MODEL], p: usize) -> Part
    requires { p < POSITIONS }
    ensures { (table.new ≡ put_place table.old p) × (result ≡ part false p) }
{
    model_links::clear_row(table, p);
    table[p] = 1;
    table[p * MODEL_ROW] = 1;
    Part {
        nullable: false,
        required: p as u8,
    }
}

// The ends of a first group stay ends only if the second can be empty.
#[tactic(auto, unfolding(crate::specs::Fill::close_ends))]
fn close_ends(table: &mut [u8; MODEL], lo: usize, mid: usize, h: Part)
    requires { mid ≤ POSITIONS }
    ensures { table.new ≡ close_ends table.old lo mid h }
{
    if !h.nullable {
        model_links::settle(table, lo, mid, h.required);
    }
}

// The starts of a second group stay starts only if the first can be empty.
#[tactic(auto, unfolding(crate::specs::Fill::close_starts))]
fn close_starts(table: &mut [u8; MODEL], mid: usize, hi: usize, g: Part)
    requires { hi ≤ POSITIONS }
    ensures { table.new ≡ close_starts table.old mid hi g }
{
    if !g.nullable {
        model_links::unbegin(table, mid, hi);
    }
}

// What is kept of two groups in sequence.
fn part_seq(g: Part, h: Part) -> Part
    ensures { result ≡ part_seq g h }
{
    if g.nullable { h } else { g }
}

// The group g of [lo, mid), then the group h of [mid, hi).
pub fn join_seq(table: &mut [u8; MODEL], lo: usize, mid: usize, hi: usize, g: Part, h: Part) -> Part
    requires mid_bound { mid ≤ POSITIONS }
    requires hi_bound { hi ≤ POSITIONS }
    ensures { (table.new ≡ join_seq table.old lo mid hi g h) × (result ≡ part_seq g h) }
{
    model_links::link(table, lo, mid, mid, hi);
    close_ends(table, lo, mid, h);
    close_starts(table, mid, hi, g);
    part_seq(g, h)
}

// The group g or the group h.
pub fn join_alt(g: Part, h: Part) -> Part
    ensures { result ≡ part_alt g h }
{
    Part {
        nullable: g.nullable | h.nullable,
        required: 0,
    }
}

// What is kept of two groups in any order.
fn part_and(g: Part, h: Part) -> Part
    ensures { result ≡ part_and g h }
{
    Part {
        nullable: g.nullable & h.nullable,
        required: 0,
    }
}

// The group g of [lo, mid) and the group h of [mid, hi), in any order. What either can begin or end with, both can; which of their
// members must still come is not in the table.
pub fn join_and(table: &mut [u8; MODEL], lo: usize, mid: usize, hi: usize, g: Part, h: Part) -> Part
    requires mid_bound { mid ≤ POSITIONS }
    requires hi_bound { hi ≤ POSITIONS }
    ensures { (table.new ≡ join_and table.old lo mid hi) × (result ≡ part_and g h) }
{
    model_links::link(table, lo, mid, mid, hi);
    model_links::link(table, mid, hi, lo, mid);
    part_and(g, h)
}

// The group g or nothing.
pub fn optional(g: Part) -> Part
    ensures { result ≡ part true 0 }
{
    Part {
        nullable: true,
        required: 0,
    }
}

// The group of [lo, hi), once or more.
pub fn repeat(table: &mut [u8; MODEL], lo: usize, hi: usize)
    requires { hi ≤ POSITIONS }
    ensures { table.new ≡ repeated table.old lo hi }
{
    model_links::link(table, lo, hi, lo, hi);
}

// The whole model is read: row 0 gets its first and its last number.
pub fn finish(table: &mut [u8; MODEL], g: Part)
    ensures { table.new ≡ finished table.old g }
{
    table[0] = u8::from(g.nullable);
    table[POSITIONS] = g.required;
}
