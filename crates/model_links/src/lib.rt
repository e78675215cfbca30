// The cells of a content model's table: which places come after which, where groups are joined.
//
// The layout is that of the crate model_table: `POSITIONS` rows of `MODEL_ROW` numbers, row 0 with the places that can begin a group, column 0 with those
// that can end one, the last column with the required place.
#![tactic(auto)]

ghost use Rattle.std.specs.Prelude.{◌≡◌, ◌≤◌, ◌<◌};
ghost use Rattle.layout.specs.Sizes.{POSITIONS};
ghost use Rattle.model_links.specs.Links.{link_cell, link_row, link_from, link, settle_row, settle, clear_row, unbegin};

use layout::{MODEL, MODEL_ROW, POSITIONS};

// The place p may come after u if it can begin the group.
#[tactic(auto, unfolding(crate::specs::Links::link_cell))]
fn link_cell(table: &mut [u8; MODEL], u: usize, p: usize)
    requires u_bound { u < POSITIONS }
    requires p_bound { p < POSITIONS }
    ensures { table.new ≡ link_cell u table.old p }
{
    if table[p] == 1 {
        table[u * MODEL_ROW + p] = 1;
    }
}

// Each place of [c, d) that can begin its group may come after u.
fn link_row(table: &mut [u8; MODEL], u: usize, c: usize, d: usize)
    requires u_bound { u < POSITIONS }
    requires d_bound { d ≤ POSITIONS }
    ensures { table.new ≡ link_row table.old u c d }
{
    for p in c..d {
        link_cell(table, u, p);
    }
}

// If u can end its group, each place of [c, d) that can begin its own may come after it.
#[tactic(auto, unfolding(crate::specs::Links::link_from))]
fn link_from(table: &mut [u8; MODEL], u: usize, c: usize, d: usize)
    requires u_bound { u < POSITIONS }
    requires d_bound { d ≤ POSITIONS }
    ensures { table.new ≡ link_from c d table.old u }
{
    if table[u * MODEL_ROW] == 1 {
        link_row(table, u, c, d);
    }
}

// After each place of [a, b) that can end its group, each of [c, d) that can begin its own.
pub fn link(table: &mut [u8; MODEL], a: usize, b: usize, c: usize, d: usize)
    requires b_bound { b ≤ POSITIONS }
    requires d_bound { d ≤ POSITIONS }
    ensures { table.new ≡ link table.old a b c d }
{
    for u in a..b {
        link_from(table, u, c, d);
    }
}

// The place u can no longer end its group: what is required comes after it.
#[tactic(auto, unfolding(crate::specs::Links::settle_row))]
fn settle_row(table: &mut [u8; MODEL], u: usize, required: u8)
    requires { u < POSITIONS }
    ensures { table.new ≡ settle_row required table.old u }
{
    if table[u * MODEL_ROW] == 1 {
        table[u * MODEL_ROW] = 0;
        table[u * MODEL_ROW + POSITIONS] = required;
    }
}

// No place of [lo, mid) can end its group any more: after those that could, what is required comes.
pub fn settle(table: &mut [u8; MODEL], lo: usize, mid: usize, required: u8)
    requires { mid ≤ POSITIONS }
    ensures { table.new ≡ settle table.old lo mid required }
{
    for u in lo..mid {
        settle_row(table, u, required);
    }
}

// Nothing is said of the place u any more: every number of its row is 0.
pub fn clear_row(table: &mut [u8; MODEL], u: usize)
    requires { u < POSITIONS }
    ensures { table.new ≡ clear_row table.old u }
{
    table[u * MODEL_ROW..(u + 1) * MODEL_ROW].fill(0);
}

// No place of [mid, hi) can begin any more.
// Kept: no `fill` of the range (fixed): the clause asks nothing of mid, which may lie behind hi.
pub fn unbegin(table: &mut [u8; MODEL], mid: usize, hi: usize)
    requires { hi ≤ POSITIONS }
    ensures { table.new ≡ unbegin table.old mid hi }
{
    for p in mid..hi {
        table[p] = 0;
    }
}
