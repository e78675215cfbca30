// The rows of a model's table, written into the rows of a type as bits.
//
// The layout is that of the crate type_tables.
#![tactic(auto)]

ghost use Rattle.std.specs.Prelude.{◌≡◌, ◌+◌, ◌*◌, ◌≤◌, ◌<◌, length, get_or};
ghost use Rattle.rules.specs.Bytes.{GRPGTCNT, element_limit};
ghost use Rattle.layout.specs.Sizes.{MODEL, ROWS, MODEL_ROW, POSITIONS, RAISE};
ghost use Rattle.model_rows.specs.Bits.{cell_of, packed_of};
ghost use Rattle.model_rows.specs.Rows.{RowPut, RowsDue, RowsPut};

use layout::{ElementNo, GRPGTCNT, LAST_BITS, MODEL, MODEL_ROW, POSITIONS, Place, REQUIRED, ROWS};

// Whether a number of a model's table is 1, as 1 or 0.
fn cell(table: &[u8; MODEL], i: usize) -> u8
    requires { i < MODEL }
    ensures { (result ≡ cell_of table.now i) × (result ≤ 1) }
{
    u8::from(table[i] == 1)
}

// Eight numbers of a model's table as bits, the first the lowest.
// Kept: eight terms and no loop (plainer): a sum over 0..8 would need a bound on each partial sum, and reads no
// shorter.
#[tactic(auto, unfolding(crate::specs::Bits::packed_of))]
fn packed(table: &[u8; MODEL], i: usize) -> u8
    requires { i + 8 ≤ MODEL }
    ensures { result ≡ packed_of table.now i }
{
    cell(table, i)
        + cell(table, i + 1) * 2
        + cell(table, i + 2) * 4
        + cell(table, i + 3) * 8
        + cell(table, i + 4) * 16
        + cell(table, i + 5) * 32
        + cell(table, i + 6) * 64
        + cell(table, i + 7) * 128
}

// The row of the element e after the place u; the required place is kept `raise` higher.
fn put_row(rows: &mut [u8; ROWS], e: ElementNo, table: &[u8; MODEL], u: Place, raise: u8)
    requires { (e.0 ≤ element_limit) × (u.0 ≤ GRPGTCNT) × (length rows.old ≡ ROWS) × (get_or table.now (u.0 * MODEL_ROW + POSITIONS) 0 ≤ GRPGTCNT) × (raise ≤ RAISE) }
    ensures { RowPut table.now e.0 u.0 raise rows.old rows.new }
{
    let r = row_search::row(e, u);
    for j in 0..LAST_BITS {
        rows[r + j] = packed(table, u.0 * MODEL_ROW + 8 * j);
    }
    rows[r + LAST_BITS] = cell(table, u.0 * MODEL_ROW + GRPGTCNT);
    rows[r + REQUIRED] = table[u.0 * MODEL_ROW + POSITIONS] + raise;
}

// The rows of the element e, whose model has `count` places. After a place the required place is kept `raise` higher.
pub fn put_rows(rows: &mut [u8; ROWS], e: ElementNo, table: &[u8; MODEL], count: usize, raise: u8)
    requires { RowsDue table.now e.0 count rows.old × (raise ≤ RAISE) }
    ensures { RowsPut table.now e.0 raise rows.old rows.new (count + 1) }
{
    put_row(rows, e, table, Place(0), 0);
    for u in 1..count + 1 {
        put_row(rows, e, table, Place(u), raise);
    }
}
