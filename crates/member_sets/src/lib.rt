// What the crates and_groups and and_next need to know of the groups around a group, besides what the crate
// member_table has written: the members that contain it, those of the groups around it, how far out these can
// end with it; and which members cannot be empty.
#![tactic(auto)]

ghost use Rattle.std.specs.Prelude.{◌≡◌, ◌+◌, ◌*◌, ◌≤◌, ◌<◌, IsTrue, ◌↔◌, ◌++◌, length, take, drop, set};
ghost use Rattle.rules.specs.Bytes.{element_limit};
ghost use Rattle.layout.specs.Sizes.{REACHES, MEMBER, MEMBERS, AND_GROUPS, CONTENTS, ENDING, MEMBER_BITS, POSITIONS};
ghost use Rattle.member_laws.specs.Members.{reach_at};
ghost use Rattle.member_bits.specs.Having.{Has};
ghost use Rattle.member_table.specs.Filling.{filled};
ghost use Rattle.member_sets.specs.Storing.{PutBits};
ghost use Rattle.member_sets.specs.Linking.{is_due, Found, PutGroup, Linked};

use layout::{
    AND_GROUPS, ENDING, ElementNo, GRPGTCNT, MEMBER, MEMBER_BITS, MEMBERS, MODEL, NEEDED,
    POSITIONS, REACHES, SETS,
};
use member_bits::Bits;
use member_numbers::Members;

// The bytes are put from i on.
fn put_bytes(members: &mut [u8], i: usize, bytes: &[u8])
    requires { i + length bytes.now ≤ length members.old }
    ensures { members.new ≡ take i members.old ++ bytes.now ++ drop (i + length bytes.now) members.old }
{
    members[i..i + bytes.len()].copy_from_slice(bytes);
}

// The numbers from i on become the bits of the members b.
fn put_bits(members: &mut [u8], i: usize, b: Bits)
    requires i_in_bounds { i + MEMBER_BITS ≤ length members.old }
    requires i_bound { i + MEMBER_BITS ≤ MEMBERS }
    ensures { PutBits members.old i b members.new }
{
    let high = b.high.to_le_bytes();
    put_bytes(members, i, &b.low.to_le_bytes());
    put_bytes(members, i + 8, &high[..4]);
}

// What is put of a group: the members that hold it, those of the group and of those around it, and how far out these can end with it.
#[derive(Clone, Copy)]
pub struct Sets {
    pub holding: Bits,
    pub among: Bits,
    pub reach: usize,
}

// Whether h is a member and f, its group, one around the group g.
fn is_around(g: usize, h: usize, f: usize) -> bool
    ensures { IsTrue result ↔ ((1 ≤ h) × (h < POSITIONS) × (g < f) × (f ≤ AND_GROUPS)) }
{
    1 <= h && h <= GRPGTCNT && g < f && f <= AND_GROUPS
}

// How far out the groups can end with the group g: where the member that holds it can, as far as from the group f of that member.
fn reach_from(m: Members, g: usize, outer: usize, f: usize) -> usize
    requires { (g ≤ AND_GROUPS) × (f ≤ AND_GROUPS) }
    ensures { (ENDING < outer → result ≡ reach_at m.entry.table.now m.entry.e.0 f)
        × (outer ≤ ENDING → result ≡ g) × (result ≤ 255) }
{
    if ENDING < outer {
        return m.reach_of(f);
    }
    g
}

// What is to be put of the group g, by what has been put of the group around it.
fn around(m: Members, g: usize) -> Sets
    requires { g ≤ AND_GROUPS }
    ensures { Found m.entry.table.now m.entry.e.0 g result }
{
    let first = m.of_group(g, 0);
    let size = m.of_group(g, 2);
    let own = Bits::range(first, size);
    let outer = m.of_group(g, 3);
    let h = outer % ENDING;
    let f = m.group_of(h);
    if !is_around(g, h, f) {
        return Sets {
            holding: Bits::none(),
            among: own,
            reach: g,
        };
    }
    Sets {
        holding: m.holding(f).with(h),
        among: own | m.among(f),
        reach: reach_from(m, g, outer, f),
    }
}

// How far out the groups can end with the group g is put.
fn put_reach(members: &mut [u8], e: ElementNo, g: usize, reach: usize)
    requires in_bounds { MEMBERS ≤ length members.old }
    requires e_le_element_limit { (e.0 ≤ element_limit) × (g ≤ AND_GROUPS) × (reach ≤ 255) }
    ensures { members.new ≡ set members.old (e.0 * MEMBER + REACHES + g) reach }
{
    members[e.0 * MEMBER + REACHES + g] = reach as u8;
}

// What is to be put of the group g is put.
fn put_group(members: &mut [u8], e: ElementNo, g: usize)
    requires in_bounds { MEMBERS ≤ length members.old }
    requires e_le_element_limit { (e.0 ≤ element_limit) × (g ≤ AND_GROUPS) }
    ensures { PutGroup members.old e.0 g members.new }
{
    let a = around(Members { table: members, e }, g);
    let i = e.0 * MEMBER + SETS + g * (2 * MEMBER_BITS);
    put_bits(members, i, a.holding);
    put_bits(members, i + MEMBER_BITS, a.among);
    put_reach(members, e, g, a.reach);
}

// Whether the member h cannot be nothing.
fn is_needed(m: Members, h: usize) -> bool
    requires { h ≤ 255 }
    ensures { result ≡ is_due m.entry.table.now m.entry.e.0 h }
{
    let g = m.group_of(h);
    h < m.of_group(g, 0) + m.of_group(g, 1)
}

// The members that cannot be nothing.
fn needed_of(m: Members) -> Bits
    ensures { Has result (is_due m.entry.table.now m.entry.e.0) }
{
    let mut b = Bits::none();
    for h in 1..POSITIONS {
        if is_needed(m, h) {
            b = b.with(h);
        }
    }
    b
}

// The members of the element e, whose model has its table in `table` with n numbers of code, and the sets of its groups, from the outermost inwards. Where
// all was 0 before, the table tells the model then (`filled_linked`). One that is not whole gets none: a type without "&" lends none.
pub fn fill(members: &mut [u8], e: ElementNo, table: &[u8; MODEL], n: usize)
    requires { e.0 < CONTENTS }
    ensures { Linked (filled members.old e.0 table.now n) e.0 members.new }
{
    member_table::fill(members, e, table, n);
    if members.len() < MEMBERS {
        return;
    }
    let b = needed_of(Members { table: members, e });
    put_bits(members, e.0 * MEMBER + NEEDED, b);
    for g in (1..AND_GROUPS + 1).rev() {
        put_group(members, e, g);
    }
}
