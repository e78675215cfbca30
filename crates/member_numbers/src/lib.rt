// The table of the members of "&" groups, number by number and set by set. It is that of the crate member_sets.
#![tactic(auto)]

ghost use Rattle.std.specs.Prelude.{◌≡◌, ◌+◌, ◌≤◌, ◌<◌, length, get_or};
ghost use Rattle.rules.specs.Bytes.{GRPGTCNT, element_limit};
ghost use Rattle.layout.specs.Sizes.{MEMBERS, AND_GROUPS, MEMBER_BITS};
ghost use Rattle.member_laws.specs.Members.{holder_at, group_at, due_at, record_at, reach_at, bit_at, is_needed, holds_at, among_at};
ghost use Rattle.member_bits.specs.Having.{Has};
ghost use Rattle.member_numbers.specs.Words.{Word};

use layout::{ElementNo, GROUP, MEMBER, MEMBER_BITS, NEEDED, POSITIONS, Place, REACHES, SETS};
use member_bits::Bits;

// Kept: its methods answer 0 for none (fixed: they give the table's own bytes, which have 0 there).
//
// The table of members, which is whole, and the element of which it is asked.
#[derive(Clone, Copy)]
pub struct Members<'a> {
    pub table: &'a [u8],
    pub e: ElementNo,
    pub ghost whole: { MEMBERS ≤ length table.now },
    pub ghost numbered: { e.0 ≤ element_limit },
}

// A number of the table.
fn number(members: &[u8], i: usize) -> usize
    requires { i < length members.now }
    ensures { (result ≡ get_or members.now i 0) × (result ≤ 255) }
{
    numbers::wide(members[i])
}

// Four numbers of the table as one, the lowest first.
fn word(members: &[u8], i: usize) -> usize
    requires { i + 4 ≤ length members.now }
    ensures { Word members.now i result }
{
    u32::from_le_bytes([members[i], members[i + 1], members[i + 2], members[i + 3]]) as usize
}

// The members whose bits stand from i on.
fn bits_at(members: &[u8], i: usize) -> Bits
    requires { i + MEMBER_BITS ≤ length members.now }
    ensures { Has result (bit_at members.now i) }
{
    let a = word(members, i);
    let b = word(members, i + 4);
    let c = word(members, i + 8);
    Bits {
        low: a + b * 4294967296,
        high: c,
    }
}

impl<'a> Members<'a> {
    // The innermost member that holds the place p, and `ENDING` more where p can end it; or 0.
    pub fn holder(self, p: Place) -> usize
        requires { p.0 ≤ GRPGTCNT }
        ensures { (result ≡ holder_at self.entry.table.now self.entry.e.0 p.0) × (result ≤ 255) }
    {
        number(self.table, self.e.0 * MEMBER + p.0)
    }

    // The group of the member h.
    pub fn group_of(self, h: usize) -> usize
        requires { h ≤ 255 }
        ensures { (result ≡ group_at self.entry.table.now self.entry.e.0 h) × (result ≤ 255) }
    {
        number(self.table, self.e.0 * MEMBER + POSITIONS + h)
    }

    // The place that the member h requires at its start, or 0.
    pub fn required_of(self, h: usize) -> Place
        requires { h ≤ 255 }
        ensures { (result.0 ≡ due_at self.entry.table.now self.entry.e.0 h) × (result.0 ≤ 255) }
    {
        Place(number(self.table, self.e.0 * MEMBER + 2 * POSITIONS + h))
    }

    // What is kept of the group g: the number of its first member; how many members cannot be nothing, which
    // are numbered first; how many there are; the innermost member that holds the group, and `ENDING` more
    // where it can end with the group, or 0.
    pub fn of_group(self, g: usize, which: usize) -> usize
        requires { (g ≤ 255) × (which ≤ 3) }
        ensures { (result ≡ get_or self.entry.table.now
            (record_at self.entry.table.now self.entry.e.0 g + which) 0) × (result ≤ 255) }
    {
        number(
            self.table,
            self.e.0 * MEMBER + 3 * POSITIONS + g * GROUP + which,
        )
    }

    // The outermost group around the group g that can end with it, each of those between with it.
    pub fn reach_of(self, g: usize) -> usize
        requires { g ≤ 255 }
        ensures { (result ≡ reach_at self.entry.table.now self.entry.e.0 g) × (result ≤ 255) }
    {
        number(self.table, self.e.0 * MEMBER + REACHES + g)
    }

    // The members of the element that cannot be nothing.
    pub fn needed(self) -> Bits
        ensures { Has result (is_needed self.entry.table.now self.entry.e.0) }
    {
        bits_at(self.table, self.e.0 * MEMBER + NEEDED)
    }

    // The members that hold the group g, from the innermost to the outermost.
    pub fn holding(self, g: usize) -> Bits
        requires { g ≤ AND_GROUPS }
        ensures { Has result (holds_at self.entry.table.now self.entry.e.0 g) }
    {
        bits_at(self.table, self.e.0 * MEMBER + SETS + g * (2 * MEMBER_BITS))
    }

    // The members of the group g and of those around it.
    pub fn among(self, g: usize) -> Bits
        requires { g ≤ AND_GROUPS }
        ensures { Has result (among_at self.entry.table.now self.entry.e.0 g) }
    {
        bits_at(
            self.table,
            self.e.0 * MEMBER + SETS + g * (2 * MEMBER_BITS) + MEMBER_BITS,
        )
    }
}
