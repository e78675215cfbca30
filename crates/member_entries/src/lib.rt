// What the table of the members of "&" groups holds for one member, and for one group.
//
// For each content: for each position the innermost member that contains the place, or 0, and `ENDING` more
// where the place can end that member; for each member its group; for each member the place that it requires
// at its start, or 0; for each group its first member, how many of its members cannot be nothing, how many
// there are, and the innermost member that contains it, or 0, and `ENDING` more where that member can end
// with this group.
// Kept: 0 for none (fixed: no heap, fixed memory: the numbers are bytes of one table).
#![tactic(auto)]

ghost use Rattle.std.specs.Prelude.{◌≡◌, ◌+◌, ◌≤◌, ◌<◌, set};
ghost use Rattle.layout.specs.Sizes.{AND_GROUPS, MEMBERS, POSITIONS};
ghost use Rattle.member_entries.specs.Entries.{put_free, marked, put_places, put_outer, put_outers, put_member, put_record};

use layout::{ENDING, GROUP, LASTS, MODEL, MODEL_ROW, POSITIONS};

// What a group is put by: where the element's numbers begin, the table of its model, and how many groups are
// put, with the last place of each.
#[derive(Clone, Copy)]
pub struct Draft<'a> {
    pub base: usize,
    pub table: &'a [u8; MODEL],
    pub lasts: &'a [u8; LASTS],
    pub groups: usize,
    pub ghost within: { base < MEMBERS },
    pub ghost few: { groups < AND_GROUPS },
}

// The member `number` of the places [lo, hi). The place `other` can begin another member of its group, so it
// may come next where this one can end.
#[derive(Clone, Copy)]
pub struct Member {
    pub number: usize,
    pub lo: usize,
    pub hi: usize,
    pub other: usize,
    pub ghost numbered: { number < POSITIONS },
    pub ghost ends: { hi ≤ 256 },
    pub ghost begins: { other < 256 },
}

// A number of the table; nothing is put past its end.
fn put(members: &mut [u8], i: usize, x: u8)
    ensures { members.new ≡ set members.old i x }
{
    if i < members.len() {
        members[i] = x;
    }
}

// A number is put where none is yet.
fn put_free(members: &mut [u8], i: usize, x: u8)
    ensures { members.new ≡ put_free members.old i x }
{
    if i < members.len() {
        if members[i] == 0 {
            members[i] = x;
        }
    }
}

// The member's number, and `ENDING` more if it can end with the place u.
fn mark(table: &[u8; MODEL], m: Member, u: usize) -> u8
    requires { u < 256 }
    ensures { result ≡ marked table.now u m.other m.number }
{
    let i = u * MODEL_ROW + m.other;
    if i < MODEL {
        if table[i] == 1 {
            return (m.number + ENDING) as u8;
        }
    }
    m.number as u8
}

// The member has those of its places that no inner member has.
fn put_places(members: &mut [u8], d: Draft, m: Member)
    ensures { members.new ≡ put_places members.old d.entry.base d.entry.table.now m.other m.number m.lo m.hi }
{
    for u in m.lo..m.hi {
        put_free(members, d.base + u, mark(d.table, m, u));
    }
}

// The member has the group g, which ends with the place `last`, if that is one of its places and no inner
// member has the group.
fn put_outer(members: &mut [u8], d: Draft, m: Member, last: usize, g: usize)
    requires last_bound { last < 256 }
    requires g_bound { g ≤ AND_GROUPS }
    ensures { members.new ≡ put_outer members.old d.entry.base d.entry.table.now m.other m.number m.lo m.hi
        last g }
{
    if m.lo <= last {
        if last < m.hi {
            put_free(
                members,
                d.base + 3 * POSITIONS + g * GROUP + 3,
                mark(d.table, m, last),
            );
        }
    }
}

// The member has those of the first groups that are within it and that no inner member has.
fn put_outers(members: &mut [u8], d: Draft, m: Member)
    ensures { members.new ≡ put_outers members.old d.entry.base d.entry.table.now m.other m.number m.lo m.hi
        d.entry.lasts.now 1 (d.entry.groups + 1) }
{
    for g in 1..d.groups + 1 {
        put_outer(members, d, m, numbers::wide(d.lasts[g]), g);
    }
}

// The member of the group after the first groups: its places and the groups within it, its group, and the
// place that it requires.
pub fn put_member(members: &mut [u8], d: Draft, m: Member, required: u8)
    ensures { members.new ≡ put_member members.old d.entry.base d.entry.table.now d.entry.lasts.now
        d.entry.groups m.other m.number m.lo m.hi required }
{
    put_places(members, d, m);
    put_outers(members, d, m);
    let g = d.groups + 1;
    put(members, d.base + POSITIONS + m.number, g as u8);
    put(members, d.base + 2 * POSITIONS + m.number, required);
}

// The group after the first groups: its first member, how many cannot be nothing, and how many there are.
pub fn put_record(members: &mut [u8], d: Draft, own: usize, needed: usize, k: usize)
    requires own_bound { own < 256 }
    requires needed_bound { needed < 256 }
    requires k_bound { k < 256 }
    ensures { members.new ≡ put_record members.old d.entry.base d.entry.groups own needed k }
{
    let at = d.base + 3 * POSITIONS + (d.groups + 1) * GROUP;
    put(members, at, own as u8);
    put(members, at + 1, needed as u8);
    put(members, at + 2, k as u8);
}
