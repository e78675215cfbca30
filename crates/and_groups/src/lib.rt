// What has begun of the "&" groups of the open elements when a place is taken, and what follows from it:
// whether the content is complete, and which place is required.
//
// All of it is computed from sets of members: those that hold a place, those of the groups around it, those
// that cannot be nothing, those that have begun. If the table describes no model, or the bits are not those
// of the places taken in it, the result of `take` is unspecified, except that it is none or a place and that
// the bits of every other level are unchanged.
#![tactic(auto)]

ghost use Rattle.std.specs.Prelude.{ℕ, ◌-◌, ◌≤◌, ◌<◌, IfSome};
ghost use Rattle.layout.specs.declared.Place.{Place};
ghost use Rattle.rules.specs.Bytes.{GRPGTCNT, TAGLVL, element_limit};
ghost use Rattle.layout.specs.Sizes.{AND_GROUPS, ENDING};
ghost use Rattle.member_laws.specs.Members.{group_at};
ghost use Rattle.member_bits.specs.Having.{number_of};
ghost use Rattle.and_groups.specs.Takes.{answer_of, Takes};
ghost use Rattle.and_groups.specs.Asked.{Enters, Blocks, Alone, Due};

use layout::{AND_GROUPS, BEGUN, ENDING, ElementNo, GRPGTCNT, MEMBERS, Place};
use member_bits::Bits;
use member_numbers::Members;

// The member h and those that hold its group begin, where those of b had.
fn entered(m: Members, h: usize, b: Bits) -> Bits
    requires { h < ENDING }
    ensures { Enters m.entry.table.now m.entry.e.0 h b result }
{
    if h == 0 {
        return b;
    }
    if GRPGTCNT < h {
        return b;
    }
    let g = m.group_of(h);
    if AND_GROUPS < g {
        return b;
    }
    b.with(h) | m.holding(g)
}

// The first member that the first group from the member `inner` outwards lacks, where the member at hand can
// end, and so can those between. Members count in the order of their groups, and groups from the inner to the
// outer ones.
fn blocking(m: Members, inner: usize, b: Bits) -> Option<usize>
    requires { inner ≤ 255 }
    ensures some { IfSome result (λ (x : ℕ). 1 ≤ x) }
    ensures value { Blocks m.entry.table.now m.entry.e.0 inner b (number_of result) }
{
    if inner <= ENDING {
        return None;
    }
    let g = m.group_of(inner - ENDING);
    if AND_GROUPS < g {
        return None;
    }
    let needed = m.among(g) & m.needed();
    let x = (needed - b).first()?;
    if m.reach_of(g) < m.group_of(x) {
        return None;
    }
    Some(x)
}

// Whether no member `next` is of the group of the member x.
fn is_alone(m: Members, x: usize, next: Option<usize>) -> bool
    requires few { (x ≤ 128) × (number_of next ≤ 128) }
    requires some { IfSome next (λ (y : ℕ). 1 ≤ y) }
    ensures { Alone m.entry.table.now m.entry.e.0 x (number_of next) result }
{
    match next {
        None => true,
        Some(y) => m.group_of(y) != m.group_of(x),
    }
}

// The place that is required where the first group from the member `inner` outwards that lacks a member lacks x first: that of x, if no other of its group has not
// begun, or 0. Those of its group that come before it have.
// Kept: `Place(0)` for none: (plainer) the rules' `required` is 0 there, and the state keeps it so.
fn required_in(m: Members, inner: usize, x: usize, b: Bits) -> Place
    requires inner_few { (ENDING < inner) × (inner ≤ 255) × (x ≤ 128) }
    requires inner_bound { group_at m.table.now m.e.0 (inner - ENDING) ≤ AND_GROUPS }
    ensures { Due m.entry.table.now m.entry.e.0 inner x b result.0 }
{
    if GRPGTCNT < x {
        return Place(0);
    }
    let g = m.group_of(inner - ENDING);
    let idle = m.among(g) - b;
    let y = idle.above(x).first();
    if !is_alone(m, x, y) {
        return Place(0);
    }
    let p = m.required_of(x);
    if GRPGTCNT < p.0 {
        return Place(0);
    }
    p
}

// The place p of the element e is taken at the level, after the place u; where this is 0, nothing has begun.
// Where a group lacks a member that must come before anything behind the group, the place that is required
// there, or 0; none where no group does. What follows is written for both cases: so large it stays out of the
// loop over tokens, where it would cost documents of types without "&" a tenth of their time.
// Kept: `Place(0)` in what is answered (fixed: it goes on as the required place, a byte of the open element).
pub fn take(
    members: &[u8],
    begun: &mut [u32; BEGUN],
    level: usize,
    e: ElementNo,
    u: Place,
    p: Place,
) -> Option<Place>
    requires { (level ≤ TAGLVL) × (e.0 ≤ element_limit) × (u.0 ≤ GRPGTCNT) × (p.0 ≤ GRPGTCNT) }
    ensures few { IfSome result (λ (x : Place). x.0 ≤ GRPGTCNT) }
    ensures value { Takes members.now level e.0 u.0 p.0 begun.old begun.new (answer_of result) }
{
    if members.len() < MEMBERS {
        return None;
    }
    let m = Members { table: members, e };
    let h = m.holder(p);
    if u.0 == 0 {
        let first = entered(m, h % ENDING, Bits::none());
        begun_bits::put(begun, level, first);
        let x = blocking(m, h, first)?;
        return Some(required_in(m, h, x, first));
    }
    let now = entered(m, h % ENDING, begun_bits::begun_at(begun, level));
    begun_bits::put(begun, level, now);
    let y = blocking(m, h, now)?;
    Some(required_in(m, h, y, now))
}
