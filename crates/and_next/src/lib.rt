// Which place may come next after what has begun of the "&" groups of an open element.
//
// A place is forbidden by a member: one that must come first, of a group that would be left, or the one that
// contains the place, if it has begun and was left. If the table describes no model, or the bits are not
// those of the places taken in it, the result of `may_follow` is unspecified.
#![tactic(auto)]

ghost use Rattle.std.specs.Prelude.{◌≤◌, ◌<◌};
ghost use Rattle.rules.specs.Bytes.{GRPGTCNT, TAGLVL, element_limit};
ghost use Rattle.layout.specs.Sizes.{AND_GROUPS};
ghost use Rattle.and_next.specs.Follows.{Follows};
ghost use Rattle.and_next.specs.Forbidding.{IsFull, IsLeft, Comes};

use layout::{AND_GROUPS, BEGUN, ENDING, ElementNo, GRPGTCNT, MEMBERS, Place};
use member_bits::Bits;
use member_numbers::Members;

// A member and its group.
#[derive(Clone, Copy)]
struct Member {
    number: usize,
    group: usize,
    ghost one: { 1 ≤ number },
    ghost few: { number ≤ GRPGTCNT },
    ghost grouped: { group ≤ AND_GROUPS },
}

// Whether no group from the group g outwards lacks a member.
fn is_full(m: Members, g: usize, b: Bits) -> bool
    requires { g ≤ AND_GROUPS }
    ensures { IsFull m.entry.table.now m.entry.e.0 g b result }
{
    let needed = m.among(g) & m.needed();
    (needed - b).is_none()
}

// Whether p may come next, in the member `next`, where u is in the member `last`: the groups around u that p
// is not in lack nothing, and in the first that p is in its member is that of u or has not begun.
fn is_left(m: Members, last: Member, next: Member, b: Bits) -> bool
    ensures { IsLeft m.entry.table.now m.entry.e.0 last.number last.group next.number next.group b result }
{
    let around = m.among(last.group);
    let beside = around - m.among(next.group);
    let lacking = (beside & m.needed()) - b;
    let hold = m.holding(next.group).with(next.number);
    let own = m.holding(last.group).with(last.number);
    let again = (hold - own) & around & b;
    (lacking | again).is_none()
}

// Whether p may come next, of which i is the innermost member that holds it, or 0, and h that of u.
// Kept: 0 for none, and no Option (fixed: `Comes` and the table's numbers have 0 for none).
fn may_come(m: Members, h: usize, i: usize, b: Bits) -> bool
    requires { (1 ≤ h) × (h ≤ GRPGTCNT) × (i ≤ GRPGTCNT) }
    ensures { Comes m.entry.table.now m.entry.e.0 h i b result }
{
    let g = m.group_of(h);
    if AND_GROUPS < g {
        return true;
    }
    if i == 0 {
        return is_full(m, g, b);
    }
    let f = m.group_of(i);
    if f == g {
        if h == i {
            return true;
        }
        return !b.has(i);
    }
    if AND_GROUPS < f {
        return true;
    }
    let last = Member {
        number: h,
        group: g,
    };
    let next = Member {
        number: i,
        group: f,
    };
    is_left(m, last, next, b)
}

// Whether p, which may come next after u for some beginning, may come next where these members have begun.
pub fn may_follow(
    members: &[u8],
    begun: &[u32; BEGUN],
    level: usize,
    e: ElementNo,
    u: Place,
    p: Place,
) -> bool
    requires { (level ≤ TAGLVL) × (e.0 ≤ element_limit) × (u.0 ≤ GRPGTCNT) × (p.0 ≤ GRPGTCNT) }
    ensures { Follows members.now level e.0 u.0 p.0 begun.now result }
{
    if members.len() < MEMBERS {
        return true;
    }
    let m = Members { table: members, e };
    let h = m.holder(u) % ENDING;
    let i = m.holder(p) % ENDING;
    if h == 0 {
        return true;
    }
    if GRPGTCNT < h {
        return true;
    }
    if GRPGTCNT < i {
        return true;
    }
    may_come(m, h, i, begun_bits::begun_at(begun, level))
}
