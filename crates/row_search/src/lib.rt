// The place of a name that may come next, searched in the rows and along the links of a type's tables, which
// the crate type_tables describes.
//
// Whatever the tables hold, each function terminates and stays within them: a link that does not decrease
// ends the search. If the places of a name are not linked so, or rows and bits are not those of a type, the
// result is unspecified, except that it is at most 96.
#![tactic(auto)]

ghost use Rattle.std.specs.Prelude.{◌≡◌, ◌+◌, ◌*◌, ◌/◌, ◌%◌, ◌≤◌, ◌<◌};
ghost use Rattle.rules.specs.Bytes.{GRPGTCNT, TAGLVL, element_limit};
ghost use Rattle.layout.specs.Sizes.{POSITIONS};
ghost use Rattle.layout.specs.declared.Place.{Place};
ghost use Rattle.row_search.specs.Rows.{row_at, next_bit, link_at, Largest, LargestRaised, RowSays, BothSay};

use layout::{BEGUN, ElementNo, GRPGTCNT, LINK, PLACES, POSITIONS, Place, RAISE, ROW, ROWS};

// Where the row of the element e after the place u begins.
pub fn row(e: ElementNo, u: Place) -> usize
    requires { (e.0 ≤ element_limit) × (u.0 ≤ GRPGTCNT) }
    ensures { result ≡ row_at e.0 u.0 }
{
    (e.0 * POSITIONS + u.0) * ROW
}

// Whether the row of the element e after the place u has the place p.
fn bit(rows: &[u8; ROWS], e: ElementNo, u: Place, p: Place) -> bool
    requires { (e.0 ≤ element_limit) × (u.0 ≤ GRPGTCNT) × (p.0 ≤ GRPGTCNT) }
    ensures { result ≡ next_bit rows.now e.0 u.0 p.0 }
{
    let b = numbers::wide(rows[row(e, u) + p.0 / 8]);
    (b >> (p.0 % 8)) % 2 == 1
}

// The next smaller place of the same name.
fn smaller(places: &[u8; PLACES], e: ElementNo, p: Place) -> Place
    requires { (e.0 ≤ element_limit) × (p.0 ≤ GRPGTCNT) }
    ensures { result.0 ≡ link_at places.now e.0 p.0 }
{
    Place(numbers::wide(places[(e.0 * POSITIONS + p.0) * LINK + 1]))
}

// The largest of the place p and the smaller ones of its name, which are linked downwards, that may come
// next, or 0.
// Kept: `Place(0)` for none: (plainer) the links, the facts and the rules' `fits` have 0 there too.
fn search<F: Fn(Place) -> bool>(places: &[u8; PLACES], e: ElementNo, p: Place, may_come: F) -> Place
    requires place { (e.0 ≤ element_limit) × (p.0 ≤ GRPGTCNT) }
    requires callable { (q : Place) → q.0 ≤ GRPGTCNT → F.pre may_come q }
    ensures { Largest (λ q b. F.post may_come (record { 0 = q }) b) places.now e.0 p.0 result.0 }
{
    let mut q = p;
    while q.0 != 0 {
        if may_come(q) {
            return q;
        }
        let below = smaller(places, e, q);
        if q.0 <= below.0 {
            return Place(0);
        }
        q = below;
    }
    q
}

// The largest of the place p and the smaller ones of its name that the row of the element e after the place u
// has, or 0. Where there is no such place it is told at once, before the row is looked for.
pub fn largest(rows: &[u8; ROWS], places: &[u8; PLACES], e: ElementNo, u: Place, p: Place) -> Place
    requires { (e.0 ≤ element_limit) × (u.0 ≤ GRPGTCNT) × (p.0 ≤ GRPGTCNT) }
    ensures { Largest (RowSays rows.now e.0 u.0) places.now e.0 p.0 result.0 }
{
    search(places, e, p, |q| bit(rows, e, u, q))
}

// The largest of the place p - `RAISE` and the smaller ones of its name that may come next in the element e, whose model has an "&", after the place u at the
// level, or 0.
pub fn largest_among(
    rows: &[u8; ROWS],
    places: &[u8; PLACES],
    members: &[u8],
    begun: &[u32; BEGUN],
    level: usize,
    e: ElementNo,
    u: Place,
    p: Place,
) -> Place
    requires { (level ≤ TAGLVL) × (e.0 ≤ element_limit) × (u.0 ≤ GRPGTCNT) }
    ensures { LargestRaised (BothSay rows.now members.now begun.now level e.0 u.0) places.now e.0 p.0
        result.0 }
{
    if p.0 < RAISE {
        return Place(0);
    }
    let q = Place(p.0 - RAISE);
    if GRPGTCNT < q.0 {
        return Place(0);
    }
    search(
        places,
        e,
        q,
        |q|
            requires { (level ≤ TAGLVL) × (e.0 ≤ element_limit) × (u.0 ≤ GRPGTCNT) × (q.0 ≤ GRPGTCNT) }
            ensures { BothSay rows.entry.now members.entry.now begun.entry.now level e.0 u.0 q.0 result }
        { bit(rows, e, u, q) && and_next::may_follow(members, begun, level, e, u, q) },
    )
}
