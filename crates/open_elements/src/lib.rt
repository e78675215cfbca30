// The open elements from token to token: what is taken, opened and ended in them.
#![tactic(auto)]

ghost use Rattle.std.specs.Prelude.{◌≡◌, true, ◌+◌, ◌-◌, ◌≤◌, ◌<◌, IfSome};
ghost use Rattle.rules.specs.Settling.{shown, is_open};
ghost use Rattle.rules.specs.Bytes.{GRPGTCNT, TAGLVL, element_limit};
ghost use Rattle.layout.specs.Sizes.{RAISE};
ghost use Rattle.layout.specs.declared.Place.{Place};
ghost use Rattle.and_groups.specs.Takes.{answer_of};
ghost use Rattle.open_elements.specs.Stands.{entry, fresh, opening, ended, bare, Ranged, Weighs, Taking, Starting};

use layout::{BEGUN, ElementNo, GRPGTCNT, Place, RAISE, ROWS, TAGLVL};
use type_tables::TypeTables;

// An open element, the place that was taken last in it, or 0, and its marks: whether its content is complete
// there, and the place that is required, or 0. Each number is kept in a byte: `of` alone puts them there, and
// the methods alone read them.
// Kept: bytes with 0 for none (fixed: 24 entries by value, in fixed memory).
#[derive(Clone, Copy)]
pub struct Entry {
    pub element: u8,
    pub place: u8,
    pub complete: bool,
    pub required: u8,
}

// The state from token to token: what lies around the current element, the outermost first: the document
// itself, then the open elements down to its parent; how many are open; the current element, the place that
// was taken last in it and its marks. Where nothing is open the current element is the document itself
// (element 0).
//
// A method that reaches into the array copies it to a local and puts it back: so it stays in one place.
#[derive(Clone, Copy)]
pub struct OpenElements {
    pub around: [Entry; TAGLVL],
    pub count: usize,
    pub element: ElementNo,
    pub place: Place,
    pub complete: bool,
    pub required: Place,
}

// What a token brought that is not refused: the state, and how many events there are now in all.
#[derive(Clone, Copy)]
pub struct Outcome {
    pub open: OpenElements,
    pub events: usize,
}

// The marks of an open element: whether its content is complete, and the place that is required, or 0.
// Kept: 0 for none (fixed: it becomes the byte of an entry).
#[derive(Drop)]
struct Marks {
    complete: bool,
    required: Place,
}

// The place as the event of a start has it, which took it in this parent: the document itself stands in no
// model, so that the document element has 0.
pub fn place_shown(parent: ElementNo, place: Place) -> Place
    requires { place.0 ≤ GRPGTCNT }
    ensures { (result.0 ≡ shown parent.0 place.0) × (result.0 ≤ GRPGTCNT) }
{
    if parent.0 == 0 {
        return Place(0);
    }
    place
}

// The marks of an element whose model has an "&", where the row has these and the groups around the place
// answer m (`take` of and_groups): the row's, if no group lacks a member; else the content is not complete,
// and m is required.
fn weighed(m: Option<Place>, complete: bool, kept: Place) -> Marks
    requires { IfSome m (λ (x : Place). x.0 ≤ GRPGTCNT) }
    ensures { Weighs (answer_of m) complete kept.0 result.complete result.required.0 }
{
    match m {
        Some(due) => Marks {
            complete: false,
            required: due,
        },
        None => Marks {
            complete,
            required: lowered(kept),
        },
    }
}

// The place that is kept higher by `RAISE`, or 0. Of one that is not kept so the answer is not decided, but
// that it is at most 96.
fn lowered(kept: Place) -> Place
    ensures { (result.0 ≤ GRPGTCNT) ×
        (GRPGTCNT < kept.0 → kept.0 ≤ RAISE + GRPGTCNT → result.0 ≡ kept.0 - RAISE) }
{
    let n = kept.0 % RAISE;
    if GRPGTCNT < n {
        return Place(0);
    }
    Place(n)
}

impl Entry {
    // What is kept of an open element.
    fn of(element: ElementNo, place: Place, complete: bool, required: Place) -> Self
        requires { (element.0 ≤ element_limit) × (place.0 ≤ GRPGTCNT) × (required.0 ≤ GRPGTCNT) }
        ensures { result ≡ entry element.0 place.0 complete required.0 }
    {
        Entry {
            element: element.0 as u8,
            place: place.0 as u8,
            complete: complete,
            required: required.0 as u8,
        }
    }

    // The element.
    fn number(self) -> ElementNo
        ensures { result.0 ≡ self.element }
    {
        ElementNo(numbers::wide(self.element))
    }
}

impl OpenElements {
    // Nothing is open yet: the document element is required.
    pub fn new() -> Self
        ensures { result ≡ fresh }
    {
        let document = ElementNo(0);
        let none = Place(0);
        let first = Place(1);
        OpenElements {
            around: [Entry {
                element: 0,
                place: 0,
                complete: false,
                required: 0,
            }; TAGLVL],
            count: 0,
            element: document,
            place: none,
            complete: false,
            required: first,
        }
    }

    // The place is taken in the current element: its marks are those after this place. It stands in both of
    // its callers: where it is called the state is copied, which takes the reader a sixth more instructions.
    #[inline(always)]
    pub fn take(mut self, t: TypeTables, begun: &mut [u32; BEGUN], place: Place) -> Self
        requires { Ranged self × (place.0 ≤ GRPGTCNT) }
        ensures { Taking t.entry.rows.now t.entry.members.now begun.old place.0 self result begun.new }
    {
        let n = self.count;
        let e = self.element;
        let u = self.place;
        let kept = type_tables::kept(t.rows, e, place);
        let mut complete = type_tables::complete(t.rows, e, place);
        let mut required = kept;
        if GRPGTCNT < kept.0 {
            let m = and_groups::take(t.members, begun, n, e, u, place);
            let marks = weighed(m, complete, kept);
            complete = marks.complete;
            required = marks.required;
        }
        self.place = place;
        self.complete = complete;
        self.required = required;
        self
    }

    // The element is opened in the current one, which is kept; its marks are those of its start.
    pub fn start(mut self, rows: &[u8; ROWS], element: ElementNo) -> Self
        requires { Ranged self × (self.count < TAGLVL) × (element.0 ≤ element_limit) }
        ensures { result ≡ opening rows.now element.0 self }
    {
        let n = self.count;
        let e = self.element;
        let u = self.place;
        let q = self.required;
        let none = Place(0);
        let kept = Entry::of(e, u, self.complete, q);
        let mut around = self.around;
        around[n] = kept;
        self.around = around;
        self.count = n + 1;
        self.element = element;
        self.place = none;
        self.complete = type_tables::complete(rows, element, none);
        self.required = type_tables::required(rows, element, none);
        self
    }

    // The required place is taken in the current element, which is kept, and its element opened in it.
    pub fn start_required(self, t: TypeTables, begun: &mut [u32; BEGUN], element: ElementNo) -> Self
        requires { Ranged self × (self.count < TAGLVL) × (element.0 ≤ element_limit) }
        ensures { Starting t.entry.rows.now t.entry.members.now begun.old element.0 self result begun.new }
    {
        let place = self.required;
        self.take(t, begun, place).start(t.rows, element)
    }

    // The current element has ended: its parent is the current one again, as it was kept.
    pub fn end(mut self) -> Self
        requires { Ranged self × (1 ≤ self.count) }
        ensures { result ≡ ended self }
    {
        let n = self.count - 1;
        let around = self.around;
        let parent = around[n];
        let place = Place(numbers::wide(parent.place));
        let required = Place(numbers::wide(parent.required));
        self.count = n;
        self.element = parent.number();
        self.place = place;
        self.complete = parent.complete;
        self.required = required;
        self
    }

    // The current element's end is inferred: its content is complete. The caller notes it as an event.
    pub fn infer_end(self) -> Self
        requires { Ranged self × (1 ≤ self.count) × (self.complete ≡ true) }
        ensures { result ≡ ended self }
    {
        self.end()
    }

    // Whether the element x is open.
    pub fn is_open(self, x: ElementNo) -> bool
        requires { Ranged self }
        ensures { result ≡ is_open x.0 (bare self) }
    {
        let e = self.element;
        if e.0 == x.0 {
            return true;
        }
        let around = self.around;
        for i in (0..self.count).rev() {
            let c = around[i];
            let k = c.number();
            if k.0 == x.0 {
                return true;
            }
        }
        false
    }
}
