// All tables of an accepted type, filled in one call: the lists of its attributes, the index of its elements' names, and the tables of its models with those
// of "&" groups.
#![tactic(auto)]

ghost use Rattle.std.specs.Prelude.{◌≡◌, ℕ, length, replicate};
ghost use Rattle.rules.specs.Settings.{settings};
ghost use Rattle.layout.specs.Sizes.{INDEX, ROWS, PLACES, FACTS, MEMBERS, LISTS};
ghost use Rattle.type_stage.specs.Stages.{JudgedHeads};
ghost use Rattle.full_tables.specs.And.{Tells};
ghost use Rattle.full_tables.specs.Full.{Full};

use layout::{ELEMENTS, FACTS, INDEX, PLACES, RECORDS, ROWS};

// Whether an "&" stands anywhere in the text: a type without one needs no table of members.
// Kept: no `any`: (tried-speed) the loop has no way out, so that it goes by several bytes at a time.
pub fn holds_and(s: &[u8]) -> bool
    ensures { Tells s.now (length s.now) result }
{
    let mut some = false;
    for b in s {
        some |= *b == b'&';
    }
    some
}

// The tables of an accepted type whose n elements are recorded, and whose lists stand at `heads`, in whatever
// edition. All of them are 0 before.
// Kept: the tables one by one: (plainer) a struct of `&mut` would need in the contract that each field stays
// the same reference.
pub fn fill(
    long: usize,
    s: &[u8],
    elements: &[u32; RECORDS],
    heads: &[u16; ELEMENTS],
    n: usize,
    lists: &mut [u16],
    index: &mut [u8; INDEX],
    rows: &mut [u8; ROWS],
    places: &mut [u8; PLACES],
    facts: &mut [u8; FACTS],
    members: &mut [u8],
)
    requires by_index { (edition : ℕ) × JudgedHeads (settings long edition) s.now elements.now heads.now n }
    requires lists_value { (lists.old ≡ replicate LISTS 0) × (index.old ≡ replicate INDEX 0) × (members.old ≡ replicate MEMBERS 0) }
    requires rows_value { (rows.old ≡ replicate ROWS 0) × (places.old ≡ replicate PLACES 0) × (facts.old ≡ replicate FACTS 0) }
    ensures { (edition : ℕ) → JudgedHeads (settings long edition) s.now elements.now heads.now n →
        Full (settings long edition) s.now elements.now index.new rows.new places.new facts.new members.new lists.new }
{
    attribute_lists::fill(long, s, heads, n, lists);
    element_index::fill_index(s, elements, n, index);
    table_fill::fill(
        long, s, elements, lists, n, index, rows, places, facts, members,
    );
}
