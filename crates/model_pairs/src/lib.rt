// The first pair of places at fault in a content model.
#![tactic(auto)]

ghost use Rattle.std.specs.Prelude.{◌≡◌, Bool, true, false, ◌||◌, MatchOption, IfSome, unwrap_or, ℕ, suc, ◌+◌, ◌-◌, ◌*◌, ◌≤◌, ◌<◌, get_or};
ghost use Rattle.rules.specs.Bytes.{GRPGTCNT};
ghost use Rattle.layout.specs.Sizes.{MODEL_ROW, POSITIONS};
ghost use Rattle.model_sets.specs.Search.{find_from, search_pair};
ghost use Rattle.model_code.specs.Six.{Told};
ghost use Rattle.model_names.specs.Places.{place_in, key_of};
ghost use Rattle.model_pairs.specs.Rows.{is_next, row_in, clash_in, Tells, fault_in, numbers_of};

use layout::{MODEL, MODEL_ROW, NAMES, POSITIONS};

// Two places, the smaller number first.
#[derive(Drop)]
pub struct Pair {
    pub first: usize,
    pub second: usize,
}

// The places that may come next after u, or at the start where u is 0: 1 at their numbers.
fn next_after(table: &[u8; MODEL], u: usize) -> [u8; POSITIONS]
    requires { u ≤ GRPGTCNT }
    ensures { (q : ℕ) → q < POSITIONS → get_or result q 0 ≡ get_or table.now (u * MODEL_ROW + q) 0 }
{
    let mut next = [0u8; POSITIONS];
    next.copy_from_slice(&table[u * MODEL_ROW..u * MODEL_ROW + POSITIONS]);
    next
}

// The set with the places of `next` in it.
fn with_next(next: [u8; POSITIONS], set: [bool; POSITIONS]) -> [bool; POSITIONS]
    ensures { (q : ℕ) → q < POSITIONS → get_or result q false ≡ get_or set q false || is_next (get_or next q 0) }
{
    let mut more = set;
    for q in 0..POSITIONS {
        if next[q] == 1 {
            more[q] = true;
        }
    }
    more
}

// The places that may come next somewhere where p may, in a model with n places.
fn beside(table: &[u8; MODEL], n: usize, p: usize) -> [bool; POSITIONS]
    requires { (n ≤ GRPGTCNT) × (p ≤ GRPGTCNT) }
    ensures { (q : ℕ) → q < POSITIONS → get_or result q false ≡ clash_in (row_in table.now) n p q }
{
    let mut set = [false; POSITIONS];
    for u in 0..n + 1 {
        if table[u * MODEL_ROW + p] == 1 {
            let more = with_next(next_after(table, u), set);
            set = more;
        }
    }
    set
}

// A model that was read: the type file, the names of its n places, its table, how many numbers of code it has, and
// whether it has an "&".
#[derive(Clone, Copy)]
struct Whole<'a> {
    s: &'a [u8],
    names: &'a [u32; NAMES],
    table: &'a [u8; MODEL],
    n: usize,
    code: usize,
    and: bool,
}

// Whether p and q, which some row has both, can both come next after one beginning. Without "&" the last place decides, so they can.
fn is_fault(m: Whole, p: usize, q: usize) -> bool
    ensures { (m.entry.and ≡ false → result ≡ true)
        × (m.entry.and ≡ true → Told m.entry.table.now p q m.entry.code result) }
{
    !m.and || model_code::clash(m.table, m.code, p, q)
}

// The first place after p that is at fault with it.
fn partner(m: Whole, keys: &[u32; POSITIONS], p: usize) -> Option<usize>
    requires n_bound { (m.n ≤ GRPGTCNT) × (1 ≤ p) × (p ≤ m.n) }
    requires by_index { (x : ℕ) → 1 ≤ x → x ≤ m.n →
        get_or keys.now x 0 ≡ key_of m.s.now (place_in m.names.now (x - 1)) }
    ensures by_index_2 { (F : ℕ → ℕ → Bool) → Tells m.entry.table.now m.entry.n m.entry.code m.entry.and F →
        unwrap_or result 0
        ≡ find_from (fault_in m.entry.s.now m.entry.names.now F m.entry.n p) (m.entry.n - p) (suc p) }
    ensures fact { IfSome result (λ q. (p < q) × (q ≤ m.entry.n)) }
{
    if !same_names::shares_key(keys, m.n, p) {
        return None;
    }
    let mut q = same_names::same_name(m.s, m.names, keys, m.n, p, p + 1)?;
    let near = beside(m.table, m.n, p);
    loop {
        if near[q] && is_fault(m, p, q) {
            return Some(q);
        }
        q = same_names::same_name(m.s, m.names, keys, m.n, p, q + 1)?;
    }
}

// The model's first pair at fault: s is the type file, `names` and `table` are those of the model, n is how many places it has,
// `code` how many numbers of code, `and` whether it has an "&".
pub fn first_pair(
    s: &[u8],
    names: &[u32; NAMES],
    table: &[u8; MODEL],
    n: usize,
    code: usize,
    and: bool,
) -> Option<Pair>
    requires { n ≤ GRPGTCNT }
    ensures by_index { (F : ℕ → ℕ → Bool) → Tells table.now n code and F →
        numbers_of result ≡ search_pair (fault_in s.now names.now F n) n }
    ensures fact { IfSome result (λ r. (1 ≤ r.first) × (r.first < r.second) × (r.second ≤ n)) }
{
    let keys = same_names::keys_of(s, names, n);
    let m = Whole {
        s: s,
        names: names,
        table: table,
        n: n,
        code: code,
        and: and,
    };
    for p in 1..n + 1 {
        if let Some(q) = partner(m, &keys, p) {
            return Some(Pair {
                first: p,
                second: q,
            });
        }
    }
    None
}
