// The places of a content model that have the same name, found by their keys.
#![tactic(auto)]

ghost use Rattle.std.specs.Prelude.{◌≡◌, true, MatchOption, ℕ, suc, ◌+◌, ◌-◌, ◌≤◌, ◌<◌, get_or};
ghost use Rattle.rules.specs.Judge.{same_place};
ghost use Rattle.rules.specs.Bytes.{GRPGTCNT};
ghost use Rattle.model_names.specs.Places.{place_in, places_of, key_of};
ghost use Rattle.same_names.specs.Keys.{any_key};

use layout::{NAMES, POSITIONS};

// The keys of the places of a model with n places, at their numbers. Number 0 and those past n are not decided.
pub fn keys_of(s: &[u8], names: &[u32; NAMES], n: usize) -> [u32; POSITIONS]
    requires { n ≤ GRPGTCNT }
    ensures { (p : ℕ) → 1 ≤ p → p ≤ n → get_or result p 0 ≡ key_of s.now (place_in names.now (p - 1)) }
{
    let mut keys = [0u32; POSITIONS];
    for p in 1..n + 1 {
        keys[p] = model_names::key(s, names, p);
    }
    keys
}

// The first of the places from q to n that has the name of p.
pub fn same_name(
    s: &[u8],
    names: &[u32; NAMES],
    keys: &[u32; POSITIONS],
    n: usize,
    p: usize,
    q: usize,
) -> Option<usize>
    requires n_bound { (n ≤ GRPGTCNT) × (1 ≤ p) × (p ≤ n) × (1 ≤ q) × (q ≤ n + 1) }
    requires by_index { (x : ℕ) → 1 ≤ x → x ≤ n → get_or keys.now x 0 ≡ key_of s.now (place_in names.now (x - 1)) }
    ensures { MatchOption result
        ((x : ℕ) → q ≤ x → x ≤ n → same_place s.now (places_of names.now n) p x ≡ true → ⊥)
        (λ r. (q ≤ r) × (r ≤ n)
        × ((x : ℕ) → q ≤ x → x < r → same_place s.now (places_of names.now n) p x ≡ true → ⊥)
        × (same_place s.now (places_of names.now n) p r ≡ true)) }
{
    let key = keys[p];
    for i in q..n + 1 {
        if keys[i] == key && model_names::same_place(s, names, p, i) {
            return Some(i);
        }
    }
    None
}

// Whether a place after p shares its key. The loop has no way out, so that it goes by several keys at a time.
pub fn shares_key(keys: &[u32; POSITIONS], n: usize, p: usize) -> bool
    requires { (n ≤ GRPGTCNT) × (p ≤ n) }
    ensures { result ≡ any_key keys.now (get_or keys.now p 0) (n - p) (suc p) }
{
    let key = keys[p];
    let mut some = false;
    for x in p + 1..n + 1 {
        if keys[x] == key {
            some = true;
        }
    }
    some
}
