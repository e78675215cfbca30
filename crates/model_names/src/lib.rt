// The names of a model's places: the offset of each in the type file, and its length.
#![tactic(auto)]

ghost use Rattle.std.specs.Prelude.{◌≡◌, [], ◌∷◌, ◌++◌, ℕ, ◌+◌, ◌*◌, ◌-◌, ◌≤◌, ◌<◌, get_or, set};
ghost use Rattle.rules.specs.Bytes.{byte_at, fold, GRPGTCNT};
ghost use Rattle.rules.specs.Judge.{same_place};
ghost use Rattle.layout.specs.Sizes.{NAMES};
ghost use Rattle.model_names.specs.Places.{place_in, places_of, key_of};

use layout::NAMES;

// The next place is written down: where its name stands and how long it is, 0 for `#PCDATA`.
pub fn put_name(names: &mut [u32; NAMES], places: usize, at: usize, size: usize)
    requires { (places < GRPGTCNT) × (at < 4294967296) × (size < 4294967296) }
    ensures { (places_of names.new (places + 1) ≡ places_of names.old places ++ record { at = at; size = size } ∷ [])
        × (names.new ≡ set (set names.old (2 * places) at) (2 * places + 1) size) }
{
    names[2 * places] = at as u32;
    names[2 * places + 1] = size as u32;
}

// A number of the table.
fn number(names: &[u32; NAMES], k: usize) -> usize
    requires { k < NAMES }
    ensures { (result ≡ get_or names.now k 0) × (result < 4294967296) }
{
    numbers::widened(names[k])
}

// Where the place p stands.
pub fn place_at(names: &[u32; NAMES], p: usize) -> usize
    requires { (1 ≤ p) × (p ≤ GRPGTCNT) }
    ensures { (result ≡ (place_in names.now (p - 1)).at) × (result < 4294967296) }
{
    number(names, 2 * (p - 1))
}

// How long the name of the place p is.
fn place_size(names: &[u32; NAMES], p: usize) -> usize
    requires { (1 ≤ p) × (p ≤ GRPGTCNT) }
    ensures { (result ≡ (place_in names.now (p - 1)).size) × (result < 4294967296) }
{
    number(names, 2 * (p - 1) + 1)
}

// Whether the places p and q of a model with n places have the same name.
pub fn same_place(s: &[u8], names: &[u32; NAMES], p: usize, q: usize) -> bool
    requires { (1 ≤ p) × (p ≤ GRPGTCNT) × (1 ≤ q) × (q ≤ GRPGTCNT) }
    ensures { (n : ℕ) → p ≤ n → q ≤ n → result ≡ same_place s.now (places_of names.now n) p q }
{
    let n = place_size(names, p);
    n == place_size(names, q) && words::same_text(s, place_at(names, p), s, place_at(names, q), n)
}

// A number that places of the same name share: most others are told apart by it.
pub fn key(s: &[u8], names: &[u32; NAMES], p: usize) -> u32
    requires { (1 ≤ p) × (p ≤ GRPGTCNT) }
    ensures { result ≡ key_of s.now (place_in names.now (p - 1)) }
{
    let n = place_size(names, p);
    if n == 0 {
        return 0;
    }
    let at = place_at(names, p);
    let a = folded_at(s, at);
    let b = folded_at(s, at + (n - 1));
    let c = folded_at(s, at + n / 2);
    (a * 256 + b) * 256 + c
}

// The byte at a place of the text, folded.
fn folded_at(s: &[u8], at: usize) -> u32
    ensures { (result ≡ fold (byte_at s.now at)) × (result < 256) }
{
    u32::from(text::folded(text::byte(s, at)))
}
