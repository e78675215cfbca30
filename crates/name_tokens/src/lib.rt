// Name token groups: tokens joined by one connector, each for the first time in its list.
//
// `seen` has the tokens of a list so far: for each its offset and length.
//
// Kept: two numbers of 16 bits a token in one array (fixed: no heap, fixed memory).
// Kept: how many of them are tokens is handed on beside it (plainer: a refusal leaves `seen` undecided and
// the count as it was, so that a struct of both would say less than a count in what was read).
#![tactic(auto)]

ghost use Rattle.std.specs.Prelude.{◌≡◌, ◌&&◌, ◌||◌, List, [], ◌∷◌, ◌++◌, ◌+◌, ◌≤◌, ◌<◌, ◌*◌, length, eqb};
ghost use Rattle.rules.specs.Bytes.{ATTCNT, DSO, GRPCNT, PERO, type_limit};
ghost use Rattle.rules.specs.Attributes.{Part};
ghost use Rattle.rules.specs.TypeFile.{same_name, is_token, is_token_connector, group_token, token_group};
ghost use Rattle.layout.specs.Sizes.{TOKENS};
ghost use Rattle.name_tokens.specs.Tokens.{part_in, parts_of, token_of, TokenIn, MeetsGroup, GroupIn};

use layout::{GRPCNT, TOKENS};
use text::{Reading, Refusal};

// How many tokens the list has now, and where the group ends.
#[derive(Clone, Copy, Debug, PartialEq, Eq)]
pub struct Tokens {
    pub count: usize,
    pub at: usize,
}

// Whether the k-th token, from 0, is the one of this size at `at`, folded.
fn is_same(s: &[u8], seen: &[u16; TOKENS], k: usize, at: usize, size: usize) -> bool
    requires { (k < GRPCNT * ATTCNT) × (at < 4294967296) × (size < 4294967296) }
    ensures { result ≡ same_name s.now (part_in seen.now k).at (part_in seen.now k).size at size }
{
    let m = numbers::short(seen[2 * k + 1]);
    if m != size {
        return false;
    }
    words::same_text(s, numbers::short(seen[2 * k]), s, at, size)
}

// Whether one of the first n tokens is the one of this size at `at`, folded.
fn is_seen(s: &[u8], seen: &[u16; TOKENS], n: usize, at: usize, size: usize) -> bool
    requires { (n ≤ GRPCNT * ATTCNT) × (at < 4294967296) × (size < 4294967296) }
    ensures { result ≡ is_token s.now (parts_of seen.now n) at size }
{
    for k in 0..n {
        if is_same(s, seen, k, at, size) {
            return true;
        }
    }
    false
}

// Whether a byte where a token may stand begins a form that is left out: "[" or "%".
fn is_left_out(b: u8) -> bool
    ensures { result ≡ (eqb b DSO || eqb b PERO) }
{
    b == b'[' || b == b'%'
}

// The token at i, the k-th of its group from 0, after n of the list, and where it ends. Where k is more than
// n, so that the group would have more tokens than the list, the answer is unspecified, but that a token that
// is read has a byte, ends in the input, and is at most the 32nd of its group.
fn token_at(
    long: usize,
    s: &[u8],
    i: usize,
    k: usize,
    seen: &[u16; TOKENS],
    n: usize,
) -> Reading<usize>
    requires { (i ≤ length s.now) × (length s.now ≤ type_limit) × (n ≤ GRPCNT * ATTCNT) }
    ensures result_value { (ts ps : List Part) → length ps ≡ k → parts_of seen.now n ≡ ts ++ ps → token_of i result ≡ group_token long s.now ts ps i }
    ensures token_in { TokenIn (length s.now) i k result }
{
    let e = text::name_end(s, i);
    if e == i {
        if is_left_out(text::byte(s, i)) {
            return Err(Refusal::LeftOut.at(i));
        }
        return Err(Refusal::Malformed.at(i));
    }
    if long < e - i {
        return Err(Refusal::NameTooLong.at(i));
    }
    if GRPCNT <= k {
        return Err(Refusal::Quantity.at(i));
    }
    if is_seen(s, seen, n, i, e - i) {
        return Err(Refusal::Attribute.at(i));
    }
    Ok(e)
}

// Whether b joins tokens where c joined those before, 0 for none.
// Kept: 0 for none, and no Option (fixed: `group_tokens` of the rules, whose argument c is, has 0 for none).
fn joins(c: u8, b: u8) -> bool
    ensures { result ≡ (is_token_connector b && (eqb c 0 || eqb c b)) }
{
    words::is_token_connector(b) && (c == 0 || c == b)
}

// The token of this size at `at` is the n-th of the list, from 0.
fn put_token(seen: &mut [u16; TOKENS], n: usize, at: usize, size: usize)
    requires { (n < GRPCNT * ATTCNT) × (at < 65536) × (size < 65536) }
    ensures { parts_of seen.new (n + 1) ≡ parts_of seen.old n ++ record { at = at; size = size } ∷ [] }
{
    seen[2 * n] = at as u16;
    seen[2 * n + 1] = size as u16;
}

// The group whose "(" stands at `at`, in a list that has n tokens so far. Where it is refused, what `seen`
// holds is unspecified; where it is read, only what `seen` holds behind the tokens of the list is.
pub fn group_at(
    long: usize,
    s: &[u8],
    at: usize,
    seen: &mut [u16; TOKENS],
    n: usize,
) -> Reading<Tokens>
    requires { (at < length s.now) × (length s.now ≤ type_limit) × (n + GRPCNT ≤ GRPCNT * ATTCNT) }
    ensures meets_group { MeetsGroup seen.new n (parts_of seen.old n) result (token_group long s.now (parts_of seen.old n) at) }
    ensures group_in { GroupIn (length s.now) at n result }
{
    let mut m = n;
    let mut c = 0u8;
    let mut i = text::separators_end(s, at + 1);
    loop {
        let e = token_at(long, s, i, m - n, seen, m)?;
        put_token(seen, m, i, e - i);
        m += 1;
        let j = text::separators_end(s, e);
        let b = text::byte(s, j);
        if b == b')' {
            return Ok(Tokens {
                count: m,
                at: j + 1,
            });
        }
        if b == b'%' {
            return Err(Refusal::LeftOut.at(j));
        }
        if !joins(c, b) {
            return Err(Refusal::Malformed.at(j));
        }
        c = b;
        i = text::separators_end(s, j + 1);
    }
}
