// The recursive reader of model groups: bytes in, the model's places and its table out.
//
// Kept: `let .. else` where `?` would do, since paper 01 names that form for the place where a token is read: "each sub-reader's enum is
// taken apart by let .. else, passing refusals on with number and position".
#![tactic(auto)]

ghost use Rattle.std.specs.Prelude.{◌≡◌, ◌||◌, leb, false, List, ℕ, ◌+◌, ◌*◌, ◌≤◌, ◌<◌, length};
ghost use Rattle.rules.specs.TypeFile.{Tokens, token, further, group};
ghost use Rattle.rules.specs.Bytes.{GRPCNT, GRPGTCNT, type_limit};
ghost use Rattle.model_names.specs.Places.{places_of};
ghost use Rattle.connectors.specs.Kept.{begun, Keeps};
ghost use Rattle.content_tokens.specs.Meets.{Meets};
ghost use Rattle.group_reader.specs.Further.{MeetsFurther, closed_table, closed_code};

use connectors::{Counts, Model};
use layout::{GRPCNT, GRPGTCNT, MODEL, NAMES};
use text::{Reading, Refusal};

// What follows a content token: the group's end, or a connector and a further content token.
#[derive(Drop)]
pub enum Next {
    Closed(Model),
    Joined(u8, Model),
}

// The code where a group of k content tokens joined by c ends: that of an "&" group gets how many there are.
fn closed_code(table: &mut [u8; MODEL], code: u16, k: usize, c: u8) -> u16
    ensures { (table.new ≡ closed_table k c code table.old) × (result ≡ closed_code k c code) }
{
    if c == b'&' && k <= GRPCNT {
        return model_code::put(table, code, model_code::AND_CODE + k as u8);
    }
    code
}

// Whether no content token may follow k of a group in a model that has so many.
fn is_full(k: usize, tokens: usize) -> bool
    ensures { result ≡ (leb GRPCNT k || leb GRPGTCNT tokens) }
{
    GRPCNT <= k || GRPGTCNT <= tokens
}

// A content token that begins at `at`.
#[cycle(group_at_next_at_token_at)]
fn token_at(
    long: usize,
    s: &[u8],
    at: usize,
    levels: usize,
    full: bool,
    had: Counts,
    names: &mut [u32; NAMES],
    table: &mut [u8; MODEL],
) -> Reading<Model>
    requires at_in_bounds { (at ≤ length s.now) × (length s.now ≤ type_limit) }
    requires places_le_tokens { (had.places ≤ had.tokens) × (full ≡ false → had.tokens < GRPGTCNT) }
    ensures { Meets (length s.now) (begun (had.places + 1) table.old had.code (4 * had.tokens + 3))
        names.new table.new result
        (token long (group long levels s.now) s.now at full (places_of names.old had.places) had.tokens) }
{
    let b = text::byte(s, at);
    if text::is_letter(b) {
        return content_tokens::name_token(long, s, at, full, had, names, table);
    }
    if b == b'#' {
        return content_tokens::data_token(s, at, full, had, names, table);
    }
    if b == b'(' {
        if full {
            return Err(Refusal::Quantity.at(at));
        }
        let with_it = Counts {
            tokens: had.tokens + 1,
            ..had
        };
        let r = group_at(long, s, at, levels, with_it, names, table);
        let Ok(m) = r else {
            return r;
        };
        return Ok(connectors::with_occurrence(s, table, had.places + 1, m));
    }
    if b == b'[' || b == b'%' {
        return Err(Refusal::LeftOut.at(at));
    }
    Err(Refusal::Malformed.at(at))
}

// What follows a content token, when m was read of the group, k content tokens joined by c (0: none yet).
#[cycle(group_at_next_at_token_at)]
fn next_at(
    long: usize,
    s: &[u8],
    levels: usize,
    lo: usize,
    k: usize,
    c: u8,
    m: Model,
    names: &mut [u32; NAMES],
    table: &mut [u8; MODEL],
) -> Reading<Next>
    requires at_in_bounds { (m.at ≤ length s.now) × (length s.now ≤ type_limit) }
    requires places_le_tokens { (m.places ≤ m.tokens) × (m.tokens ≤ GRPGTCNT) }
    ensures { (T : List ℕ) (n d : ℕ) (t : Tokens) → Keeps (length s.now) (begun lo T n (d + 1)) k c names.old table.old m t →
        MeetsFurther (length s.now) (begun lo T n d) k names.new table.new result
        (further long (group long levels s.now) s.now k c t) }
{
    let i = text::separators_end(s, m.at);
    let b = text::byte(s, i);
    let had = Counts {
        places: m.places,
        tokens: m.tokens,
        code: m.code,
    };
    if b == b')' {
        return Ok(Next::Closed(Model {
            at: i + 1,
            code: closed_code(table, had.code, k, c),
            ..m
        }));
    }
    if b == b'%' {
        return Err(Refusal::LeftOut.at(i));
    }
    if !connectors::is_connector(b, c) {
        return Err(Refusal::Malformed.at(i));
    }
    let j = text::separators_end(s, i + 1);
    let full = is_full(k, had.tokens);
    let r = token_at(long, s, j, levels, full, had, names, table);
    let Ok(u) = r else {
        return Err(r.unwrap_err());
    };
    Ok(Next::Joined(b, connectors::joined_by(table, b, i, lo, m, u)))
}

// A group whose "(" stands at `at`; `levels` is how many group levels are left. What `names` and `table` hold behind the places read
// so far, and where it is refused in all, is not decided; they are filled anew for the next model.
#[cycle(group_at_next_at_token_at)]
pub fn group_at(
    long: usize,
    s: &[u8],
    at: usize,
    levels: usize,
    had: Counts,
    names: &mut [u32; NAMES],
    table: &mut [u8; MODEL],
) -> Reading<Model>
    requires at_in_bounds { (at < length s.now) × (length s.now ≤ type_limit) }
    requires places_le_tokens { (had.places ≤ had.tokens) × (had.tokens ≤ GRPGTCNT) }
    ensures { Meets (length s.now) (begun (had.places + 1) table.old had.code (4 * had.tokens + 2))
        names.new table.new result
        (group long levels s.now at (places_of names.old had.places) had.tokens) }
{
    if levels == 0 {
        return Err(Refusal::Quantity.at(at));
    }
    let i = text::separators_end(s, at + 1);
    let full = GRPGTCNT <= had.tokens;
    let r = token_at(long, s, i, levels - 1, full, had, names, table);
    let Ok(first) = r else {
        return r;
    };
    let mut m = first;
    let mut k: usize = 1;
    let mut c: u8 = 0;
    loop {
        let n = next_at(long, s, levels - 1, had.places + 1, k, c, m, names, table);
        let Ok(next) = n else {
            return Err(n.unwrap_err());
        };
        match next {
            Next::Closed(u) => {
                return Ok(u);
            }
            Next::Joined(b, u) => {
                m = u;
                c = b;
                k += 1;
            }
        }
    }
}
