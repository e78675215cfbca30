// Connectors and occurrence indicators: two groups of a model joined, a group repeated or optional, each with
// what it adds to the model's table.
#![tactic(auto)]

ghost use Rattle.std.specs.Prelude.{◌≡◌, ◌&&◌, ◌||◌, List, eqb, ℕ, ◌+◌, ◌≤◌, length};
ghost use Rattle.rules.specs.TypeFile.{Tokens, occurrence, is_connector, earlier};
ghost use Rattle.rules.specs.Bytes.{GRPGTCNT, type_limit};
ghost use Rattle.connectors.specs.Kept.{begun, Keeps, join_model, join_table};
ghost use Rattle.connectors.specs.Grown.{opt_model, opt_table, plus_model, plus_table};

use layout::MODEL;
use model_table::Part;

// How much of a model was read: how many places and content tokens it has so far, and how many numbers its code
// has.
#[derive(Clone, Copy)]
pub struct Counts {
    pub places: usize,
    pub tokens: usize,
    pub code: u16,
}

// What is kept of a model while it is read: where it ends so far, how many places and content tokens it has, what
// its table goes on with, how many numbers its code has, and where the first "&" of the group stands and the first that is refused, or 0.
// Kept: 0 is none, as in the rules' `earlier` (fixed): with an Option, `joined_by` would ask that no "&" stands at
// 0, which it does not.
#[derive(Drop)]
pub struct Model {
    pub at: usize,
    pub places: usize,
    pub tokens: usize,
    pub part: Part,
    pub code: u16,
    pub and: u16,
    pub repeated: u16,
}

// The group m with "?" behind it, which ends at `end`: it may be left out.
fn with_opt(table: &mut [u8; MODEL], end: usize, m: Model) -> Model
    ensures value { result ≡ opt_model end m }
    ensures table_after { table.new ≡ opt_table m table.old }
{
    Model {
        at: end,
        part: model_table::optional(m.part),
        code: model_code::put(table, m.code, model_code::OPT_CODE),
        ..m
    }
}

// The group m, whose first place is `lo`, with "+" behind it, which ends at `end`: it may come again, and its first "&" is refused then.
fn with_plus(table: &mut [u8; MODEL], lo: usize, end: usize, m: Model) -> Model
    requires { m.places ≤ GRPGTCNT }
    ensures value { result ≡ plus_model end m }
    ensures table_after { table.new ≡ plus_table lo m table.old }
{
    model_table::repeat(table, lo, m.places + 1);
    Model {
        at: end,
        code: model_code::put(table, m.code, model_code::PLUS_CODE),
        repeated: m.and,
        ..m
    }
}

// The occurrence indicator at once after a name or a group whose first place is `lo`. What it gives where m and the table stand for no
// such group is not decided.
pub fn with_occurrence(s: &[u8], table: &mut [u8; MODEL], lo: usize, m: Model) -> Model
    requires at_in_bounds { m.at ≤ length s.now }
    requires places_bound { m.places ≤ GRPGTCNT }
    ensures { (T names : List ℕ) (n d : ℕ) (t : Tokens) → Keeps (length s.now) (begun lo T n (d + 2)) 1 0 names table.old m t →
        Keeps (length s.now) (begun lo T n d) 1 0 names table.new result (occurrence s.now t) }
{
    let at = m.at;
    let b = text::byte(s, at);
    if b == b'?' {
        return with_opt(table, at + 1, m);
    }
    if b == b'+' {
        return with_plus(table, lo, at + 1, m);
    }
    if b == b'*' {
        let some = with_plus(table, lo, at + 1, m);
        return with_opt(table, at + 1, some);
    }
    m
}

// Whether a connector may stand after others: ",", "|" or "&", one kind in a group. `c` is the group's, 0 if there was none yet.
#[tactic(auto, unfolding(rules::specs::TypeFile::is_connector))]
pub fn is_connector(b: u8, c: u8) -> bool
    ensures { result ≡ is_connector b && (eqb c 0 || eqb c b) }
{
    (b == b',' || b == b'|' || b == b'&') && (c == 0 || c == b)
}

// The first of two positions of which the first is the earlier; 0 is none.
#[tactic(auto, unfolding(rules::specs::TypeFile::earlier))]
fn earlier(i: u16, j: u16) -> u16
    ensures { result ≡ earlier i j }
{
    if i == 0 { j } else { i }
}

// The group m, whose first place is `lo`, and the token u after it, joined by the connector b at i; any byte but "," and "&" joins as "|" does.
pub fn joined_by(table: &mut [u8; MODEL], b: u8, i: usize, lo: usize, m: Model, u: Model) -> Model
    requires { (m.places ≤ GRPGTCNT) × (u.places ≤ GRPGTCNT) × (i ≤ type_limit) }
    ensures value { result ≡ join_model b i m u }
    ensures table_after { table.new ≡ join_table b lo m u table.old }
{
    let mid = m.places + 1;
    let hi = u.places + 1;
    let (part, and, op) = if b == b',' {
        let part = model_table::join_seq(table, lo, mid, hi, m.part, u.part);
        (part, u.and, model_code::SEQ_CODE)
    } else if b == b'&' {
        let part = model_table::join_and(table, lo, mid, hi, m.part, u.part);
        (part, i as u16, model_code::ALSO_CODE)
    } else {
        (
            model_table::join_alt(m.part, u.part),
            u.and,
            model_code::ALT_CODE,
        )
    };
    Model {
        part: part,
        code: model_code::put(table, u.code, op),
        and: earlier(m.and, and),
        repeated: earlier(m.repeated, u.repeated),
        ..u
    }
}
