// The content tokens of a model that are not groups: a name and `#PCDATA`, each with what it adds to the
// model's places and to its table.
#![tactic(auto)]

ghost use Rattle.std.specs.Prelude.{◌≡◌, false, ◌+◌, ◌*◌, ◌≤◌, ◌<◌, length};
ghost use Rattle.rules.specs.TypeFile.{name_token, data_token};
ghost use Rattle.rules.specs.Bytes.{GRPGTCNT, type_limit};
ghost use Rattle.model_names.specs.Places.{places_of};
ghost use Rattle.connectors.specs.Kept.{begun};
ghost use Rattle.text.specs.Refusal.{fault_at};
ghost use Rattle.text.specs.declared.Refusal.TheVariants.{Malformed};
ghost use Rattle.content_tokens.specs.Meets.{wrong_data, Meets};

use connectors::{Counts, Model};
use layout::{MODEL, NAMES};
use text::{Fault, Reading, Refusal};

// A name as content token, at most `long` bytes long, of a model that had so much. Where it is refused, what
// `names` and `table` hold is not decided; nor is, here and below, what they hold behind the places that were read.
pub fn name_token(
    long: usize,
    s: &[u8],
    at: usize,
    full: bool,
    had: Counts,
    names: &mut [u32; NAMES],
    table: &mut [u8; MODEL],
) -> Reading<Model>
    requires at_in_bounds { (at ≤ length s.now) × (length s.now ≤ type_limit) }
    requires places_le_tokens { (had.places ≤ had.tokens) × (full ≡ false → had.tokens < GRPGTCNT) }
    ensures { Meets (length s.now) (begun (had.places + 1) table.old had.code (4 * had.tokens + 3))
        names.new table.new result
        (name_token long s.now at full (places_of names.old had.places) had.tokens) }
{
    let e = text::name_end(s, at);
    let n = e - at;
    if long < n {
        return Err(Refusal::NameTooLong.at(at));
    }
    if full {
        return Err(Refusal::Quantity.at(at));
    }
    model_names::put_name(names, had.places, at, n);
    let p = had.places + 1;
    let count = had.tokens + 1;
    let part = model_table::put_place(table, p);
    let m = Model {
        at: e,
        places: p,
        tokens: count,
        part: part,
        code: model_code::put(table, had.code, p as u8),
        and: 0,
        repeated: 0,
    };
    Ok(connectors::with_occurrence(s, table, p, m))
}

// A word after the `#` at `at` that ends at e and is not PCDATA: at the `#`, or where the input ends within it.
fn wrong_data(s: &[u8], at: usize, e: usize) -> Fault
    requires { (at < e) × (e ≤ length s.now) × (length s.now ≤ type_limit) }
    ensures { result ≡ fault_at Malformed (wrong_data s.now at e) }
{
    if words::is_cut(s, at + 1, e, b"PCDATA") {
        return Refusal::Malformed.at(s.len());
    }
    Refusal::Malformed.at(at)
}

// `#PCDATA` as content token. Where it is refused, what `names` and `table` hold is not decided.
pub fn data_token(
    s: &[u8],
    at: usize,
    full: bool,
    had: Counts,
    names: &mut [u32; NAMES],
    table: &mut [u8; MODEL],
) -> Reading<Model>
    requires at_in_bounds { (at < length s.now) × (length s.now ≤ type_limit) }
    requires places_le_tokens { (had.places ≤ had.tokens) × (full ≡ false → had.tokens < GRPGTCNT) }
    ensures { Meets (length s.now) (begun (had.places + 1) table.old had.code (4 * had.tokens + 3))
        names.new table.new result
        (data_token s.now at full (places_of names.old had.places) had.tokens) }
{
    let b = text::byte(s, at + 1);
    if text::is_letter(b) {
        let e = text::name_end(s, at + 1);
        if !words::is_word(s, at + 1, e, b"PCDATA") {
            return Err(wrong_data(s, at, e));
        }
        if full {
            return Err(Refusal::Quantity.at(at));
        }
        model_names::put_name(names, had.places, at, 0);
        let p = had.places + 1;
        let part = model_table::put_place(table, p);
        model_table::repeat(table, p, p + 1);
        let one = model_code::put(table, had.code, p as u8);
        let many = model_code::put(table, one, model_code::PLUS_CODE);
        return Ok(Model {
            at: e,
            places: p,
            tokens: had.tokens + 1,
            part: model_table::optional(part),
            code: model_code::put(table, many, model_code::OPT_CODE),
            and: 0,
            repeated: 0,
        });
    }
    Err(Refusal::Malformed.at(at + 1))
}
