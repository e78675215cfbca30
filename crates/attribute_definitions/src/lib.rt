// One attribute definition: name, declared value, default.
//
// `list` has the attributes of the list so far (crate list_table), `seen` the tokens of their groups (crate name_tokens).
#![tactic(auto)]

ghost use Rattle.std.specs.Prelude.{◌≡◌, List, ◌+◌, ◌*◌, ◌≤◌, ◌<◌, length};
ghost use Rattle.rules.specs.Bytes.{ATTCNT, GRPCNT, type_limit};
ghost use Rattle.rules.specs.Attributes.{Attribute};
ghost use Rattle.rules.specs.TypeFile.{tokens_of, attribute_name, value_word, declared_value, definition};
ghost use Rattle.text.specs.Refusal.{reached};
ghost use Rattle.name_tokens.specs.Tokens.{parts_of};
ghost use Rattle.list_table.specs.Lists.{ListAt};
ghost use Rattle.attribute_definitions.specs.Definition.{NameFits, word_of, WordFits, MeetsValue, ValueFits};
ghost use Rattle.attribute_definitions.specs.Definition.{MeetsDefinition, DefinitionFits};

use attribute_values::DeclaredValue;
use layout::{ATTCNT, LIST, TOKENS};
use list_table::{ONLY, Row};
use text::{Reading, Refusal};

// A declared value, how many tokens the list has now, and where the value ends.
#[derive(Clone, Copy, Debug, PartialEq, Eq)]
pub struct Declared {
    pub value: DeclaredValue,
    pub tokens: usize,
    pub at: usize,
}

// A definition, how many tokens the list has now, and where the definition ends.
#[derive(Clone, Copy, Debug, PartialEq, Eq)]
pub struct Defined {
    pub row: Row,
    pub tokens: usize,
    pub at: usize,
}

// The name at i, a letter, after n attributes of the list, and where it ends. The parameter before ended at `from`.
fn name_at(
    long: usize,
    s: &[u8],
    list: &[u16; LIST],
    n: usize,
    from: usize,
    i: usize,
) -> Reading<usize>
    requires { (i ≤ length s.now) × (length s.now ≤ type_limit) × (n ≤ ATTCNT) }
    ensures result_value { (xs : List Attribute) → length xs ≡ n → ListAt long s.now list.now 0 xs → reached result ≡ attribute_name long s.now xs from i }
    ensures name_fits { NameFits (length s.now) i n result }
{
    let e = text::name_end(s, i);
    if long < e - i {
        return Err(Refusal::NameTooLong.at(i));
    }
    if i <= from {
        return Err(Refusal::Malformed.at(i));
    }
    if list_table::find(s, list, ONLY, s, i, e - i).is_some() {
        return Err(Refusal::DeclaredTwice.at(i));
    }
    if ATTCNT <= n {
        return Err(Refusal::Attribute.at(i));
    }
    Ok(e)
}

// A word as declared value, in a list that has m tokens so far.
// Kept: a test a word (plainer: a loop over three words would need a table of words and values, and the two
// tests of each).
fn word_at(long: usize, s: &[u8], i: usize, m: usize) -> Reading<Declared>
    requires { (i ≤ length s.now) × (length s.now ≤ type_limit) }
    ensures { (word_of result ≡ value_word long s.now i) × WordFits (length s.now) i m result }
{
    let e = text::name_end(s, i);
    if long < e - i {
        return Err(Refusal::NameTooLong.at(i));
    }
    if words::is_word(s, i, e, b"CDATA") {
        return Ok(Declared {
            value: DeclaredValue::Cdata,
            tokens: m,
            at: e,
        });
    }
    if words::is_word(s, i, e, b"NUMBER") {
        return Ok(Declared {
            value: DeclaredValue::Number,
            tokens: m,
            at: e,
        });
    }
    if words::is_word(s, i, e, b"NAME") {
        return Ok(Declared {
            value: DeclaredValue::Name,
            tokens: m,
            at: e,
        });
    }
    if words::is_cut(s, i, e, b"CDATA") {
        return Err(Refusal::Malformed.at(s.len()));
    }
    if words::is_cut(s, i, e, b"NUMBER") {
        return Err(Refusal::Malformed.at(s.len()));
    }
    if words::is_cut(s, i, e, b"NAME") {
        return Err(Refusal::Malformed.at(s.len()));
    }
    Err(Refusal::Malformed.at(i))
}

// The declared value at i, in a list that has m tokens so far.
fn value_at(
    long: usize,
    s: &[u8],
    i: usize,
    seen: &mut [u16; TOKENS],
    m: usize,
) -> Reading<Declared>
    requires { (3 ≤ i) × (i ≤ length s.now) × (length s.now ≤ type_limit) × (m + GRPCNT ≤ GRPCNT * ATTCNT) }
    ensures meets_value { MeetsValue long s.now seen.new (parts_of seen.old m) result (declared_value long s.now (parts_of seen.old m) i) }
    ensures value_fits { ValueFits (length s.now) i m result }
{
    let b = text::byte(s, i);
    if b == b'(' {
        let g = name_tokens::group_at(long, s, i, seen, m)?;
        return Ok(Declared {
            value: DeclaredValue::Group(i),
            tokens: g.count,
            at: g.at,
        });
    }
    if text::is_letter(b) {
        return word_at(long, s, i, m);
    }
    Err(gaps::unfit_at(s, i))
}

// The definition whose name, a letter, stands at i, after n attributes of the list, which have m tokens. The
// parameter before ended at `from`. Where it is refused, what `seen` holds is not decided, nor anywhere what
// it holds behind the tokens of the list. Where `list` has not n attributes, or `seen` not their tokens,
// neither the answer nor what `seen` holds is decided, but that a definition which is read ends in the text,
// has numbers of 16 bits, is at most the 40th, and brings at most 32 tokens.
pub fn definition_at(
    long: usize,
    s: &[u8],
    list: &[u16; LIST],
    n: usize,
    from: usize,
    i: usize,
    seen: &mut [u16; TOKENS],
    m: usize,
) -> Reading<Defined>
    requires { (3 ≤ i) × (i ≤ length s.now) × (length s.now ≤ type_limit) × (n ≤ ATTCNT) × (m ≤ GRPCNT * n) }
    ensures meets_definition { (xs : List Attribute) → length xs ≡ n → ListAt long s.now list.now 0 xs → parts_of seen.old m ≡ tokens_of xs →
        MeetsDefinition long s.now seen.new xs result (definition long s.now xs from i) }
    ensures definition_fits { DefinitionFits (length s.now) i n m result }
{
    let e = name_at(long, s, list, n, from, i)?;
    let j = gaps::gap_end(s, e)?;
    let v = value_at(long, s, j, seen, m)?;
    let l = gaps::gap_end(s, v.at)?;
    let value = v.value.number();
    let d = attribute_defaults::default_at(long, s, value, v.at, l)?;
    Ok(Defined {
        row: Row {
            name: i,
            size: e - i,
            value: value,
            default: d.value.number(),
            width: d.value.width(),
        },
        tokens: v.tokens,
        at: d.at,
    })
}
