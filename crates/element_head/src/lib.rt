// The head of an element declaration: its name and the two words of omitted tag minimization.
#![tactic(auto)]

ghost use Rattle.std.specs.Prelude.{◌≡◌, List, ◌≤◌, ◌<◌, length};
ghost use Rattle.rules.specs.TypeFile.{omission, words, head};
ghost use Rattle.rules.specs.TypeFile as rules;
ghost use Rattle.rules.specs.Bytes.{element_limit, type_limit};
ghost use Rattle.element_names.specs.Names.{Recorded};
ghost use Rattle.element_head.specs.Heads.{omission_of, head_of, HeadIn};

use element_names::Elements;
use text::{Reading, Refusal};

// What stands before the content: where the name stands, whether the start tag and the end tag may be
// omitted, and where reading goes on.
#[derive(Drop)]
pub struct Head {
    pub offset: usize,
    pub size: usize,
    pub start: bool,
    pub end: bool,
    pub at: usize,
}

// A word of omitted tag minimization: whether the tag may be omitted ("O", and not "-"), and where the word
// ends.
#[derive(Drop)]
pub struct Word {
    pub omitted: bool,
    pub at: usize,
}

// A word "-" or "O" at i, where the parameter before ended at `from`.
fn omission_at(long: usize, s: &[u8], from: usize, i: usize) -> Reading<Word>
    requires { (i ≤ length s.now) × (length s.now ≤ type_limit) }
    ensures { omission_of result ≡ omission long s.now from i }
{
    let b = text::byte(s, i);
    if b == b'-' && from < i {
        return Ok(Word {
            omitted: false,
            at: i + 1,
        });
    }
    if text::is_letter(b) {
        let e = text::name_end(s, i);
        if long < e - i {
            return Err(Refusal::NameTooLong.at(i));
        }
        if from < i && words::is_word(s, i, e, b"O") {
            return Ok(Word {
                omitted: true,
                at: e,
            });
        }
    }
    Err(Refusal::Malformed.at(i))
}

// From the end of the keyword to the second word. Where the table holds no records of elements, the answer is
// not decided, but for its range.
pub fn head_at(long: usize, s: &[u8], at: usize, d: Elements) -> Reading<Head>
    requires { (at ≤ length s.now) × (length s.now ≤ type_limit) × (d.count ≤ element_limit) }
    ensures result_value { (es : List rules.Element) → length es ≡ d.entry.count →
        Recorded d.entry.records.now es → head_of result ≡ head long s.now at es }
    ensures head_in { HeadIn long (length s.now) at d.entry.count result }
{
    let i = gaps::gap_end(s, at)?;
    let e = element_names::element_name(long, s, i, d)?;
    words_at(long, s, i, e)
}

// The two words after the name from i to e.
fn words_at(long: usize, s: &[u8], i: usize, e: usize) -> Reading<Head>
    requires { (i ≤ e) × (e ≤ length s.now) × (length s.now ≤ type_limit) }
    ensures { head_of result ≡ words long s.now i e }
{
    let j = gaps::gap_end(s, e)?;
    let start = omission_at(long, s, e, j)?;
    let l = gaps::gap_end(s, start.at)?;
    let end = omission_at(long, s, start.at, l)?;
    Ok(Head {
        offset: i,
        size: e - i,
        start: start.omitted,
        end: end.omitted,
        at: end.at,
    })
}
