// A whole type file: separators, comment declarations, element declarations and attribute lists to its end,
// or the first refusal.
//
// `heads` is that of the crate attribute_lists.
#![tactic(auto)]

ghost use Rattle.std.specs.Prelude.{◌≡◌, List, ◌+◌, ◌≤◌, ◌<◌, length, replicate};
ghost use Rattle.rules.specs.TypeFile.{keyword, markup, declaration, type_file};
ghost use Rattle.rules.specs.TypeFile as rules;
ghost use Rattle.rules.specs.Attributes.{AttList};
ghost use Rattle.rules.specs.Bytes.{element_limit, type_limit};
ghost use Rattle.attribute_lists.specs.Listed.{Headed};
ghost use Rattle.element_records.specs.Progress.{KeepsProgress, InProgress};
ghost use Rattle.type_file.specs.File.{MeetsDeclarations, MeetsFile};

use element_records::Progress;
use layout::{ELEMENTS, MODEL, NAMES, RECORDS};
use text::{Reading, Refusal};

// `<!` at i and a letter after it.
// Kept: the four tables as four parameters, here and below (plainer). A struct of their references needs, in each contract,
// a clause for each that it is the reference that it was (as `same_reference` of the crate line_text).
fn keyword_at(
    long: usize,
    s: &[u8],
    i: usize,
    p: Progress,
    elements: &mut [u32; RECORDS],
    heads: &mut [u16; ELEMENTS],
    names: &mut [u32; NAMES],
    table: &mut [u8; MODEL],
) -> Reading<Progress>
    requires i_in_bounds { (i + 2 ≤ length s.now) × (length s.now ≤ type_limit) }
    requires in_progress { InProgress s.now elements.old p }
    ensures { (es : List rules.Element) (ls : List AttList) → KeepsProgress s.now elements.old p es → Headed long s.now heads.old ls →
        MeetsDeclarations long s.now elements.new heads.new i result (keyword long s.now i es ls) }
{
    let e = text::name_end(s, i + 2);
    if long < e - (i + 2) {
        return Err(Refusal::NameTooLong.at(i + 2));
    }
    if words::is_word(s, i + 2, e, b"ELEMENT") {
        return element_records::element_at(long, s, e, p, elements, names, table);
    }
    if !words::is_word(s, i + 2, e, b"ATTLIST") {
        return Err(Refusal::LeftOut.at(i));
    }
    let j = attribute_lists::list_at(long, s, e, elements, p.count, heads)?;
    Ok(onward(p, j))
}

// What p counts, read up to `at`.
fn onward(p: Progress, at: usize) -> Progress
    ensures { result ≡ record p { at = at } }
{
    Progress { at: at, ..p }
}

// `<!` at i.
fn markup_at(
    long: usize,
    s: &[u8],
    i: usize,
    p: Progress,
    elements: &mut [u32; RECORDS],
    heads: &mut [u16; ELEMENTS],
    names: &mut [u32; NAMES],
    table: &mut [u8; MODEL],
) -> Reading<Progress>
    requires i_in_bounds { (i + 2 ≤ length s.now) × (length s.now ≤ type_limit) }
    requires in_progress { InProgress s.now elements.old p }
    ensures { (es : List rules.Element) (ls : List AttList) → KeepsProgress s.now elements.old p es → Headed long s.now heads.old ls →
        MeetsDeclarations long s.now elements.new heads.new i result (markup long s.now i es ls) }
{
    let b = text::byte(s, i + 2);
    if b == b'>' {
        return Ok(onward(p, i + 3));
    }
    if b == b'-' {
        if text::byte(s, i + 3) != b'-' {
            return Err(Refusal::Malformed.at(i + 3));
        }
        let j = gaps::comment_end(s, i + 2)?;
        return Ok(onward(p, j));
    }
    if b == b'[' {
        return Err(Refusal::LeftOut.at(i));
    }
    if text::is_letter(b) {
        return keyword_at(long, s, i, p, elements, heads, names, table);
    }
    Err(Refusal::Malformed.at(i + 2))
}

// What begins at i, where a declaration may begin. Where it is refused, what `elements` and `heads` hold is
// not decided, nor is it of what stands behind the records.
fn declaration_at(
    long: usize,
    s: &[u8],
    i: usize,
    p: Progress,
    elements: &mut [u32; RECORDS],
    heads: &mut [u16; ELEMENTS],
    names: &mut [u32; NAMES],
    table: &mut [u8; MODEL],
) -> Reading<Progress>
    requires i_in_bounds { (i < length s.now) × (length s.now ≤ type_limit) }
    requires in_progress { InProgress s.now elements.old p }
    ensures { (es : List rules.Element) (ls : List AttList) → KeepsProgress s.now elements.old p es → Headed long s.now heads.old ls →
        MeetsDeclarations long s.now elements.new heads.new i result (declaration long s.now i es ls) }
{
    let b = text::byte(s, i);
    if b == b'<' {
        let c = text::byte(s, i + 1);
        if c == b'!' {
            return markup_at(long, s, i, p, elements, heads, names, table);
        }
        if c == b'?' {
            return Err(Refusal::LeftOut.at(i));
        }
        return Err(Refusal::Malformed.at(i + 1));
    }
    if b == b'%' {
        return Err(Refusal::LeftOut.at(i));
    }
    Err(Refusal::Malformed.at(i))
}

// The whole type file, where a name may have at most `long` bytes. What stands in `elements` behind the
// records of its elements, and on refusal in all of it and in `heads`, is not decided.
pub fn file_read(
    long: usize,
    s: &[u8],
    elements: &mut [u32; RECORDS],
    heads: &mut [u16; ELEMENTS],
) -> Reading<Progress>
    requires { (length s.now ≤ type_limit) × (heads.old ≡ replicate element_limit 0) }
    ensures { MeetsFile long s.now elements.new heads.new result (type_file long s.now) }
{
    let mut names = [0u32; NAMES];
    let mut table = [0u8; MODEL];
    let mut p = Progress {
        at: 0,
        count: 0,
        clash: None,
        repeated: None,
    };
    loop {
        let i = text::separators_end(s, p.at);
        if s.len() <= i {
            if p.count == 0 {
                return Err(Refusal::Elements.at(s.len()));
            }
            return Ok(p);
        }
        p = declaration_at(long, s, i, p, elements, heads, &mut names, &mut table)?;
    }
}
