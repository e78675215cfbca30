// The definitions of one attribute list, as rows of a list of its own (crate list_table).
#![tactic(auto)]

ghost use Rattle.std.specs.Prelude.{◌≡◌, ◌&&◌, ◌+◌, ◌≤◌, ◌<◌, length, eqb, leb};
ghost use Rattle.rules.specs.TypeFile.{list_from};
ghost use Rattle.rules.specs.Bytes.{MDC, type_limit};
ghost use Rattle.list_definitions.specs.ListAs.{MeetsList, ListIn};

use layout::{LIST, TOKENS};
use text::Reading;

// Whether the byte b closes a list that has n attributes so far.
fn closes(b: u8, n: usize) -> bool
    ensures { result ≡ (eqb b MDC && leb 1 n) }
{
    if b != b'>' {
        return false;
    }
    1 <= n
}

// The definitions of a list, one or more, from the end of its element's name on. What stands in `list` behind their rows, and in all of it on refusal, is not decided.
pub fn definitions_at(long: usize, s: &[u8], from: usize, list: &mut [u16; LIST]) -> Reading<usize>
    requires { (3 ≤ from) × (from ≤ length s.now) × (length s.now ≤ type_limit) }
    ensures meets_list { MeetsList long s.now list.new result (list_from long s.now from) }
    ensures list_in { ListIn (length s.now) from result }
{
    let mut seen = [0u16; TOKENS];
    list[0] = 0;
    let mut n = 0;
    let mut m = 0;
    let mut at = from;
    loop {
        let i = gaps::gap_end(s, at)?;
        let b = text::byte(s, i);
        if closes(b, n) {
            return Ok(i + 1);
        }
        if !text::is_letter(b) {
            return Err(gaps::unfit_at(s, i));
        }
        let d = attribute_definitions::definition_at(long, s, list, n, at, i, &mut seen, m)?;
        list_table::put_attribute(list, n, d.row);
        n += 1;
        m = d.tokens;
        at = d.at;
    }
}
