// The attributes of a type, for a caller: nine numbers for each, or one refusal.
#![tactic(auto)]

ghost use Rattle.std.specs.Prelude.{◌≡◌, ◌++◌, ◌+◌, ◌*◌, ◌-◌, ◌≤◌, ◌<◌, length, take, drop};
ghost use Rattle.rules.specs.Bytes.{ATTCNT, element_limit, type_limit};
ghost use Rattle.rules.specs.Lent.{numbers, bytes, bytes_of};
ghost use Rattle.rules.specs.Listing.{Lists};
ghost use Rattle.inputs.specs.Checks.{settings_of};
ghost use Rattle.list_table.specs.Lists.{Short};
ghost use Rattle.type_judge.specs.Decides.{answer_of};
ghost use Rattle.attribute_records.specs.Recorded.{kind_of, detail_of, row_numbers, Puts, PutsList, PutsLists, ListsUnder, Decides};

use inputs::Settings;
use layout::{ATTRIBUTE_RECORD, AttributeNo, ELEMENTS, ElementNo, LISTS, NUMBER, RECORDS};
use list_table::Row;
use text::{Reading, Refusal};
use type_judge::Verdict;

// A record as bytes.
const RECORD_BYTES: usize = NUMBER * ATTRIBUTE_RECORD;

// Which kind x is, where those below m have their own number and all others are m.
fn kind(x: usize, m: usize) -> u32
    requires { m < 65536 }
    ensures { result ≡ kind_of m x }
{
    if x < m { x as u32 } else { m as u32 }
}

// What goes with the kind m: y; with those below it goes 0.
fn detail(x: usize, m: usize, y: usize) -> u32
    requires { y < 65536 }
    ensures { result ≡ detail_of m x y }
{
    if x < m { 0 } else { y as u32 }
}

// The nine numbers of the attribute a of the element e.
fn row_numbers(e: ElementNo, a: AttributeNo, r: Row) -> [u32; ATTRIBUTE_RECORD]
    requires { (e.0 ≤ element_limit) × (a.0 ≤ ATTCNT) × Short r }
    ensures { result ≡ row_numbers e.0 a.0 r }
{
    [
        e.0 as u32,
        a.0 as u32,
        r.name as u32,
        r.size as u32,
        kind(r.value, 3),
        detail(r.value, 3, r.value),
        kind(r.default, 2),
        detail(r.default, 2, r.default),
        detail(r.default, 2, r.width),
    ]
}

// What stands for a record, from the i-th place of a buffer on, if it fits.
fn note<T: Copy, const N: usize>(buffer: &mut [T], i: usize, row: &[T; N])
    requires { i + N < 18446744073709551616 }
    ensures fits { i + N ≤ length buffer.old → buffer.new ≡ take i buffer.old ++ (row.now ++ drop (i + N) buffer.old) }
    ensures full { length buffer.old < i + N → buffer.new ≡ buffer.old }
{
    if i + N <= buffer.len() {
        buffer[i..i + N].copy_from_slice(row);
    }
}

// The numbers of a record as four bytes each, low byte first.
fn as_bytes(row: &[u32; ATTRIBUTE_RECORD]) -> [u8; RECORD_BYTES]
    ensures { result ≡ bytes_of row.now }
{
    let mut bytes = [0; RECORD_BYTES];
    numbers::put_bytes(&mut bytes, row, ATTRIBUTE_RECORD);
    bytes
}

// The record of the attribute a of the element e, behind n records, to each buffer that it fits. What a buffer holds that is too small for all records is not decided.
fn put_record(numbers: &mut [u32], bytes: &mut [u8], n: usize, e: ElementNo, a: AttributeNo, r: Row)
    requires { (n < ATTCNT * element_limit) × (e.0 ≤ element_limit) × (a.0 ≤ ATTCNT) × Short r }
    ensures { Puts numbers.old bytes.old n (row_numbers e.0 a.0 r) numbers.new bytes.new }
{
    let row = row_numbers(e, a, r);
    note(numbers, ATTRIBUTE_RECORD * n, &row);
    note(bytes, RECORD_BYTES * n, &as_bytes(&row));
}

// The records of the attributes of the element e, behind n records; how many there are then.
fn put_list(lists: &[u16], e: ElementNo, n: usize, numbers: &mut [u32], bytes: &mut [u8]) -> usize
    requires { (1 ≤ e.0) × (e.0 ≤ element_limit) × (n ≤ ATTCNT * (element_limit - 1)) }
    ensures { PutsList lists.now e.0 numbers.old bytes.old n numbers.new bytes.new result ×
        (result ≤ n + ATTCNT) }
{
    let count = list_table::count(lists, e);
    for a in 0..count {
        let r = list_table::attribute(lists, e, a);
        put_record(numbers, bytes, n + a, e, AttributeNo(a + 1), r);
    }
    n + count
}

// The records of all attributes of the first n elements; how many there are.
fn put_lists(lists: &[u16], n: usize, numbers: &mut [u32], bytes: &mut [u8]) -> usize
    requires { n ≤ element_limit }
    ensures { PutsLists lists.now n numbers.old bytes.old numbers.new bytes.new result × (result ≤ ATTCNT * element_limit) }
{
    let mut m = 0;
    for k in 0..n {
        m = put_list(lists, ElementNo(k + 1), m, numbers, bytes);
    }
    m
}

// The attributes of a type whose n elements are recorded, where the buffers have room for so many numbers.
fn listed(
    long: usize,
    s: &[u8],
    heads: &[u16; ELEMENTS],
    n: usize,
    room: usize,
    numbers: &mut [u32],
    bytes: &mut [u8],
) -> Reading<usize>
    requires { (n ≤ element_limit) × (length s.now ≤ type_limit) }
    ensures { ListsUnder long s.now heads.now n room numbers.old bytes.old numbers.new bytes.new result }
{
    let mut lists = [0u16; LISTS];
    attribute_lists::fill(long, s, heads, n, &mut lists);
    let t = put_lists(&lists, n, numbers, bytes);
    if room < ATTRIBUTE_RECORD * t {
        return Err(Refusal::NoRoom.at(0));
    }
    Ok(t)
}

// Judges the type, with room for all its elements, then lists its attributes; a refusal zeroes nothing yet, and what the buffers hold then is not decided.
fn decide(c: Settings, s: &[u8], room: usize, numbers: &mut [u32], bytes: &mut [u8]) -> Verdict
    ensures { Decides (settings_of c) s.now room numbers.old bytes.old numbers.new bytes.new result }
{
    let mut elements = [0u32; RECORDS];
    let mut heads = [0u16; ELEMENTS];
    let n = type_judge::decide(c, s, RECORDS, &mut elements, &mut heads)?;
    Ok(listed(c.name_length, s, &heads, n, room, numbers, bytes)?)
}

// Lists the attributes of a type file under the settings c. The buffer gets nine numbers for each attribute, or is zeroed.
pub fn list(c: Settings, s: &[u8], buffer: &mut [u32]) -> Verdict
    ensures { Lists numbers (settings_of c) s.now buffer.old (answer_of result) buffer.new }
{
    // No bytes are lent, so that records go to the numbers alone.
    let mut none = [0u8; 0];
    let v = decide(c, s, buffer.len(), buffer, &mut none);
    if v.is_err() {
        buffer.fill(0);
    }
    v
}

// Lists the attributes of a type file under the settings c. The buffer of bytes gets nine numbers of four bytes for each attribute, or is zeroed.
// Kept: the twin of `list` (plainer). They share `decide` and `fill`; what is left is which of two buffers is lent.
pub fn list_to_bytes(c: Settings, s: &[u8], buffer: &mut [u8]) -> Verdict
    ensures { Lists bytes (settings_of c) s.now buffer.old (answer_of result) buffer.new }
{
    // No numbers are lent, so that records go to the bytes alone.
    let mut none = [0u32; 0];
    let v = decide(c, s, buffer.len() / NUMBER, &mut none, buffer);
    if v.is_err() {
        buffer.fill(0);
    }
    v
}
