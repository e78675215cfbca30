// Record ends: which bytes 13 are data in edition 2.
//
// Where the byte before `since` is a byte 13, it is the last of a run of data: it may turn out to be the
// last in its element, and is not in the events yet.
#![tactic(auto)]

ghost use Rattle.std.specs.Prelude.{◌≡◌, ℕ, ◌+◌, ◌-◌, ◌≤◌, ◌<◌, length};
ghost use Rattle.rules.specs.Settings.{settings};
ghost use Rattle.rules.specs.Settling as rules;
ghost use Rattle.rules.specs.Records.{is_ignored, mark_behind};
ghost use Rattle.record_ends.specs.Held.{line_of, is_held, shown_end, Since, PutsWhole, Frees};

use event_buffer::Kind;
use layout::{ElementNo, Place};

// The record end, byte 13.
const RE: u8 = b'\r';

// The record start, byte 10.
const RS: u8 = b'\n';

// Where the last tag or data ended, and where the last byte 10 or 13 ended that was ignored; 0 where there
// is none yet.
#[derive(Clone, Copy)]
pub struct Line {
    pub since: usize,
    pub mark: usize,
}

impl Line {
    // Whether the byte at `at`, which would be data, is a byte 13 that is ignored by what came before it. u
    // is the last place taken in the current element. Where a place was taken though neither a tag nor data
    // came, what it answers is not decided: no reading comes there.
    pub fn is_ignored(self, edition: usize, d: &[u8], at: usize, u: Place) -> bool
        requires { (at < length d.now) × (self.since ≤ at) }
        ensures { (long : ℕ) (o : rules.Open) → Since self.since u.0 o →
            result ≡ is_ignored (settings long edition) d.now at (line_of self.since self.mark) o }
    {
        if edition != 2 || d[at] != RE {
            return false;
        }
        if self.since < self.mark {
            return self.mark != at;
        }
        u.0 == 0 || self.since != at && is_held(edition, d, self.since)
    }

    // The line behind what is ignored at `at`.
    pub fn marked(self, d: &[u8], at: usize) -> Line
        requires { at < length d.now }
        ensures { (result.since ≡ self.since) × (result.mark ≡ mark_behind d.now at self.mark) }
    {
        if d[at] == RS || d[at] == RE {
            return Line {
                since: self.since,
                mark: at + 1,
            };
        }
        self
    }

    // The line behind a tag or data that ends at `after`.
    pub fn taken(self, after: usize) -> Line
        ensures { (result.since ≡ after) × (result.mark ≡ self.mark) }
    {
        Line {
            since: after,
            mark: self.mark,
        }
    }
}

// Whether the last tag or data ended with a byte 13.
pub fn is_held(edition: usize, d: &[u8], since: usize) -> bool
    requires { since ≤ length d.now }
    ensures { result ≡ is_held edition d.now since }
{
    edition == 2 && since != 0 && d[since - 1] == RE
}

// Where the run of data or the tag up to `after` ends as it is shown: a byte 13 that may turn out to be the
// last in its element is not shown yet.
pub fn shown_end(edition: usize, d: &[u8], after: usize) -> usize
    requires { after ≤ length d.now }
    ensures { result ≡ shown_end edition d.now after }
{
    if is_held(edition, d, after) {
        return after - 1;
    }
    after
}

// The run of data from `from` up to `since`, whose last byte is data after all: it goes over the event of the
// run without that byte, or behind n events where there is none. It gives how many events there are. Where
// the run is empty, or the n events do not end with it so, neither what the buffers hold is decided, but that
// they keep their length, nor how many events there are, but that they are at most n + 1.
pub fn put_held(numbers: &mut [u32], bytes: &mut [u8], n: usize, from: usize, since: usize) -> usize
    requires { (n < 4294967296) × (from ≤ since) × (since < 4294967296) }
    ensures { PutsWhole numbers.old bytes.old n from since result numbers.new bytes.new }
{
    let none = Place(0);
    let data = ElementNo(0);
    let size = since - from;
    let k = if 1 < size { n.saturating_sub(1) } else { n };
    event_buffer::put_event(numbers, bytes, k, Kind::Data as u32, data, from, size, none)
}

// How many events there are behind the m that stand behind the ends which a token infers, n being those
// before these. Where no end came first, more of the element follows the run of data that ended at `since`:
// if its last byte is held, it is data, and the run is put whole.
pub fn freed(
    edition: usize,
    d: &[u8],
    from: usize,
    since: usize,
    n: usize,
    m: usize,
    numbers: &mut [u32],
    bytes: &mut [u8],
) -> usize
    requires { (since ≤ length d.now) × (from ≤ since) × (since < 4294967296) × (n < 4294967296) }
    ensures { Frees (is_held edition d.now since) from since n m numbers.old bytes.old result numbers.new bytes.new }
{
    if !is_held(edition, d, since) || m != n {
        return m;
    }
    put_held(numbers, bytes, n, from, since)
}
