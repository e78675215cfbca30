// Reads the type file `type.sgm` and the document `doc.sgm` in the current directory, and prints the
// document's events or the one refusal.
#![tactic(auto)]

ghost use Rattle.rules.specs.Printed.{Prints};
ghost use Rattle.rules.specs.Bytes.{document_limit, type_limit};
ghost use Rattle.sgml_events.specs.Files.{Whole};

use layout::{DOCUMENT_LIMIT, PROGRAM_TEXT, TYPE_LIMIT};
use std::io;

// Writes the text that is printed for a type file and a document. It can be handed no other text; that it writes this one, and that standard
// output takes it, no contract can say.
fn written<R: Print>(rt: &R, s: &[u8], d: &[u8], text: &[u8]) -> io::Result<()>
    requires { Prints s.now d.now text.now }
{
    rt.write_all(text)
}

// Prints what is printed for a type file and a document, of which the last read gave so many bytes.
fn print<R: Print + Eprint>(rt: &R, s: &[u8], s_last: usize, d: &[u8], d_last: usize)
    requires { Whole type_limit s.now s_last × Whole document_limit d.now d_last }
{
    // The first line and each of at most `PROGRAM_EVENTS` events take at most `LINE` bytes.
    let mut out = [0u8; PROGRAM_TEXT];
    let k = printed_text::printed(s, d, &mut out);
    if let Err(e) = written(rt, s, d, &out[..k]) {
        file_reader::tell(rt, "standard output", &e);
    }
}

// Both files are read, each as far as its buffer goes, and what is printed for them is printed.
fn main(rt: HostRuntime) {
    // Each buffer holds one byte more than the reader takes, so that it refuses what is longer.
    let mut s = [0u8; TYPE_LIMIT + 1];
    let mut d = [0u8; DOCUMENT_LIMIT + 1];
    let Some(x) = file_reader::first_bytes(&rt, b"type.sgm", &mut s) else {
        return;
    };
    let Some(y) = file_reader::first_bytes(&rt, b"doc.sgm", &mut d) else {
        return;
    };
    let n = x.size;
    let m = y.size;
    print(&rt, &s[..n], x.last, &d[..m], y.last);
}
