// A file read into a buffer, as far as it fits.
#![tactic(auto)]

ghost use Rattle.file_reader.specs.Loaded.{ReadIn, LoadedIn};

use arrayvec::ArrayString;
use std::fmt::Write;
use std::io::{Error, ErrorKind, Read};
use std::rt::Files;
use std::{fs, io};

// How many bytes of a file were read, and how many of them by the last read.
#[derive(Drop)]
pub struct Extent {
    pub size: usize,
    pub last: usize,
}

// Tells on standard error what failed, and why in the system's words, without the number that std puts behind them.
pub fn tell<R: Eprint>(rt: &R, what: &str, error: &Error) {
    let mut message = ArrayString::<512>::new();
    let _ = write!(message, "{error}");
    let words = message.as_str();
    let reason = match words.rsplit_once(" (os error ") {
        Some((before, _)) => before,
        None => words,
    };
    let _ = eprintln!(rt; "{what}: {reason}");
}

// Reads until a read gives nothing, since the file ends, or buf is full: a read may give fewer bytes than there is room for though more
// are to come.
fn filled<F: Read>(file: &mut F, buf: &mut [u8]) -> io::Result<Extent>
    ensures { ReadIn result buf.new }
{
    let mut at = 0;
    let mut last = 0;
    // Kept: a read moves `at` by as much as it gave, so the turns are no count (plainer).
    while at < buf.len() {
        last = file.read(&mut buf[at..])?;
        if last == 0 {
            break;
        }
        at += last;
    }
    Ok(Extent { size: at, last })
}

// The first bytes of the file of this name.
fn read<R: Files>(rt: &R, name: &str, buf: &mut [u8]) -> io::Result<Extent>
    ensures { ReadIn result buf.new }
{
    let mut file = fs::open(rt, name)?;
    filled(&mut file, buf)
}

// The first bytes of a file, as many as buf holds. A file that is not to be had is told on standard error. No contract can say which
// bytes a file has, nor that a read was made: that these are its first, and that `last` is what the last read gave, is read from the code, and
// tested. What buf holds behind them, and all of it on failure, is not decided.
pub fn first_bytes<R: Files + Eprint>(rt: &R, path: &[u8], buf: &mut [u8]) -> Option<Extent>
    ensures { LoadedIn result buf.new }
{
    let Ok(name) = str::from_utf8(path) else {
        // the library opens files by text alone
        tell(
            rt,
            "a file whose name is not UTF-8",
            &Error::from(ErrorKind::InvalidInput),
        );
        return None;
    };
    match read(rt, name, buf) {
        Ok(extent) => Some(extent),
        Err(e) => {
            tell(rt, name, &e);
            None
        }
    }
}
