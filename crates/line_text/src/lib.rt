// Words written into a buffer one after another. What the buffer holds after the line's end is unspecified;
// what is before it is unchanged.
#![tactic(auto)]

ghost use Rattle.std.specs.Prelude.{◌≡◌, [], ◌∷◌, ◌+◌, ◌≤◌, ◌<◌, length};
ghost use Rattle.rules.specs.Printed.{decimal, word, upper};
ghost use Rattle.line_text.specs.Adds.{Adds};

// A line that is being put into a buffer, and where it ends so far.
#[derive(Drop)]
pub struct Line<'a> {
    pub out: &'a mut [u8],
    pub at: usize,
}

impl<'a> Line<'a> {
    // Puts one byte.
    pub fn put_byte(&mut self, b: u8)
        requires { self.old.at < length self.old.out.now }
        ensures same_reference { self.new.out.ghost_name ≡ self.old.out.ghost_name }
        ensures adds { Adds self.old.out.now self.old.at self.new.out.now self.new.at (b ∷ []) }
    {
        self.out[self.at] = b;
        self.at += 1;
    }

    // Puts bytes as they are.
    pub fn put_bytes(&mut self, bytes: &[u8])
        requires { self.old.at + length bytes.now ≤ length self.old.out.now }
        ensures same_reference { self.new.out.ghost_name ≡ self.old.out.ghost_name }
        ensures adds { Adds self.old.out.now self.old.at self.new.out.now self.new.at bytes.now }
    {
        let end = self.at + bytes.len();
        self.out[self.at..end].copy_from_slice(bytes);
        self.at = end;
    }

    // A number in decimal, and the byte b after it.
    pub fn put_number(&mut self, n: u64, b: u8)
        requires { self.old.at + 21 ≤ length self.old.out.now }
        ensures same_reference { self.new.out.ghost_name ≡ self.old.out.ghost_name }
        ensures adds { Adds self.old.out.now self.old.at self.new.out.now self.new.at (word (decimal n) b) }
        ensures short { self.new.at ≤ self.old.at + 21 }
    {
        let mut digits = [0u8; 20];
        let k = io::decimal(n, &mut digits);
        self.put_bytes(&digits[..k]);
        self.put_byte(b);
    }

    // So many bytes of s from `from` on, in upper case.
    pub fn put_upper(&mut self, s: &[u8], from: usize, size: usize)
        requires { (self.old.at + size ≤ length self.old.out.now) × (from + size ≤ length s.now) }
        ensures same_reference { self.new.out.ghost_name ≡ self.old.out.ghost_name }
        ensures adds { Adds self.old.out.now self.old.at self.new.out.now self.new.at (upper s.now from size) }
    {
        for i in from..from + size {
            self.put_byte(text::folded(s[i]));
        }
    }
}
