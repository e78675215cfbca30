// Numbers and bytes: one of them as an index, and numbers written as they are or as four bytes each.
#![tactic(auto)]

ghost use Rattle.std.specs.Prelude.{◌≡◌, ◌∷◌, [], ◌+◌, ◌*◌, ◌≤◌, ◌<◌, length, take};
ghost use Rattle.rules.specs.Lent.{bytes_of, filled_with};
ghost use Rattle.numbers.specs.Written.{written};

use layout::NUMBER;

// Kept: three functions, since each says the bound of its own type, and u32 has no `Into<usize>` (plainer).
//
// A byte as an index.
pub fn wide(b: u8) -> usize
    ensures { (result ≡ b) × (result < 256) }
{
    usize::from(b)
}

// A number of 16 bits as an index.
pub fn short(n: u16) -> usize
    ensures { (result ≡ n) × (result < 65536) }
{
    usize::from(n)
}

// A number as an index.
pub fn widened(x: u32) -> usize
    ensures { (result ≡ x) × (result < 4294967296) }
{
    x as usize
}

// A number as four bytes, low byte first, from the byte i on.
pub fn put_number(buffer: &mut [u8], i: usize, x: u32)
    requires { i + 4 ≤ length buffer.old }
    ensures { buffer.new ≡ written buffer.old i (bytes_of (x ∷ [])) }
{
    buffer[i..i + 4].copy_from_slice(&x.to_le_bytes());
}

// Kept: two functions, since one copies the numbers and the other spreads each over four bytes; a type parameter
// would only choose between the two bodies. A table goes with how much of it is filled (fixed: fixed memory).
//
// The first n numbers of a table, at the start of a buffer.
pub fn put_numbers(buffer: &mut [u32], table: &[u32], n: usize)
    requires { (n ≤ length table.now) × (n ≤ length buffer.old) }
    ensures { buffer.new ≡ filled_with (take n table.now) buffer.old }
{
    buffer[..n].copy_from_slice(&table[..n]);
}

// The first n numbers of a table, as four bytes each, at the start of a buffer of bytes.
pub fn put_bytes(buffer: &mut [u8], table: &[u32], n: usize)
    requires { (n ≤ length table.now) × (4 * n ≤ length buffer.old) }
    ensures { buffer.new ≡ filled_with (bytes_of (take n table.now)) buffer.old }
{
    for k in 0..n {
        put_number(buffer, NUMBER * k, table[k]);
    }
}
