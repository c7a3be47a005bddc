ghost use Rattle.std.specs.Prelude.{◌≡◌, ◌+◌, ◌≤◌, [], ◌∷◌, ◌++◌, length, decimal};
ghost use Rattle.arrayvec.specs.ArrayVec.{array_vec_len};
ghost use Rattle.measures.specs.Lines.{over};

use arrayvec::ArrayVec;
use itoa::Buffer;

// Adds bytes at the end of a text that has room for them. A text is bytes, and no string, since a measure may write its
// amounts in bytes that are no UTF-8.
pub fn push_bytes<const N: usize>(text: &mut ArrayVec<u8, N>, bytes: &[u8])
    requires { array_vec_len text.old + length bytes.now ≤ N }
    ensures { text.new.items ≡ text.old.items ++ bytes.now }
{
    let _pushed = text.try_extend_from_slice(bytes);
}

// Writes bytes into a lent line from a place on; answers the place behind them. What is proved by hand stands here.
fn put_text(line: &mut [u8], at: usize, text: &[u8]) -> usize
    requires { at + length text.now ≤ length line.old }
    ensures next { result ≡ at + length text.now }
    ensures bytes { line.new ≡ over line.old at text.now }
{
    let behind = at + text.len();
    line[at..behind].copy_from_slice(text);
    behind
}

// Writes a field into a lent line from a place on, and then the byte that ends it; answers the place behind them.
pub fn put_field(line: &mut [u8], at: usize, text: &[u8], end: u8) -> usize
    requires { at + length text.now + 1 ≤ length line.old }
    ensures next { result ≡ at + length text.now + 1 }
    ensures bytes { line.new ≡ over (over line.old at text.now) (at + length text.now) (end ∷ []) }
{
    let behind = put_text(line, at, text);
    line[behind] = end;
    behind + 1
}

// Writes a number in base ten, at most 20 figures, and then the byte that ends it; answers the place behind them.
pub fn put_number(line: &mut [u8], at: usize, n: u64, end: u8) -> usize
    requires { at + 21 ≤ length line.old }
    ensures next { result ≡ at + length (decimal n) + 1 }
    ensures bound { result ≤ at + 21 }
    ensures bytes { line.new ≡ over (over line.old at (decimal n)) (at + length (decimal n)) (end ∷ []) }
{
    put_field(line, at, Buffer::new().format(n).as_bytes(), end)
}
