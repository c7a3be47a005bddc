ghost use Rattle.std.specs.Prelude.{◌≡◌, ℕ, ◌-◌, ◌≤◌, true, false, ◌++◌, length, replicate, if◌then◌else◌, Some, None, Decides, MatchOption, ◌<◌, All};
ghost use Rattle.std.specs.Option.{option_map};
ghost use Rattle.designs.specs.Rows.{RowBytes, each_once, all_255, is_order, is_row, number_order};
ghost use Rattle.designs.specs.Readings.{row_of};

use super::Row;
use crate::side::SideSize;

// What stands behind the switches.
const FILLER: u8 = 255;

// Whether each number below the length is named once. The casts stay, here and below: the check proves that nothing is
// lost, and TryFrom would add a branch that never comes.
fn names_each_once(names: &[u8]) -> bool
    requires { length names.now ≤ 24 }
    ensures { result ≡ each_once (length names.now) names.now }
{
    (0..names.len() as u8).all(|k| names.contains(&k))
}

// Whether every byte is 255.
fn is_filler(bytes: &[u8]) -> bool
    ensures { result ≡ all_255 bytes.now }
{
    bytes.iter().all(|b| *b == FILLER)
}

// The names, filled up with 255 to 24 bytes.
fn filled(names: &[u8]) -> [u8; 24]
    requires { length names.now ≤ 24 }
    ensures { result ≡ names.now ++ replicate (24 - length names.now) 255 }
{
    let mut bytes = [FILLER; 24];
    bytes[..names.len()].copy_from_slice(names);
    bytes
}

// So many switches in number order, filled up with 255 to 24 bytes. Tried by `zip` with the numbers: after another adapter
// of `iter_mut` nothing is known of the bytes.
fn numbers(count: u8) -> [u8; 24]
    requires { count ≤ 24 }
    ensures { result ≡ number_order count ++ replicate (24 - count) 255 }
{
    let mut bytes = [FILLER; 24];
    for (k, byte) in bytes[..usize::from(count)].iter_mut().enumerate() {
        *byte = k as u8;
    }
    bytes
}

impl Row {
    // The switches in their order. That they are below 24 is said where a type hands them out, here and in the lists of
    // partial drawings, and asked only where a bare slice is taken.
    pub fn switches(&self) -> &[u8]
        ensures list { result.now ≡ row_of self.now }
        ensures below { All (λ a. a < 24) result.now }
    {
        &self.switches[..usize::from(self.size.count)]
    }

    // Reads a row of `size` switches from 24 bytes; none where they are not an order of them and then 255s.
    pub(crate) fn read(bytes: &[u8], size: SideSize) -> Option<Row>
        requires { length bytes.now ≡ 24 }
        ensures value { MatchOption result (is_row size.count bytes.now ≡ false) (λ row. (is_row size.count bytes.now ≡ true) × (row.size.count ≡ size.count) × (row.switches ≡ bytes.now)) }
        ensures meaning { Decides (is_row size.count bytes.now) (RowBytes size.count bytes.now) }
    {
        let (names, rest) = bytes.split_at(usize::from(size.count));
        if !names_each_once(names) || !is_filler(rest) {
            return None;
        }
        let mut switches = [FILLER; 24];
        switches.copy_from_slice(bytes);
        Some(Row { size, switches })
    }

    // The row with these names; none where they are not an order of `size` switches.
    pub(crate) fn of(names: &[u8], size: SideSize) -> Option<Row>
        ensures { option_map row_of result ≡ (if is_order size.count names.now then Some names.now else None) }
    {
        if names.len() != usize::from(size.count) {
            return None;
        }
        Row::read(&filled(names), size)
    }

    // The switches in number order.
    pub(crate) fn in_number_order(size: SideSize) -> Row
        ensures size { result.size.count ≡ size.count }
        ensures switches { row_of result ≡ number_order size.count }
    {
        Row {
            size,
            switches: numbers(size.count),
        }
    }
}
