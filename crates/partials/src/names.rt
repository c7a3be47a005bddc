ghost use Rattle.std.specs.Prelude.{◌≡◌, ℕ, ◌<◌, ◌≤◌, length, slice_index};

pub mod listing;

// At most N switches of one side in a row. Memory is fixed, as no call uses the heap, and a node is copied, which vectors of
// fixed capacity cannot be: so the count stands beside the array. A row of a drawing is no list of this kind: it keeps 255s.
// N is 24 at each use; written out, it would stand beside the 24 of `below`, which is another limit.
#[derive(Clone, Copy)]
pub struct Names<const N: usize> {
    names: [u8; N],
    count: usize,
    ghost few: { count ≤ N },
    ghost whole: { length names ≡ N },
    ghost below: { (k : ℕ) → slice_index names k < 24 },
}
