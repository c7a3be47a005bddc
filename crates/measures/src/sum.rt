ghost use Rattle.std.specs.Prelude.{ℕ, ◌^◌, ◌<◌};

// A whole number up to 2^64 - 1.
#[derive(Clone, Copy, PartialEq, Eq, PartialOrd, Ord)]
pub struct Sum {
    pub value: u64,
    ghost fits: { value < 2 ^ 64 },
}
