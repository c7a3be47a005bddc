ghost use Rattle.std.specs.Prelude.{◌≡◌, ℕ, ◌-◌, ◌^◌, ◌<◌};

// What trunk crossings cost, and what the rest costs. At the top of the trunk part the rest is at its top too.
#[derive(Clone, Copy, PartialEq, Eq, PartialOrd, Ord)]
pub struct Pair {
    pub trunk: u64,
    pub rest: u64,
    ghost fits: { (trunk < 2 ^ 64) × (rest < 2 ^ 64) },
    ghost top: { trunk ≡ 2 ^ 64 - 1 → rest ≡ 2 ^ 64 - 1 },
}
