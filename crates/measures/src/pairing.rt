ghost use Rattle.std.specs.Prelude.{◌≡◌};
ghost use Rattle.measures.specs.Pairs.{pairs, pair_held, rest_held};
ghost use Rattle.measures.specs.PairLaws.{pairs_lawful};

use crate::amount::Amount;
use crate::pair::Pair;

// The rest beside a trunk part: at its top where the trunk part is.
fn rest_beside(trunk: u64, rest: u64) -> u64
    ensures { result ≡ rest_held trunk rest }
{
    if trunk == u64::MAX { u64::MAX } else { rest }
}

impl Pair {
    // Two numbers as an amount.
    pub(crate) fn of(trunk: u64, rest: u64) -> Pair
        ensures { result ≡ pair_held trunk rest }
    {
        Pair {
            trunk,
            rest: rest_beside(trunk, rest),
        }
    }
}

impl Amount for Pair {
    ghost kind = { pairs };

    ghost lawful = { pairs_lawful };

    fn nothing() -> Pair {
        Pair::of(0, 0)
    }

    fn joined(self, other: Pair) -> Pair {
        Pair::of(
            self.trunk.saturating_add(other.trunk),
            self.rest.saturating_add(other.rest),
        )
    }

    fn is_at_most(self, other: Pair) -> bool {
        self <= other
    }
}
