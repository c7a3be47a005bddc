ghost use Rattle.std.specs.Prelude.{◌≡◌};
ghost use Rattle.measures.specs.Sums.{sums, sum_held};
ghost use Rattle.measures.specs.SumLaws.{sums_lawful};

use crate::amount::Amount;
use crate::sum::Sum;

// A number as an amount.
impl From<u64> for Sum {
    ghost from_gives = { λ value r. r ≡ sum_held value };

    fn from(value: u64) -> Sum {
        Sum { value }
    }
}

impl Amount for Sum {
    ghost kind = { sums };

    ghost lawful = { sums_lawful };

    fn nothing() -> Sum {
        Sum::from(0)
    }

    fn joined(self, other: Sum) -> Sum {
        Sum::from(self.value.saturating_add(other.value))
    }

    fn is_at_most(self, other: Sum) -> bool {
        self <= other
    }
}
