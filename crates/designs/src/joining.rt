ghost use Rattle.std.specs.Prelude.{◌≡◌, ℕ, [], ◌∷◌, All, MatchOption};
ghost use Rattle.designs.specs.Costs.{over_each, over_two};
ghost use Rattle.designs.specs.Joins.{Gives, GivesTwo};

use measures::amount::Amount;

// The join of an amount for each switch of a row.
pub fn over_each<A: Amount, F: Fn(u8) -> A>(row: &[u8], amount: F) -> A
    requires { All (λ x. F.pre amount x) row.now }
    ensures { (f : ℕ → A) → Gives (F.post amount) f row.now → result ≡ over_each A.Amount.kind f row.now }
{
    let mut sum = A::nothing();
    for x in row {
        sum = sum.joined(amount(*x));
    }
    sum
}

// The first switch of a row and those behind it, so that no switch is paired with itself.
fn first_and_later(row: &[u8]) -> Option<(u8, &[u8])>
    ensures { MatchOption result (row.now ≡ []) (λ pair. row.now ≡ pair.0 ∷ pair.1.now) }
{
    let (first, later) = row.split_first()?;
    Some((*first, later))
}

// The join of an amount for each two switches of a row, the earlier first. No iterator gives each with the rest behind it.
pub fn over_two<A: Amount, F: Fn(u8, u8) -> A>(row: &[u8], amount: F) -> A
    requires { All (λ x. All (λ y. F.pre amount x y) row.now) row.now }
    ensures { (f : ℕ → ℕ → A) → GivesTwo (F.post amount) f row.now → result ≡ over_two A.Amount.kind f row.now }
{
    let mut sum = A::nothing();
    let mut rest = row;
    while let Some((first, later)) = first_and_later(rest) {
        sum = sum.joined(over_each(
            later,
            |y: u8| -> A
                requires { F.pre amount first y }
                ensures { F.post amount first y result }
            { amount(first, y) },
        ));
        rest = later;
    }
    sum
}
