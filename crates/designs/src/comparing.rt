ghost use Rattle.std.specs.Prelude.{◌≡◌};
ghost use Rattle.designs.specs.Choosing.{compared};

use measures::amount::Amount;
use measures::measure::Measure;

// How a first amount compares with a second. The three words are the planners' own: `Ordering` would say `Less` for fewer,
// which is no plainer.
#[derive(Clone, Copy, PartialEq, Eq, Debug)]
pub enum Comparison {
    Fewer,
    Alike,
    More,
}

// Compares two amounts of one measure. An amount has no Ord, only the question, so it is asked both ways.
pub fn compare<M: Measure>(first: M::Amount, second: M::Amount) -> Comparison
    ensures { result ≡ compared M.Amount.Amount.kind first second }
{
    if !first.is_at_most(second) {
        return Comparison::More;
    }
    if second.is_at_most(first) {
        Comparison::Alike
    } else {
        Comparison::Fewer
    }
}
