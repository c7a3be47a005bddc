ghost use Rattle.std.specs.Prelude.{◌≡◌};
ghost use Rattle.designs.specs.Grids.{Grid, grid_of};
ghost use Rattle.partials.specs.Delivered.{ruled, read_rule};
ghost use Rattle.partials.specs.Nodes.{partial_of};
ghost use Rattle.partials.specs.Partials.{Partial};
ghost use Rattle.partials.specs.Rules.{settled_price, lesser_price};
ghost use Rattle.partials.specs.Bounded.{settled_bounds, lesser_bounds};
ghost use Rattle.partials.specs.declared.delivered.Rule.TheVariants.{Settled, Lesser};

use crate::node::Node;
use crate::rule::BoundingRule;
use crate::rules::{lesser_price, settled_price};
use designs::design::Design;
use measures::amount::Amount;
use measures::measure::Measure;

// Rule 1: the known price of every settled pair. It and rule 2 are public types of their own, for a user whose walk has one
// rule; nothing here makes one. The enum below chooses by a number.
#[derive(Clone, Copy)]
pub struct SettledPairs;

impl<M: Measure> BoundingRule<M> for SettledPairs {
    ghost answered = { λ s g p. settled_price M.Amount.Amount.kind M.Measure.priced g p };

    ghost bounds = { λ s d p x h c. settled_bounds d p x h c M.Amount.Amount.kind M.Amount.Amount.lawful M.Measure.priced };

    fn answer(&self, design: &Design, node: &Node) -> M::Amount {
        settled_price::<M>(design, node)
    }
}

// Rule 2: that, and the lesser price of every other pair.
#[derive(Clone, Copy)]
pub struct LesserPrices;

impl<M: Measure> BoundingRule<M> for LesserPrices {
    ghost answered = { λ s g p. lesser_price M.Amount.Amount.kind M.Measure.priced g p };

    ghost bounds = { λ s d p x h c. lesser_bounds d p x h c M.Amount.Amount.kind M.Amount.Amount.lawful M.Measure.priced };

    fn answer(&self, design: &Design, node: &Node) -> M::Amount {
        lesser_price::<M>(design, node)
    }
}

// One of the delivered rules, chosen by a number: an enum, since no function may be handed out.
#[derive(Clone, Copy, PartialEq, Eq, Debug)]
pub enum Rule {
    Settled,
    Lesser,
}

// A number that names no rule. It is carried into a fault that is told by its number, so it has no Display.
#[derive(Clone, Copy, PartialEq, Eq, Debug)]
pub struct UnknownRule;

// Scripts name the rules 1 and 2.
impl TryFrom<u8> for Rule {
    type Error = UnknownRule;

    ghost try_from_gives = { λ number r. r ≡ read_rule number };

    fn try_from(number: u8) -> Result<Rule, UnknownRule> {
        match number {
            1 => Ok(Rule::Settled),
            2 => Ok(Rule::Lesser),
            _ => Err(UnknownRule),
        }
    }
}

impl<M: Measure> BoundingRule<M> for Rule {
    ghost answered = { λ s g p. ruled s (settled_price M.Amount.Amount.kind M.Measure.priced g p) (lesser_price M.Amount.Amount.kind M.Measure.priced g p) };

    ghost bounds = { elim [
      | Settled ↦ λ d p x h c. settled_bounds d p x h c M.Amount.Amount.kind M.Amount.Amount.lawful M.Measure.priced
      | Lesser ↦ λ d p x h c. lesser_bounds d p x h c M.Amount.Amount.kind M.Amount.Amount.lawful M.Measure.priced
    ] };

    fn answer(&self, design: &Design, node: &Node) -> M::Amount {
        match self {
            Rule::Settled => settled_price::<M>(design, node),
            Rule::Lesser => lesser_price::<M>(design, node),
        }
    }
}
