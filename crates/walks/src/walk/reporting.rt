ghost use Rattle.std.specs.Prelude.{◌≡◌};
ghost use Rattle.walks.specs.Reports.{values_of, reported, AlwaysTrue};
ghost use Rattle.walks.specs.Searches.{walk_of, grid_in};
ghost use Rattle.walks.specs.Walk.{lower_bound, is_done};

use super::Search;
use crate::report::Report;
use designs::design::Design;
use measures::amount::Amount;
use measures::measure::Measure;
use partials::size::tree_size;

impl<M: Measure> Search<M> {
    // The design.
    pub fn design(&self) -> &Design
        ensures { result.now ≡ self.now.path.design }
    {
        &self.path.design
    }

    // No drawing below the root costs less.
    fn floor(&self) -> M::Amount
        ensures { result ≡ lower_bound M.Amount.Amount.kind (walk_of self.now) }
    {
        self.path.least_bound(self.best.cost)
    }

    // Whether nothing better exists.
    pub(super) fn is_done(&self) -> bool
        ensures { result ≡ is_done M.Amount.Amount.kind (walk_of self.now) }
    {
        self.best.cost.is_at_most(self.floor())
    }

    // What is known so far, with a floor that was worked out. What is proved of it by hand stands here, and not in the public
    // function.
    fn report_with(&self, floor: M::Amount) -> Report<M::Amount>
        requires { floor ≡ lower_bound M.Amount.Amount.kind (walk_of self.now) }
        ensures values { values_of result ≡ reported M.Amount.Amount.kind (grid_in self.now) (walk_of self.now) }
        ensures truth { AlwaysTrue self.now (values_of result) }
    {
        Report {
            done: self.best.cost.is_at_most(floor),
            opened: self.opened,
            cost: self.best.cost,
            floor,
            size: tree_size(&self.path.design),
            drawing: self.best.drawing,
        }
    }

    // What is known so far.
    pub fn report(&self) -> Report<M::Amount>
        ensures values { values_of result ≡ reported M.Amount.Amount.kind (grid_in self.now) (walk_of self.now) }
        ensures truth { AlwaysTrue self.now (values_of result) }
    {
        let floor = self.floor();
        self.report_with(floor)
    }
}
