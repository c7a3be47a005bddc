ghost use Rattle.std.specs.Prelude.{◌≡◌, not};
ghost use Rattle.designs.specs.Readings.{rows_of};
ghost use Rattle.walks.specs.Moves.{Weighed};
ghost use Rattle.walks.specs.Searches.{GoesTo, walk_of, cost_in};
ghost use Rattle.walks.specs.Walk.{offer};

use super::Search;
use crate::offered::Offered;
use designs::drawing::Drawing;
use measures::measure::Measure;

impl<M: Measure> Search<M> {
    // Takes a drawing if it costs less than the best. `GoesTo` compares the walk before and after, here and in each step of a
    // run, which no field can say.
    pub(super) fn take_better(&mut self, drawing: Drawing) -> Offered<M::Amount>
        ensures goes { GoesTo self.old self.new (offer M.Amount.Amount.kind (cost_in self.old) (rows_of drawing) (walk_of self.old)) }
        ensures cost { result.cost ≡ cost_in self.old (rows_of drawing) }
        ensures taken { result.taken ≡ not (M.Amount.Amount.kind.at_most self.old.best.cost result.cost) }
    {
        let cost = self.path.design.cost::<M>(&drawing);
        let taken = self.best.take(drawing, cost);
        Offered { taken, cost }
    }

    // The same, and what is true of the search then. What is proved of it by hand stands here, and not in the public function;
    // tried as one body with `take_better`: its steps are then not found.
    fn weigh(&mut self, drawing: Drawing) -> Offered<M::Amount>
        ensures weighed { Weighed (rows_of drawing) self.old self.new result }
    {
        self.take_better(drawing)
    }

    // An offered drawing becomes the best if it costs less.
    pub fn offer(&mut self, drawing: Drawing) -> Offered<M::Amount>
        ensures weighed { Weighed (rows_of drawing) self.old self.new result }
    {
        self.weigh(drawing)
    }
}
