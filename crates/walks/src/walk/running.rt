ghost use Rattle.std.specs.Prelude.{◌≡◌, ◌+◌, ◌≤◌, IfOk, OnErr};
ghost use Rattle.designs.specs.Results.{on_ok};
ghost use Rattle.walks.specs.Moves.{Ran};
ghost use Rattle.walks.specs.Runs.{run_check};
ghost use Rattle.walks.specs.Searches.{GoesTo, walk_of, grid_in, cost_in};
ghost use Rattle.walks.specs.Walk.{run};

use super::Search;
use crate::fault::RunFault;
use measures::amount::Amount;
use measures::measure::Measure;
use partials::rule::BoundingRule;

// The most nodes that one run may be asked for, and that a walk may open.
const MOST_ASKED: u32 = 1_000_000;

const MOST_OPENED: u32 = 1_000_000_000;

impl<M: Measure> Search<M> {
    // The opening of a run, once its limits are kept: a loop left by its label with the nodes opened, as a project rule asks.
    fn run_for<R: BoundingRule<M>>(&mut self, rule: &R, nodes: u32) -> u32
        requires { self.old.opened + nodes ≤ 1000000000 }
        ensures goes { GoesTo self.old self.new (run M.Amount.Amount.kind (grid_in self.old) (cost_in self.old) (R.BoundingRule.answered rule.now (grid_in self.old)) nodes (walk_of self.old)) }
        ensures opened { self.old.opened + result ≡ self.new.opened }
    {
        let mut opened = 0;
        let opened = 'stepping: loop {
            if opened == nodes {
                break 'stepping opened;
            }
            if self.is_done() {
                break 'stepping opened;
            }
            self.open_one(rule);
            opened += 1;
        };
        opened
    }

    // The same, and what is true of the search then. What is proved of it by hand stands here, and not in the public function;
    // tried as one body with `run_for`: its steps are then not found.
    fn run_on<R: BoundingRule<M>>(&mut self, rule: &R, nodes: u32) -> u32
        requires { self.old.opened + nodes ≤ 1000000000 }
        ensures ran { Ran (R.BoundingRule.answered rule.now) nodes self.old self.new result }
    {
        self.run_for(rule, nodes)
    }

    // Opens up to so many nodes, until the walk is done; answers how many. Refused for 0 or more than 1,000,000 nodes,
    // or if they would make more than 1,000,000,000 with those opened before. That a refusal changes nothing compares before
    // with after, which no field can say.
    pub fn run<R: BoundingRule<M>>(&mut self, rule: &R, nodes: u32) -> Result<u32, RunFault>
        ensures check { on_ok (λ _. nodes) result ≡ run_check self.old.opened nodes }
        ensures refused { OnErr result (self.new ≡ self.old) }
        ensures ran { IfOk result (λ n. Ran (R.BoundingRule.answered rule.now) nodes self.old self.new n) }
    {
        if nodes == 0 || nodes > MOST_ASKED {
            return Err(RunFault::Nodes);
        }
        if nodes > MOST_OPENED - self.opened {
            return Err(RunFault::Total);
        }
        Ok(self.run_on(rule, nodes))
    }
}
