ghost use Rattle.std.specs.Prelude.{◌≡◌, length, OnErr};
ghost use Rattle.designs.specs.Grids.{grid_of};
ghost use Rattle.designs.specs.Results.{on_ok};
ghost use Rattle.sessions.specs.Events.{event_of};
ghost use Rattle.sessions.specs.Stages.{stage_searching, read_grid, link_step, run_by, number_in, offer_by};
ghost use Rattle.sessions.specs.Stages.Stage.{filling};
ghost use Rattle.walks.specs.Runs.{run_check};
ghost use Rattle.walks.specs.Searches.{walk_of, grid_in};
ghost use Rattle.designs.specs.Readings.{read_rows};

use crate::telling::Telling;
use designs::design::Design;
use designs::drawing::Drawing;
use measures::link::Link;
use measures::measure::Measure;
use partials::rule::BoundingRule;
use scripts::fault::{ScriptFault, SearchFault, at_place};
use walks::offered::Offered;
use walks::walk::Search;

// What each command does to the design or the search that a session holds. The operands are taken by place: a slice pattern
// would need an else that is never reached.

// D: a design of these sizes.
pub(super) fn read_design(place: usize, operands: &[u8]) -> Result<Design, ScriptFault>
    requires { length operands.now ≡ 2 }
    ensures { on_ok grid_of result ≡ read_grid place operands.now }
{
    Ok(at_place(Design::empty(operands[0], operands[1]), place)?)
}

// L: puts a link into a design.
pub(super) fn put_link<M: Measure>(
    design: &mut Design,
    place: usize,
    operands: &[u8],
) -> Result<Telling<M>, ScriptFault>
    requires { length operands.now ≡ 4 }
    ensures told { event_of result ≡ (link_step (grid_of design.old) place operands.now).event }
    ensures stage { filling (grid_of design.new) ≡ (link_step {A = M.Amount} (grid_of design.old) place operands.now).stage }
    ensures refused { OnErr result (design.new ≡ design.old) }
{
    let (left, right, strands) = (operands[0], operands[1], operands[2]);
    let linked = design.link(left, right, strands, operands[3]);
    let class = at_place(linked, place)?;
    let link = Link { strands, class };
    Ok(Telling::Linked { left, right, link })
}

// S: opens nodes.
pub(super) fn run_search<M: Measure, R: BoundingRule<M>>(
    search: &mut Search<M>,
    rule: &R,
    place: usize,
    operands: &[u8],
) -> Result<Telling<M>, ScriptFault>
    requires { length operands.now ≡ 4 }
    ensures told { event_of result ≡ (run_by M.Amount.Amount.kind M.Measure.priced (R.BoundingRule.answered rule.now) (grid_in search.old) (walk_of search.old) place (run_check (walk_of search.old).opened (number_in operands.now))).event }
    ensures stage { stage_searching search.new ≡ (run_by M.Amount.Amount.kind M.Measure.priced (R.BoundingRule.answered rule.now) (grid_in search.old) (walk_of search.old) place (run_check (walk_of search.old).opened (number_in operands.now))).stage }
    ensures refused { OnErr result (search.new ≡ search.old) }
{
    let asked = u32::from_be_bytes([operands[0], operands[1], operands[2], operands[3]]);
    let ran = search.run(rule, asked).map_err(SearchFault::from);
    let opened = at_place(ran, place)?;
    Ok(Telling::Searched { asked, opened })
}

// O: offers a drawing.
pub(super) fn offer_drawing<M: Measure>(
    search: &mut Search<M>,
    place: usize,
    operands: &[u8],
) -> Result<Telling<M>, ScriptFault>
    requires { length operands.now ≡ 48 }
    ensures told { event_of result ≡ (offer_by M.Amount.Amount.kind M.Measure.priced (grid_in search.old) (walk_of search.old) place (read_rows (grid_in search.old) operands.now)).event }
    ensures stage { stage_searching search.new ≡ (offer_by M.Amount.Amount.kind M.Measure.priced (grid_in search.old) (walk_of search.old) place (read_rows (grid_in search.old) operands.now)).stage }
    ensures refused { OnErr result (search.new ≡ search.old) }
{
    let read = Drawing::read(search.design(), operands).map_err(SearchFault::from);
    let drawing = at_place(read, place)?;
    let Offered { taken, cost } = search.offer(drawing);
    Ok(Telling::Offered { taken, cost })
}
