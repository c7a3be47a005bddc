ghost use Rattle.std.specs.Prelude.{◌≡◌, ◌<◌, All};
ghost use Rattle.designs.specs.Costs.{between};
ghost use Rattle.designs.specs.Grids.{grid_of, cell_in};

use designs::design::Design;
use measures::measure::Measure;

// Both prices of right switches u and v over the placed left switches: with u before v, and with v before u. They are given
// together as a tuple, by a project rule.
pub fn pair_price<M: Measure>(design: &Design, left: &[u8], u: u8, v: u8) -> (M::Amount, M::Amount)
    requires left { All (λ a. a < 24) left.now }
    requires first { u < 24 }
    requires second { v < 24 }
    ensures first { result.0 ≡ between M.Amount.Amount.kind M.Measure.priced (cell_in (grid_of design.now)) left.now u v }
    ensures second { result.1 ≡ between M.Amount.Amount.kind M.Measure.priced (cell_in (grid_of design.now)) left.now v u }
{
    let u_first = design.price_between::<M>(left, u, v);
    let v_first = design.price_between::<M>(left, v, u);
    (u_first, v_first)
}
