ghost use Rattle.std.specs.Prelude.{◌≡◌, ℕ, ◌+◌, ◌≤◌};
ghost use Rattle.designs.specs.Grids.{grid_of};
ghost use Rattle.designs.specs.declared.cell.Cells.{Cells};
ghost use Rattle.partials.specs.Partials.{nothing_placed};
ghost use Rattle.partials.specs.Sizes.{right_size, left_size, tree_size, unless_above};
ghost use Rattle.partials.specs.Tree.{nodes_below};

use designs::design::Design;

// The largest size of a tree that is told.
const CEILING: u64 = 1_000_000_000;

// A size, unless it is above the ceiling.
fn unless_above(size: u64) -> Option<u64>
    ensures { result ≡ unless_above size }
{
    (size <= CEILING).then_some(size)
}

// The nodes below a full left row with so many right switches unplaced. It and the next are plain recursive functions, as a
// project rule asks, and no twins: this one counts switches left over, the next places to put a switch in.
fn right_size(unplaced: u8) -> Option<u64>
    ensures { result ≡ unless_above (right_size unplaced) }
{
    if unplaced == 0 {
        return Some(0);
    }
    let below = right_size(unplaced - 1)?;
    unless_above(u64::from(unplaced) * (1 + below))
}

// The nodes below the first left switches, of which `placed` are placed and `unplaced` are not.
fn left_size(rights: u8, placed: u8, unplaced: u8) -> Option<u64>
    requires { placed + unplaced ≤ 24 }
    ensures { result ≡ unless_above (left_size rights placed unplaced) }
{
    if unplaced == 0 {
        return right_size(rights);
    }
    let below = left_size(rights, placed + 1, unplaced - 1)?;
    unless_above((u64::from(placed) + 1) * (1 + below))
}

// The size of the tree of a design with these sizes. What is proved of it by hand stands here, and not in the public
// function. The cast stays: the check proves that nothing is lost, and TryFrom would add a branch that never comes.
fn size_of(lefts: u8, rights: u8) -> Option<u32>
    requires { lefts ≤ 24 }
    ensures size { result ≡ unless_above (tree_size lefts rights) }
    ensures counted { (c : Cells) → nodes_below (record { lefts = lefts; rights = rights; cells = c }) nothing_placed ≡ tree_size lefts rights }
{
    let size = left_size(rights, 0, lefts)?;
    Some(size as u32)
}

// The size of a design's tree, which is the number of its nodes; none above the ceiling.
pub fn tree_size(design: &Design) -> Option<u32>
    ensures size { result ≡ unless_above (tree_size (grid_of design.now).lefts (grid_of design.now).rights) }
    ensures counted { nodes_below (grid_of design.now) nothing_placed ≡ tree_size (grid_of design.now).lefts (grid_of design.now).rights }
{
    size_of(design.left_size(), design.right_size())
}
