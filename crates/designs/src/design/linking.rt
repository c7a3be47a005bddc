ghost use Rattle.std.specs.Prelude.{◌≡◌, ℕ, ◌+◌, ◌<◌, ◌≤◌, true, false, replicate, IfOk, OnErr};
ghost use Rattle.measures.specs.declared.link.Class.TheVariants.{Ordinary, Trunk};
ghost use Rattle.designs.specs.Grids.{grid_of, no_links, sized, link_check, in_link, after_link, with_link, cell_in, LinkAdded};
ghost use Rattle.designs.specs.Results.{on_ok};

use super::Design;
use crate::cell::{Cells, cell_place};
use crate::fault::{DesignFault, LinkFault};
use crate::side::SideSize;
use measures::link::Class;

// A design starts from plain constant arrays, as a project rule asks.
const NO_STRANDS: [u8; 576] = [0; 576];

const ALL_ORDINARY: [Class; 576] = [Class::Ordinary; 576];

fn no_cells() -> Cells
    ensures strands { result.strands ≡ replicate 576 0 }
    ensures classes { result.classes ≡ replicate 576 Ordinary }
{
    Cells {
        strands: NO_STRANDS,
        classes: ALL_ORDINARY,
    }
}

// A design of these sizes without links. What is proved of it by hand stands here, and not in the public function. The sizes
// are two fields of the design, so a struct of the two would be taken apart at once.
fn blank(left: SideSize, right: SideSize) -> Design
    ensures { grid_of result ≡ no_links left.count right.count }
{
    let cells = no_cells();
    Design { left, right, cells }
}

impl Design {
    // A design of these sizes without links. A script brings them as two bytes.
    pub fn empty(left: u8, right: u8) -> Result<Design, DesignFault>
        ensures { on_ok grid_of result ≡ sized left right }
    {
        let left = SideSize::try_from(left)?;
        let right = SideSize::try_from(right)?;
        Ok(blank(left, right))
    }

    // Whether a link may be put in, and its class. The four bytes of an L stay parameters, here and below: a struct would be
    // made for one call, and its class is a number before the check and a Class after.
    fn check_link(&self, left: u8, right: u8, strands: u8, class: u8) -> Result<Class, LinkFault>
        ensures { result ≡ link_check (grid_of self.now) left right strands class }
    {
        if left >= self.left.count || right >= self.right.count {
            return Err(LinkFault::UnknownSwitch);
        }
        if strands == 0 {
            return Err(LinkFault::NoStrands);
        }
        let class = Class::try_from(class)?;
        if self
            .cell(left, right)
            .strands
            .checked_add(strands)
            .is_none()
        {
            return Err(LinkFault::CellFull);
        }
        Ok(class)
    }

    // Puts a link in that may be put in.
    fn put_in(&mut self, left: u8, right: u8, strands: u8, class: Class)
        requires left { left < self.old.left.count }
        requires right { right < self.old.right.count }
        requires some { 0 < strands }
        requires room { (cell_in (grid_of self.old) left right).strands + strands ≤ 255 }
        ensures state { grid_of self.new ≡ with_link (grid_of self.old) left right strands class }
        ensures added { LinkAdded (grid_of self.old) left right strands class (grid_of self.new) }
    {
        let at = cell_place(left, right);
        self.cells.strands[at] += strands;
        self.cells.classes[at] = self.cells.classes[at].either(class);
    }

    // Puts a link in, and answers its class: its cell gets the strands added, and is trunk if either link is. The class comes
    // as a script's number, since the refusal of one that is no class lies between two others of this call. That a refusal
    // changes nothing compares before with after, which no field can say.
    pub fn link(
        &mut self,
        left: u8,
        right: u8,
        strands: u8,
        class: u8,
    ) -> Result<Class, DesignFault>
        ensures result { result ≡ in_link (link_check (grid_of self.old) left right strands class) }
        ensures state { grid_of self.new ≡ after_link (grid_of self.old) left right strands (link_check (grid_of self.old) left right strands class) }
        ensures refused { OnErr result (self.new ≡ self.old) }
        ensures added { IfOk result (λ k. LinkAdded (grid_of self.old) left right strands k (grid_of self.new)) }
    {
        let kind = self.check_link(left, right, strands, class)?;
        self.put_in(left, right, strands, kind);
        Ok(kind)
    }
}
