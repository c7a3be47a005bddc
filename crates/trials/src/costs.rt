use crate::plain::{PlainLink, Price, Rows, Seed, Sheet, Sizes, count};
use designs::choosing::read_part;
use designs::design::Design;
use designs::fault::{DesignFault, LinkFault};
use measures::link::Class;
use measures::strands::ByStrands;
use measures::trunks::ByTrunks;
use std::process::Abort;
use std::test::*;

// What the trials met, so that none of it is left out.
#[derive(Default, Drop)]
struct Met {
    full_cells: u32,
    without: u32,
    trunk: u32,
    rest: u32,
    both: u32,
}

impl Met {
    fn add_drawing(&mut self, price: Price) {
        count(&mut self.without, price.all == 0);
        count(&mut self.trunk, price.trunk > 0 && price.rest == 0);
        count(&mut self.rest, price.trunk == 0 && price.rest > 0);
        count(&mut self.both, price.trunk > 0 && price.rest > 0);
    }
}

// A design, the same links as a plain list, and what the trials draw and meet.
#[derive(Drop)]
struct Trial<'a> {
    design: Design,
    sheet: Sheet,
    seed: &'a mut Seed,
    met: &'a mut Met,
}

impl<'a> Trial<'a> {
    fn new(rt: &impl AllocGlobal, seed: &'a mut Seed, met: &'a mut Met) -> Result<Trial<'a>, Fail> {
        let sizes = Sizes {
            left: seed.below(5).wrapping_add(1),
            right: seed.below(5).wrapping_add(1),
        };
        Ok(Trial {
            design: sizes.empty()?,
            sheet: Sheet::new(rt.alloc()),
            seed,
            met,
        })
    }

    fn some_link(&mut self) -> PlainLink {
        let left = self.seed.below(self.design.left_size());
        let right = self.seed.below(self.design.right_size());
        self.seed.link(left, right, 20)
    }

    // Puts one link into both, which agree on whether it fits and on its cell afterwards.
    fn put(&mut self, rt: &impl Abort) -> Result<(), Fail> {
        let link = self.some_link();
        let put = link.put_into(&mut self.design);
        let fits = self.sheet.put(link)?;
        let full = DesignFault::InLink(LinkFault::CellFull);
        assert_eq!(rt; put, fits.then_some(link.class).ok_or(full));
        count(&mut self.met.full_cells, !fits);
        let cell = self.design.cell(link.left % 24, link.right % 24);
        let held = self.sheet.at(link.left, link.right);
        // A `Cell` made to compare with would name the same two fields.
        assert_eq!(rt; cell.strands, held.strands);
        assert_eq!(rt; cell.class, held.class);
        assert_eq!(rt; cell.class.is_trunk(), matches!(held.class, Class::Trunk));
        Ok(())
    }

    // Compares what one drawing costs.
    fn draw(&mut self, rt: &(impl Abort + AllocGlobal)) -> Result<(), Fail> {
        let left = self.seed.row(rt.alloc(), self.design.left_size())?;
        let right = self.seed.row(rt.alloc(), self.design.right_size())?;
        let rows = Rows::of(left.as_slice(), right.as_slice());
        let drawing = read_part(&self.design, rows.bytes(rt.alloc())?.as_slice())?;
        let expected = rows.cost(self.sheet.links());
        assert_eq!(rt; self.design.cost::<ByStrands>(&drawing).value, expected.all);
        let pair = self.design.cost::<ByTrunks>(&drawing);
        assert_eq!(rt; pair.trunk, expected.trunk);
        assert_eq!(rt; pair.rest, expected.rest);
        self.met.add_drawing(expected);
        Ok(())
    }
}

#[test]
fn random_drawings(rt: HostRuntime) -> Result<(), Fail> {
    let mut seed = Seed::new(1);
    let mut met = Met::default();
    for _ in 0..300 {
        let mut trial = Trial::new(&rt, &mut seed, &mut met)?;
        for _ in 0..trial.seed.below(20) {
            trial.put(&rt)?;
        }
        for _ in 0..3 {
            trial.draw(&rt)?;
        }
    }
    assert!(rt; met.full_cells > 50);
    assert!(rt; met.without > 50);
    assert!(rt; met.trunk > 50);
    assert!(rt; met.rest > 50);
    assert!(rt; met.both > 50);
    Ok(())
}
