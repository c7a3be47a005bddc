use designs::design::Design;
use designs::fault::DesignFault;
use measures::link::Class;
use std::alloc::{AllocError, Global};
use std::test::*;

// A fixed run of numbers that look random.
#[derive(Drop)]
pub struct Seed {
    state: u64,
}

impl Seed {
    pub fn new(state: u64) -> Seed {
        Seed { state }
    }

    pub fn number(&mut self) -> u64 {
        self.state = self
            .state
            .wrapping_mul(6364136223846793005)
            .wrapping_add(1442695040888963407);
        self.state >> 40
    }

    fn byte(&mut self) -> u8 {
        (self.number() & 0xff) as u8
    }

    // A number below the limit; 0 for the limit 0.
    pub fn below(&mut self, limit: u8) -> u8 {
        self.byte() % limit.max(1)
    }

    // The switches of one side in some order. Each is put in among those before it, which no iterator's method says. Not
    // `order` of one drawn number: the trials would then draw other rows than they did.
    pub fn row(&mut self, heap: Global, size: u8) -> Result<Vec<u8>, AllocError> {
        let mut row = Vec::new(heap);
        for switch in 0..size {
            let at = usize::from(self.byte()) % row.len().saturating_add(1);
            row.insert(at.min(row.len()), switch)?;
        }
        Ok(row)
    }

    // A link of a cell: one in five is a trunk, and one in three may have more strands than `light`.
    pub fn link(&mut self, left: u8, right: u8, light: u8) -> PlainLink {
        let most = if self.below(3) == 0 { 255 } else { light };
        let strands = self.below(most).wrapping_add(1);
        let class = if self.below(5) == 0 {
            Class::Trunk
        } else {
            Class::Ordinary
        };
        PlainLink {
            left,
            right,
            strands,
            class,
        }
    }

    // Links of some cells: each cell has one with a chance of so many in eight.
    pub fn links(
        &mut self,
        heap: Global,
        sizes: Sizes,
        chance: u8,
    ) -> Result<Vec<PlainLink>, AllocError> {
        let mut links = Vec::new(heap);
        for left in 0..sizes.left {
            for right in 0..sizes.right {
                if self.below(8) < chance {
                    links.push(self.link(left, right, 5))?;
                }
            }
        }
        Ok(links)
    }
}

// One more, if this was met.
pub fn count(number: &mut u32, met: bool) {
    if met {
        *number = number.wrapping_add(1);
    }
}

// A trunk if one of the two is, and the number by which a script names a class. Both are written again, by cases, so that
// what the trials compare with calls nothing of the library.
fn either(one: Class, two: Class) -> Class {
    match (one, two) {
        (Class::Ordinary, Class::Ordinary) => Class::Ordinary,
        _ => Class::Trunk,
    }
}

pub fn class_number(class: Class) -> u8 {
    match class {
        Class::Ordinary => 0,
        Class::Trunk => 1,
    }
}

// The link of a cell.
#[derive(Clone, Copy, PartialEq, Eq, Debug)]
pub struct PlainLink {
    pub left: u8,
    pub right: u8,
    pub strands: u8,
    pub class: Class,
}

impl PlainLink {
    fn is_at(&self, left: u8, right: u8) -> bool {
        self.left == left && self.right == right
    }

    // Puts the link into a design, which takes the class by its number.
    pub fn put_into(&self, design: &mut Design) -> Result<Class, DesignFault> {
        let class = class_number(self.class);
        design.link(self.left, self.right, self.strands, class)
    }
}

// The links of a design as a plain list, one for each cell that has any. It is searched as one reads a list, so that it has
// nothing in common with the library; a cell without a link has no strands, as there.
#[derive(Drop)]
pub struct Sheet {
    links: Vec<PlainLink>,
}

impl Sheet {
    pub fn new(heap: Global) -> Sheet {
        Sheet {
            links: Vec::new(heap),
        }
    }

    pub fn links(&self) -> &[PlainLink] {
        self.links.as_slice()
    }

    // Puts a link in; answers whether its cell has room for it.
    pub fn put(&mut self, link: PlainLink) -> Result<bool, AllocError> {
        let mut cells = self.links.iter_mut();
        let Some(held) = cells.find(|held| held.is_at(link.left, link.right)) else {
            self.links.push(link)?;
            return Ok(true);
        };
        let Some(strands) = held.strands.checked_add(link.strands) else {
            return Ok(false);
        };
        held.strands = strands;
        held.class = either(held.class, link.class);
        Ok(true)
    }

    // The link of a cell; none without strands.
    pub fn at(&self, left: u8, right: u8) -> PlainLink {
        let held = self.links.iter().find(|held| held.is_at(left, right));
        held.copied().unwrap_or(PlainLink {
            left,
            right,
            strands: 0,
            class: Class::Ordinary,
        })
    }
}

// What a drawing costs: under measure 1, and the two parts under measure 2.
#[derive(Clone, Copy, Default)]
pub struct Price {
    pub all: u64,
    pub trunk: u64,
    pub rest: u64,
}

impl Price {
    // Adds what the crossing of two links costs.
    fn add(&mut self, one: &PlainLink, two: &PlainLink) {
        let product = u64::from(one.strands).wrapping_mul(u64::from(two.strands));
        let part = match either(one.class, two.class) {
            Class::Ordinary => &mut self.rest,
            Class::Trunk => &mut self.trunk,
        };
        *part = part.wrapping_add(product);
        self.all = self.all.wrapping_add(product);
    }
}

// The switches of one side, filled up with 255; no more than 24 of them. Written again, so that rows have nothing in common
// with the library.
fn filled(switches: &[u8]) -> [u8; 24] {
    let count = switches.len().min(24);
    let mut row = [255; 24];
    row[..count].copy_from_slice(&switches[..count]);
    row
}

// Where a switch stands in a row.
fn place(row: &[u8], switch: u8) -> usize {
    row.iter().position(|s| *s == switch).unwrap_or(row.len())
}

// The rows of a drawing, each filled up with 255: a script's 48 bytes as a value, which is copied and compared.
#[derive(Clone, Copy, PartialEq, Eq, Debug)]
pub struct Rows {
    left: [u8; 24],
    right: [u8; 24],
}

impl Rows {
    pub fn of(left: &[u8], right: &[u8]) -> Rows {
        Rows {
            left: filled(left),
            right: filled(right),
        }
    }

    // The 48 bytes of the drawing.
    pub fn bytes(&self, heap: Global) -> Result<Vec<u8>, AllocError> {
        [self.left, self.right].concat(heap)
    }

    // Whether two links cross in the drawing.
    fn cross(&self, one: &PlainLink, two: &PlainLink) -> bool {
        let a = place(&self.left, one.left);
        let b = place(&self.right, one.right);
        let c = place(&self.left, two.left);
        let d = place(&self.right, two.right);
        a < c && d < b || c < a && b < d
    }

    // What the drawing of these links costs, by a look at every two of them.
    pub fn cost(&self, links: &[PlainLink]) -> Price {
        let mut price = Price::default();
        for (i, one) in links.iter().enumerate() {
            for two in links.iter().take(i).filter(|two| self.cross(one, two)) {
                price.add(one, two);
            }
        }
        price
    }
}

// How many orders so many switches have.
fn orders(size: u8) -> u64 {
    (1..=size).fold(1, |count: u64, k| count.wrapping_mul(u64::from(k)))
}

// An order of so many switches: another for each number below the count of orders, number order for 0. Each is put in
// among those before it, which no iterator's method says.
pub fn order(heap: Global, size: u8, number: u64) -> Result<Vec<u8>, AllocError> {
    let mut row = Vec::new(heap);
    let mut rest = number;
    for switch in 0..size {
        let places = u64::from(switch).saturating_add(1);
        let back = (rest % places) as usize;
        rest /= places;
        row.insert(row.len().saturating_sub(back), switch)?;
    }
    Ok(row)
}

// Every order of so many switches, filled up with 255.
fn all_orders(heap: Global, size: u8) -> Result<Vec<[u8; 24]>, AllocError> {
    let mut rows = Vec::new(heap);
    for number in 0..orders(size) {
        rows.push(filled(order(heap, size, number)?.as_slice()))?;
    }
    Ok(rows)
}

// How many nodes lie below one with so many children, if so many lie below each child.
fn grown(below: u64, children: u8) -> u64 {
    below.saturating_add(1).saturating_mul(u64::from(children))
}

// How many switches a design has, left and right.
#[derive(Clone, Copy, PartialEq, Eq, Debug)]
pub struct Sizes {
    pub left: u8,
    pub right: u8,
}

impl Sizes {
    // The design of these sizes without a link.
    pub fn empty(self) -> Result<Design, DesignFault> {
        Design::empty(self.left, self.right)
    }

    // The design of these sizes with these links.
    pub fn design(self, links: &[PlainLink]) -> Result<Design, Fail> {
        let mut design = self.empty()?;
        for link in links {
            link.put_into(&mut design)?;
        }
        Ok(design)
    }

    // The drawing with both rows in number order.
    pub fn first_rows(self, heap: Global) -> Result<Rows, AllocError> {
        let left = order(heap, self.left, 0)?;
        let right = order(heap, self.right, 0)?;
        Ok(Rows::of(left.as_slice(), right.as_slice()))
    }

    // Every drawing of so many switches.
    pub fn all_rows(self, heap: Global) -> Result<Vec<Rows>, AllocError> {
        let lefts = all_orders(heap, self.left)?;
        let rights = all_orders(heap, self.right)?;
        let mut rows = Vec::new(heap);
        for left in lefts.iter() {
            for right in rights.iter() {
                rows.push(Rows {
                    left: *left,
                    right: *right,
                })?;
            }
        }
        Ok(rows)
    }

    // The size of the tree, by what lies below each node: with j right switches unplaced j children, with k left
    // switches placed k + 1; none above 1,000,000,000.
    pub fn tree_size(self) -> Option<u32> {
        let below_lefts = (1..=self.right).fold(0, grown);
        let size = (1..=self.left).rev().fold(below_lefts, grown);
        u32::try_from(size)
            .ok()
            .filter(|size| *size <= 1_000_000_000)
    }
}

// Sizes of a design, and what is expected of them.
#[derive(Drop)]
pub struct SizeCase<T> {
    pub sizes: Sizes,
    pub expected: T,
}
