use designs::drawing::Drawing;

// What is known of a walk: whether it is done, the nodes opened, the best drawing and its cost, the amount below
// which no drawing goes, and the size of the tree unless it is above 1,000,000,000. All of them are told whether it is done
// or not, so the word is a flag beside them.
#[derive(Clone, Copy)]
pub struct Report<A> {
    pub done: bool,
    pub opened: u32,
    pub cost: A,
    pub floor: A,
    pub size: Option<u32>,
    pub drawing: Drawing,
}
