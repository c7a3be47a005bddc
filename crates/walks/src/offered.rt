// What became of an offered drawing: whether it is now the best, and its cost, which is told either way: so a flag stands
// beside it, and an enum would hold the cost in both of its cases.
#[derive(Clone, Copy)]
pub struct Offered<A> {
    pub taken: bool,
    pub cost: A,
}
