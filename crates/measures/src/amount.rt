ghost use Rattle.std.specs.Prelude.{◌≡◌};
ghost use Rattle.measures.specs.Amounts.{Kind, Lawful};

// What a measure counts in: a zero, a join of two amounts, and the question whether one is at most another. The question is
// a project rule's own, and its laws say more than `Ord` does; the delivered kinds answer it by their derived order.
pub trait Amount: Copy {
    ghost kind: { Kind Self };

    fn nothing() -> Self
        ensures { result ≡ kind.zero };

    fn joined(self, other: Self) -> Self
        ensures { result ≡ kind.join self other };

    fn is_at_most(self, other: Self) -> bool
        ensures { result ≡ kind.at_most self other };

    ghost lawful: { Lawful kind };
}
