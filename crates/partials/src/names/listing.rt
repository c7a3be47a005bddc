ghost use Rattle.std.specs.Prelude.{◌≡◌, ℕ, ◌+◌, ◌<◌, ◌≤◌, [], ◌∷◌, ◌++◌, length, All};
ghost use Rattle.partials.specs.Names.{names_of};
ghost use Rattle.partials.specs.Tree.{put_at};

use super::Names;

impl<const N: usize> Names<N> {
    // No switches.
    pub(crate) fn new() -> Names<N>
        ensures { names_of result ≡ [] }
    {
        Names {
            names: [0; N],
            count: 0,
        }
    }

    // The switches in their order. A node's two lists hand on what is said here.
    pub fn as_slice(&self) -> &[u8]
        ensures list { result.now ≡ names_of self.now }
        ensures below { All (λ a. a < 24) result.now }
        ensures few { length result.now ≤ N }
    {
        &self.names[..self.count]
    }

    // Adds a switch at the end.
    pub(crate) fn push(&mut self, switch: u8)
        requires room { length (names_of self.old) < N }
        requires below { switch < 24 }
        ensures { names_of self.new ≡ names_of self.old ++ (switch ∷ []) }
    {
        self.names[self.count] = switch;
        self.count += 1;
    }

    // Puts a switch in at a place.
    pub(crate) fn insert(&mut self, place: usize, switch: u8)
        requires room { length (names_of self.old) < N }
        requires place { place ≤ length (names_of self.old) }
        requires below { switch < 24 }
        ensures { names_of self.new ≡ put_at place switch (names_of self.old) }
    {
        self.names.copy_within(place..self.count, place + 1);
        self.names[place] = switch;
        self.count += 1;
    }
}
