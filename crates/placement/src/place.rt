ghost use Rattle.std.specs.Prelude.{◌≡◌, ◌<◌, ℕ, List, length};
ghost use Rattle.placement.specs.Placement.{Triple, IsPlacement, owner_of, local_of, owned_of, global_of};

/// The owner of an index, and its number there.
#[derive(Clone, Copy, Debug, PartialEq, Eq)]
pub struct Seat {
    pub owner: u32,
    pub local: u32,
}

/// Which rank owns each index of an axis, and by which number. No call takes memory.
///
/// Its meaning is the number of ranks and a list with one triple (index, rank, local) for each index.
/// The list is as long as the axis, its extent.
pub trait Placement {
    /// The number of ranks. A rank may own nothing.
    ghost ranks: { Self → ℕ };

    /// The triples, by rising index.
    ghost triples: { Self → List Triple };

    /// The rank that owns an index.
    fn owner(&self, i: u32) -> u32
        requires { i < length (triples self.now) }
        ensures { result ≡ owner_of (triples self.now) i };

    /// The number of an index among those of its owner.
    fn local(&self, i: u32) -> u32
        requires { i < length (triples self.now) }
        ensures { result ≡ local_of (triples self.now) i };

    /// The owner of an index and its number there, for callers that want both.
    fn seat(&self, i: u32) -> Seat
        requires { i < length (triples self.now) }
        ensures owner { result.owner ≡ owner_of (triples self.now) i }
        ensures local { result.local ≡ local_of (triples self.now) i }
    {
        Seat {
            owner: self.owner(i),
            local: self.local(i),
        }
    }

    /// How many indices a rank owns.
    fn owned(&self, p: u32) -> u32
        requires { p < ranks self.now }
        ensures { result ≡ owned_of (triples self.now) p };

    /// The index with a local number at a rank.
    fn global(&self, p: u32, l: u32) -> u32
        requires { l < owned_of (triples self.now) p }
        ensures { result ≡ global_of (triples self.now) p l };

    /// The triples are a placement. The laws below follow from it.
    ghost placed: { (s : Self) → IsPlacement (ranks s) (triples s) };

    ghost owner_is_a_rank: { (s : Self) (i : ℕ) → i < length (triples s) → owner_of (triples s) i < ranks s };

    ghost global_is_an_index: { (s : Self) (p l : ℕ) → l < owned_of (triples s) p →
        global_of (triples s) p l < length (triples s) };

    ghost global_undoes_local: { (s : Self) (i : ℕ) → i < length (triples s) →
        global_of (triples s) (owner_of (triples s) i) (local_of (triples s) i) ≡ i };

    ghost owner_of_global: { (s : Self) (p l : ℕ) → l < owned_of (triples s) p →
        owner_of (triples s) (global_of (triples s) p l) ≡ p };

    ghost local_of_global: { (s : Self) (p l : ℕ) → l < owned_of (triples s) p →
        local_of (triples s) (global_of (triples s) p l) ≡ l };

    ghost local_is_owned: { (s : Self) (i : ℕ) → i < length (triples s) →
        local_of (triples s) i < owned_of (triples s) (owner_of (triples s) i) };

    ghost global_rises: { (s : Self) (p k l : ℕ) → k < l → l < owned_of (triples s) p →
        global_of (triples s) p k < global_of (triples s) p l };
}
