// A set of machine places, as one word.
//
// A book's machines stand at the places 0 to 31 in ascending number. Every contract here says through `has`
// which places a set holds; that of `==` says too what it compares.
#![tactic(auto)]

ghost use Rattle.std.specs.Prelude.{◌≡◌, ℕ, false, not, ◌&&◌, ◌||◌, ◌↔◌, IsTrue, MatchOption, ◌==◌, nat_lt};
ghost use Rattle.places.specs.Has.{has, same_places, size, Lowest};
ghost use Rattle.std.specs.Cmp.Rules.{comparing};
ghost use Rattle.std.proofs.Common.{rules};

#[derive(Clone, Copy, Debug, Default)]
pub struct Places {
    word: u32,
}

impl Places {
    // No place.
    pub fn empty() -> Places
        ensures holds_no_place { (k : ℕ) → has result k ≡ false }
    {
        Places { word: 0 }
    }

    // Whether the place is in the set; a place from 32 on is in none.
    pub fn contains(self, place: usize) -> bool
        ensures tells_whether_the_place_is_held { result ≡ has self place }
    {
        place < 32 && (self.word >> place) & 1 == 1
    }

    // The set with one place more; a place from 32 on is left out.
    pub fn with(self, place: usize) -> Places
        ensures adds_the_place { (k : ℕ) → has result k ≡ (has self k || (k == place && nat_lt place 32)) }
    {
        if place < 32 {
            Places {
                word: self.word | (1 << place),
            }
        } else {
            self
        }
    }

    // The places of either set.
    pub fn union(self, other: Places) -> Places
        ensures holds_the_places_of_either { (k : ℕ) → has result k ≡ (has self k || has other k) }
    {
        Places {
            word: self.word | other.word,
        }
    }

    // The places that the other set does not hold.
    pub fn minus(self, other: Places) -> Places
        ensures holds_the_places_that_the_other_does_not { (k : ℕ) → has result k ≡ (has self k && not (has other k)) }
    {
        Places {
            word: self.word ^ (self.word & other.word),
        }
    }

    // How many places there are.
    pub fn len(self) -> u32
        ensures counts_the_places { result ≡ size (has self) }
    {
        self.word.count_ones()
    }

    // Whether there is no place.
    pub fn is_empty(self) -> bool
        ensures tells_whether_it_holds_no_place { IsTrue result ↔ ((k : ℕ) → has self k ≡ false) }
    {
        self.first().is_none()
    }

    // The lowest place, if there is one.
    pub fn first(self) -> Option<usize>
        ensures gives_the_lowest_place { MatchOption result ((k : ℕ) → has self k ≡ false) (λ i. Lowest self i) }
    {
        if self.word == 0 {
            return None;
        }
        Some(self.word.trailing_zeros() as usize)
    }

    // Takes the lowest place out, if there is one.
    pub fn pop_first(&mut self) -> Option<usize>
        ensures gives_the_lowest_place { MatchOption result ((k : ℕ) → has self.old k ≡ false) (λ i. Lowest self.old i) }
        ensures takes_just_this_place { MatchOption result (self.new ≡ self.old) (λ i. (k : ℕ) → has self.new k ≡ (has self.old k && not (k == i))) }
    {
        let first = self.first()?;
        *self = self.minus(Places::empty().with(first));
        Some(first)
    }
}

// By hand: a derived `==` would promise that the words are equal, and not that both hold the same places.
impl PartialEq for Places {
    ghost eq = { same_places };

    ghost laws = { Prim.search (comparing, rules) };

    // Whether both hold the same places.
    fn eq(&self, other: &Places) -> bool
        ensures answers_as_the_comparison_says { result ≡ same_places self.now other.now }
        ensures tells_whether_both_hold_the_same_places { IsTrue result ↔ ((k : ℕ) → has self.now k ≡ has other.now k) }
    {
        self.word == other.word
    }
}
