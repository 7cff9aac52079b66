// The residual reach of some machines: every machine that a chain of links leads to from them, breadth first.
ghost use Rattle.std.specs.Prelude.{◌≡◌, ℕ, true, false, ◌||◌};
ghost use Rattle.places.specs.Has.{has};
ghost use Rattle.shares.specs.Cells.{nth};
ghost use Rattle.shares.specs.Stations.{leads_to};
ghost use Rattle.shares.specs.Reaches.{Reached, Noted};

use crate::station::Station;
use places::Places;

// Each place but the starts has the place that leads to it, found before it: so a chain back ends at a start. What
// stands beside other places means nothing. Places and no references, since the tables lie in fixed memory.
#[derive(Clone, Copy)]
pub(crate) struct Reach {
    pub(crate) places: Places,
    pub(crate) before: [usize; 32],
}

impl Reach {
    // What the machines lead to from some of them. The layer has what is left of the places found last; what
    // they lead to is found, and is the next layer.
    pub(crate) fn of(stations: &[Station; 32], from: Places) -> Reach
        ensures reaches_just_what_chains_lead_to { Reached (leads_to stations.now) (has from) (has result.places) (nth result.before) }
    {
        let mut reach = Reach {
            places: from,
            before: [0; 32],
        };
        let mut layer = from;
        let mut found = Places::empty();
        while let Some(i) = layer.pop_first() {
            let new = stations[i].next().minus(reach.places);
            reach.note(i, new);
            (layer, found) = next_layer(layer, found.union(new));
        }
        reach
    }

    // Adds the new places, to which the place i leads.
    fn note(&mut self, i: usize, new: Places)
        ensures adds_the_places { (k : ℕ) → has self.new.places k ≡ (has self.old.places k || has new k) }
        ensures notes_just_these { Noted (has new) i (nth self.old.before) (nth self.new.before) }
    {
        self.places = self.places.union(new);
        // no `for`: nothing else would call an iterator of a set's places
        let mut left = new;
        while let Some(j) = left.pop_first() {
            self.before[j] = i;
        }
    }
}

// The layer and what was found from it: once the layer is used up, this is the next one.
fn next_layer(layer: Places, found: Places) -> (Places, Places)
    ensures keeps_all_places { (k : ℕ) → (has result.0 k || has result.1 k) ≡ (has layer k || has found k) }
    ensures keeps_both_apart { ((k : ℕ) → has layer k ≡ true → has found k ≡ false) → (k : ℕ) → has result.0 k ≡ true → has result.1 k ≡ false }
    ensures has_a_layer_while_there_are_places { ((k : ℕ) → has result.0 k ≡ false) → (k : ℕ) → has result.1 k ≡ false }
{
    if layer.is_empty() {
        (found, Places::empty())
    } else {
        (layer, found)
    }
}
