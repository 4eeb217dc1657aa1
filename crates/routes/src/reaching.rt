// What is reached from a middle, line by line.
ghost use Rattle.std.specs.Prelude.{◌≡◌, ℕ, ◌-◌, ◌<◌, true, length, MatchResult};
ghost use Rattle.faults.specs.declared.Fault.TheVariants.{Memory};
ghost use Rattle.sets.specs.Set.{in_set};
ghost use Rattle.rows.specs.Rows.{huts};
ghost use Rattle.routes.specs.Fresh.{fresh};

use faults::Fault;
use rows::Rows;
use sets::HutSet;
use std::alloc::Global;

// The huts to which a way leads, how few lines each of them is away, and those outside the middle, nearer ones first, lower ones first among equals.
#[derive(Drop)]
pub(super) struct Reach {
    pub(super) huts: HutSet,
    pub(super) distances: Vec<u16>,
    pub(super) row: Vec<u16>,
}

// Whether a hut is reached with the next line: it is not in the set, and has a neighbour there.
fn is_fresh(rows: &Rows, reached: &HutSet, hut: usize) -> bool
    requires there { hut < huts rows.now }
    ensures { result ≡ fresh rows.now reached.now hut }
{
    !reached.has(hut) && rows.of[hut].meets(reached, 0)
}

impl Reach {
    ghost use Rattle.routes.specs.Reach.{Reached};
    ghost use Rattle.routes.specs.Ring.{Ringed};

    // All that is reached from a middle.
    pub(super) fn from(heap: Global, rows: &Rows, middle: HutSet) -> Result<Reach, Fault>
        requires there { (k : ℕ) → in_set middle k ≡ true → k < huts rows.now }
        ensures { MatchResult result (λ x. Reached rows.now (in_set middle) (huts rows.now - 1) x) (λ f. f ≡ Memory) }
    {
        let n = rows.of.len();
        let mut reach = Reach {
            huts: middle,
            distances: vec![in heap; 0; n]?,
            row: Vec::new(heap),
        };
        for d in 1..n {
            if reach.huts.lowest_missing(n).is_none() {
                break;
            }
            reach.ring(rows, d as u16)?;
        }
        Ok(reach)
    }

    // The huts that are reached with the next line come to it: they are d lines from the middle, and stand in the row in order.
    fn ring(&mut self, rows: &Rows, d: u16) -> Result<(), Fault>
        requires sizes { length self.old.distances.items ≡ huts rows.now }
        ensures { MatchResult result (λ _. Ringed rows.now (huts rows.now) d self.old self.new) (λ f. f ≡ Memory) }
    {
        let reached = self.huts;
        // by number: `is_fresh`, the set and the row all ask for it, and one index is no harder to read than `self.distances.iter_mut().enumerate()`
        for hut in 0..rows.of.len() {
            if is_fresh(rows, &reached, hut) {
                self.huts.insert(hut);
                self.distances[hut] = d;
                self.row.push(hut as u16)?;
            }
        }
        Ok(())
    }
}
