// The rows themselves: how they begin, and what a line makes of them.
ghost use Rattle.std.specs.Prelude.{◌≡◌, ℕ, ◌<◌, ◌≤◌, true, false, ◌&&◌, ◌||◌, length, MatchResult, ◌==◌};
ghost use Rattle.faults.specs.declared.Fault.TheVariants.{Memory};
ghost use Rattle.sets.specs.Set.{in_set, row_of};

use faults::Fault;
use sets::HutSet;
use std::alloc::Global;

// For each of 1 to 1,024 huts the set of its neighbours, which are among them.
#[derive(Drop)]
pub struct Rows {
    pub of: Vec<HutSet>,
    pub ghost some: { 0 < length of.items },
    pub ghost few: { length of.items ≤ 1024 },
    pub ghost there: { (i k : ℕ) → in_set (row_of of.items i) k ≡ true → k < length of.items },
}

impl Rows {
    ghost use Rattle.rows.specs.Rows.{huts, told};

    // Huts without neighbours.
    pub(super) fn apart(heap: Global, n: usize) -> Result<Rows, Fault>
        requires some { 0 < n }
        requires few { n ≤ 1024 }
        ensures { MatchResult result (λ rows. (huts rows ≡ n) × ((i k : ℕ) → told rows i k ≡ false)) (λ f. f ≡ Memory) }
    {
        let of = vec![in heap; HutSet::none(); n]?;
        Ok(Rows { of })
    }

    // A line: each of its two huts goes into the other's row.
    // The two huts of a line stay two numbers, as they stand in a list: a pair would be made only to be taken apart.
    pub(super) fn join(&mut self, a: usize, e: usize)
        requires one { a < huts self.old }
        requires other { e < huts self.old }
        ensures same { huts self.new ≡ huts self.old }
        ensures joined { (i k : ℕ) → told self.new i k ≡ (((i == a && k == e) || (i == e && k == a)) || told self.old i k) }
    {
        self.of[a].insert(e);
        self.of[e].insert(a);
    }
}
