// Plans for huts of which some have no line between them.
#![tactic(auto)]

ghost use Rattle.std.specs.Prelude.{◌≡◌, ℕ, ◌-◌, ◌<◌, ◌++◌, false, length, Some, None, MatchResult, nat_eq};
ghost use Rattle.std.specs.List.{All};
ghost use Rattle.faults.specs.declared.Fault.TheVariants.{Memory};
ghost use Rattle.calls.specs.Number.{numbers};
ghost use Rattle.lines.specs.Plan.{middle, plan_for, Joins};
ghost use Rattle.lines.specs.Square.{Among, SmallestBy};
ghost use Rattle.lines.specs.Way.{distance};
ghost use Rattle.sets.specs.Set.{in_set};
ghost use Rattle.rows.specs.Rows.{huts, told};
ghost use Rattle.routes.specs.Answer.{Planned, Answers};
ghost use Rattle.routes.specs.Near.{IsTied, Nearer, Nearest, Partners};
ghost use Rattle.routes.specs.Pairs.{call_in, call_out, inward, outward, round_written, straight_written};
ghost use Rattle.routes.specs.Reach.{Reached};
ghost use Rattle.routes.specs.Seen.{seen};

mod reaching;

use crate::reaching::Reach;
use faults::Fault;
use plans::{Plan, Square};
use rows::Rows;
use sets::HutSet;
use std::alloc::Global; // the allocator: a parameter of its own in each function that takes memory, as the language has it

// The smallest square, left at the first that is found: b goes from neighbour to neighbour of a and c of b, and only where some hut beyond b has lines to a and to
// c is d looked for.
fn smallest_square(rows: &Rows) -> Option<Square>
    ensures smallest { SmallestBy (huts rows.now) (seen rows.now) result }
{
    let n = rows.of.len();
    'search: {
        // four nested loops over huts, left by a label, by a rule of the project; a is a number, as b, c and d are, and rows are read by all of them
        for a in 0..n {
            for b in rows.of[a].huts(a + 1) {
                for c in rows.of[b].huts(a + 1) {
                    if rows.of[a].meets(&rows.of[c], b + 1) {
                        for d in rows.of[c].huts(b + 1) {
                            if rows.of[a].has(d) {
                                break 'search Some(Square {
                                    a: a as u16,
                                    b: b as u16,
                                    c: c as u16,
                                    d: d as u16,
                                });
                            }
                        }
                    }
                }
            }
        }
        None
    }
}

// The lowest of the neighbours that is less than `than` lines from the middle.
fn nearer(neighbours: &HutSet, distances: &[u16], than: u16) -> Option<usize>
    ensures { Nearer neighbours.now distances.now than result }
{
    // by number, since the number is what is found
    (0..distances.len()).find(|hut| distances[*hut] < than && neighbours.has(*hut))
}

// The neighbour nearest to the middle, the lowest of those that are as near: from hut to nearer hut, towards the middle.
fn partner(neighbours: &HutSet, distances: &[u16], best: usize) -> usize
    requires there { best < length distances.now }
    ensures { Nearest neighbours.now distances.now best result }
{
    match nearer(neighbours, distances, distances[best]) {
        Some(hut) => partner(neighbours, distances, hut),
        None => best,
    }
}

// A hut of the row, and the partner that it is tied to.
#[derive(Clone, Copy)]
struct Tied {
    hut: u16,
    partner: u16,
}

impl Tied {
    // The hut calls its partner.
    fn inward(&self) -> [u16; 2]
        ensures { result ≡ call_in self.now }
    {
        [self.hut, self.partner]
    }

    // The partner calls its hut.
    fn outward(&self) -> [u16; 2]
        ensures { result ≡ call_out self.now }
    {
        [self.partner, self.hut]
    }
}

// The huts of the row, each with its partner.
fn ties_of(heap: Global, rows: &Rows, near: &Reach) -> Result<Vec<Tied>, Fault>
    requires sizes { length near.now.distances.items ≡ huts rows.now }
    requires there { All (λ i. i < huts rows.now) near.now.row.items }
    ensures { MatchResult result (λ v. Partners rows.now near.now.distances.items near.now.row.items v.items) (λ f. f ≡ Memory) }
{
    let tied = |hut: &u16|
        requires sizes { length near.now.distances.items ≡ huts rows.now }
        requires there { hut.now < huts rows.now }
        ensures hut { result.hut ≡ hut.now }
        ensures tied { IsTied rows.entry.now near.entry.now.distances.items result }
    {
        let at = usize::from(*hut);
        Tied {
            hut: *hut,
            partner: partner(&rows.of[at], &near.distances, at) as u16,
        }
    };
    Ok(near.row.iter().map(tied).collect(heap)?)
}

// From the last of the row to the first, each calls its partner; then come the calls in the middle; then, from the first of the others to the last, each partner
// calls its hut.
fn in_and_out(
    heap: Global,
    ties: &[Tied],
    inside: &[u16],
    others: &[Tied],
) -> Result<Vec<u16>, Fault>
    ensures { MatchResult result (λ v. v.items ≡ (inward ties.now ++ inside.now) ++ outward others.now) (λ f. f ≡ Memory) }
{
    let mut calls = Vec::new(heap);
    calls.extend(ties.iter().rev().flat_map(Tied::inward))?;
    calls.extend_from_slice(inside)?;
    calls.extend(others.iter().flat_map(Tied::outward))?;
    Ok(calls)
}

// The four huts of a square as a set.
fn corners(square: Square) -> HutSet
    requires few { (square.a < 1024) × (square.b < 1024) × (square.c < 1024) × (square.d < 1024) }
    ensures { (k : ℕ) → in_set result k ≡ middle (Some square) k }
{
    let mut huts = HutSet::none();
    huts.insert(usize::from(square.a));
    huts.insert(usize::from(square.b));
    huts.insert(usize::from(square.c));
    huts.insert(usize::from(square.d));
    huts
}

// With a square: all call their partners, the four go round, and all partners call their huts.
fn round_calls(heap: Global, ties: &[Tied], square: Square) -> Result<Vec<u16>, Fault>
    ensures { MatchResult result (λ v. v.items ≡ round_written square ties.now) (λ f. f ≡ Memory) }
{
    let Square { a, b, c, d } = square;
    in_and_out(heap, ties, &[a, b, c, d, a, d, b, c], ties)
}

// Without one: all call their partners, and the partners of all but the first call their huts, since its call does for both ways.
fn straight_calls(heap: Global, ties: &[Tied]) -> Result<Vec<u16>, Fault>
    ensures { MatchResult result (λ v. v.items ≡ straight_written ties.now) (λ f. f ≡ Memory) }
{
    in_and_out(heap, ties, &[], ties.get(1..).unwrap_or(&[]))
}

// The calls with a square in the middle.
fn with_square(heap: Global, rows: &Rows, square: Square) -> Result<Vec<u16>, Fault>
    requires there { Among (huts rows.now) (seen rows.now) square }
    requires joins { (i : ℕ) → i < huts rows.now → distance (huts rows.now) (told rows.now) (middle (Some square)) i < huts rows.now }
    ensures { MatchResult result (λ v. v.items ≡ numbers (plan_for (huts rows.now) (told rows.now) (Some square))) (λ f. f ≡ Memory) }
{
    let near = Reach::from(heap, rows, corners(square))?;
    let ties = ties_of(heap, rows, &near)?;
    round_calls(heap, &ties, square)
}

// The calls with hut 0 in the middle, from which `near` is reached.
fn without_square(heap: Global, rows: &Rows, near: &Reach) -> Result<Vec<u16>, Fault>
    requires reached { Reached rows.now (nat_eq 0) (huts rows.now - 1) near.now }
    requires joins { (i : ℕ) → i < huts rows.now → distance (huts rows.now) (told rows.now) (nat_eq 0) i < huts rows.now }
    ensures { MatchResult result (λ v. v.items ≡ numbers (plan_for (huts rows.now) (told rows.now) None)) (λ f. f ≡ Memory) }
{
    let ties = ties_of(heap, rows, near)?;
    straight_calls(heap, &ties)
}

// The calls for rows that join all huts, and their square. What is reached, and the ties along it, stay apart from the rows: with a square another middle reaches along the same rows.
fn plan_for(heap: Global, rows: &Rows, near: &Reach) -> Result<Plan, Fault>
    requires reached { Reached rows.now (nat_eq 0) (huts rows.now - 1) near.now }
    requires joins { Joins (huts rows.now) (told rows.now) }
    requires apart { (i : ℕ) → told rows.now i i ≡ false }
    ensures { MatchResult result (λ p. Planned (huts rows.now) (told rows.now) p) (λ f. f ≡ Memory) }
{
    let square = smallest_square(rows);
    let calls = match square {
        Some(square) => with_square(heap, rows, square)?,
        None => without_square(heap, rows, near)?,
    };
    Ok(Plan { calls, square })
}

// The plan for n huts with these lines, two numbers each, the lower hut first, rising: exactly the prescribed one, or a refusal.
// n and the list stay two parameters: rules and clauses name them apart, and a clause about a struct that holds a slice is longer.
pub fn for_lines(heap: Global, n: u16, lines: &[u16]) -> Result<Plan, Fault>
    ensures answers { Answers n lines.now result }
{
    let rows = rows::rows_of(heap, n, lines)?;
    let huts = usize::from(n);
    let near = Reach::from(heap, &rows, HutSet::only(0))?;
    if let Some(alone) = near.huts.lowest_missing(huts) {
        return Err(Fault::NotJoined(alone as u16));
    }
    plan_for(heap, &rows, &near)
}
