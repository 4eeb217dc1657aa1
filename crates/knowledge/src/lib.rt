// Who knows what after a list of calls.
#![tactic(auto)]

ghost use Rattle.std.specs.Prelude.{◌≡◌, ℕ, ◌%◌, ◌<◌, ◌≤◌, ◌&&◌, T, List, [], ◌∷◌, length, Some, None, MatchResult, ◌==◌, nat_lt};
ghost use Rattle.std.specs.Result.{result_err};
ghost use Rattle.calls.specs.Call.{Call, call};
ghost use Rattle.faults.specs.declared.Fault.TheVariants.{Memory};
ghost use Rattle.knowledge.specs.Law.{OneOutcome};
ghost use Rattle.knowledge.specs.Outcome.{below, refusal, Says, Tells, shown_of};
ghost use Rattle.knowledge.specs.Row.{Stands, Behind};
ghost use Rattle.sets.specs.Set.{in_set};

use faults::Fault;
use sets::HutSet;
use std::alloc::Global;
use std::fmt;

// What a list of calls comes to.
#[derive(Clone, Copy, PartialEq, Eq, Debug)]
pub enum Outcome {
    // After so many calls, and not before, every hut knows what every hut saw.
    Complete(usize),
    // After all the calls the first hut does not know what the second saw: the lowest hut that lacks any, and the lowest that it lacks.
    Lacks(u16, u16),
}

impl fmt::Display for Outcome {
    ghost output = { λ o. Some (shown_of o) };

    fn fmt<W: fmt::Write>(&self, f: &mut fmt::Formatter<W>) -> fmt::Result {
        match *self {
            Outcome::Complete(made) => write!(f, "all know everything after {made} calls"),
            Outcome::Lacks(hut, other) => write!(f, "hut {hut} does not know of hut {other}"),
        }
    }
}

// At first each hut knows only itself.
fn start(heap: Global, n: usize) -> Result<Vec<HutSet>, Fault>
    requires { n ≤ 1024 }
    ensures { MatchResult result (λ rows. Stands n rows.items []) (λ f. f ≡ Memory) }
{
    let mut rows = Vec::with_capacity(heap, n)?; // just as many as there are huts: `collect` takes room for four at least
    rows.extend((0..n).map(HutSet::only))?;
    Ok(rows)
}

// Hut a calls hut e: both sets become their union.
// The two huts of a call stay two numbers, as they stand in a list: a pair would be made only to be taken apart.
fn join(rows: &mut [HutSet], a: usize, e: usize)
    requires caller { a < length rows.old }
    requires called { e < length rows.old }
    ensures { (n : ℕ) (cs : List Call) → Stands n rows.old cs → Stands n rows.new (call a e ∷ cs) }
{
    let both = rows[a].union(&rows[e]);
    rows[a] = both;
    rows[e] = both;
}

// The lowest hut, from `from` on, whose set lacks some hut that there is a row for, and the lowest that it lacks.
fn first_lacking(rows: &[HutSet], from: usize) -> Option<(usize, usize)>
    ensures { Behind rows.now from result }
{
    (from..rows.len()).find_map(|hut| Some((hut, rows[hut].lowest_missing(rows.len())?)))
}

// Whether every number is that of one of n huts.
fn huts_there(n: u16, calls: &[u16]) -> bool
    ensures { result ≡ below n calls.now }
{
    calls.iter().all(|hut| *hut < n)
}

// Refuses a list of calls that has a fault.
// Its first two tests stand in `rows` too: a function for these six lines would be public, and need a definition and an edit of its own.
fn check(n: u16, calls: &[u16]) -> Result<(), Fault>
    ensures { result_err result ≡ refusal n calls.now }
{
    if !calls::is_hut_count(n) {
        return Err(Fault::NoSuchHut);
    }
    if calls.len() % 2 == 1 {
        return Err(Fault::Malformed);
    }
    if !huts_there(n, calls) {
        return Err(Fault::NoSuchHut);
    }
    Ok(())
}

// The calls are made one after the other, until all know everything or no call is left. Since nobody forgets, huts below `low` stay complete.
fn follow(rows: &mut [HutSet], calls: &[u16]) -> Outcome
    requires stands { Stands (length rows.old) rows.old [] }
    requires within { length rows.old ≤ 1024 }
    requires there { T (below (length rows.old) calls.now) }
    requires pairs { length calls.now % 2 ≡ 0 }
    ensures { Says (length rows.old) calls.now result }
{
    let mut lacking = first_lacking(rows, 0);
    let mut made = 0; // counted by hand, since it is the answer and no index
    let mut left = calls;
    // lines and calls are lent slices of numbers, two each, by a rule of the project: a pair at a time is taken off the front
    while let Some((low, other)) = lacking {
        let [a, e, rest @ ..] = left else {
            return Outcome::Lacks(low as u16, other as u16);
        };
        join(rows, usize::from(*a), usize::from(*e));
        lacking = first_lacking(rows, low);
        made += 1;
        left = rest;
    }
    Outcome::Complete(made)
}

// What the calls come to among n huts: a list is refused whole, before any call is made, or answered.
// n and the list stay two parameters: rules, clauses and C name them apart, and a clause about a struct that holds a slice is longer.
pub fn who_knows(heap: Global, n: u16, calls: &[u16]) -> Result<Outcome, Fault>
    ensures tells { Tells n calls.now result }
{
    check(n, calls)?;
    let mut rows = start(heap, usize::from(n))?;
    Ok(follow(&mut rows, calls))
}

// What is said of a list of calls is so of one outcome only.
pub fn one_outcome()
    ensures { OneOutcome }
{}
