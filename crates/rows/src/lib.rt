// Lines as rows: for each hut the set of its neighbours.
#![tactic(auto)]

ghost use Rattle.std.specs.Prelude.{◌≡◌, ℕ, ◌<◌, true, ◌||◌};
ghost use Rattle.std.specs.Result.{result_err};
ghost use Rattle.lines.specs.Line.{line, fault_of, wrong};
ghost use Rattle.rows.specs.Rows.{huts, told, early, Rowed};

mod table;

use faults::Fault;
use std::alloc::Global; // the allocator: a parameter of its own in each function that takes memory, as the language has it
pub use table::Rows;

// Whether a line among n huts is right, where the line before it is given: its huts are there, the lower one first, and it comes after the one before.
fn line_fault(n: u16, before: (u16, u16), line: (u16, u16)) -> Result<(), Fault>
    ensures { result_err result ≡ fault_of n before.0 before.1 line.0 line.1 }
{
    let (a, e) = line;
    if a >= n || e >= n {
        return Err(Fault::NoSuchHut);
    }
    if a >= e || line <= before {
        return Err(Fault::Unsorted);
    }
    Ok(())
}

// Refuses lines for the first one that is wrong.
fn first_fault(n: u16, lines: &[u16]) -> Result<(), Fault>
    ensures { result_err result ≡ wrong n lines.now }
{
    let mut before = (0, 0);
    let mut left = lines;
    // lines and calls are lent slices of numbers, two each, by a rule of the project: a pair at a time is taken off the front
    while let [a, e, rest @ ..] = left {
        let line = (*a, *e);
        line_fault(n, before, line)?;
        before = line;
        left = rest;
    }
    Ok(())
}

// Refuses a list of lines for the fault that it has in itself.
// Its first two tests stand in `knowledge` too: a function for these six lines would be public, and need a definition and an edit of its own.
fn fault_in(n: u16, lines: &[u16]) -> Result<(), Fault>
    ensures { result_err result ≡ early n lines.now }
{
    if !calls::is_hut_count(n) {
        return Err(Fault::NoSuchHut);
    }
    if lines.len() % 2 == 1 {
        return Err(Fault::Malformed);
    }
    first_fault(n, lines)
}

// Each hut's neighbours go into its row.
fn add_lines(rows: &mut Rows, lines: &[u16])
    requires there { (i k : ℕ) → line lines.now i k ≡ true → i < huts rows.old }
    ensures same { huts rows.new ≡ huts rows.old }
    ensures added { (i k : ℕ) → told rows.new i k ≡ (told rows.old i k || line lines.now i k) }
{
    let mut left = lines;
    // lines and calls are lent slices of numbers, two each, by a rule of the project: a pair at a time is taken off the front
    while let [a, e, rest @ ..] = left {
        rows.join(usize::from(*a), usize::from(*e));
        left = rest;
    }
}

// For each hut the set of its neighbours: a list is refused whole, or answered.
// n and the list stay two parameters: rules and clauses name them apart, and a clause about a struct that holds a slice is longer.
pub fn rows_of(heap: Global, n: u16, lines: &[u16]) -> Result<Rows, Fault>
    ensures { Rowed n lines.now result }
{
    fault_in(n, lines)?;
    let mut rows = Rows::apart(heap, usize::from(n))?;
    add_lines(&mut rows, lines);
    Ok(rows)
}
