// A list of calls held to the lines: what it comes to, beside the plan for these lines.
#![tactic(auto)]

ghost use Rattle.std.specs.Prelude.{◌≡◌, Some};
ghost use Rattle.std.specs.Result.{result_err};
ghost use Rattle.rows.specs.Rows.{huts, told};
ghost use Rattle.checks.specs.Answer.{Counts, Checks, IsMapped, report_shown};
ghost use Rattle.checks.specs.Call.{fault_of, wrong_call, call_fault};

use faults::Fault;
use knowledge::Outcome;
use rows::Rows;
use std::alloc::Global; // the allocator: a parameter of its own in each function that takes memory, as the language has it
use std::fmt;

// What a check comes to: what the calls bring about, and how many calls the plan for the same lines has.
#[derive(Clone, Copy, PartialEq, Eq, Debug)]
pub struct Report {
    pub outcome: Outcome,
    pub plan: usize,
}

// Why there is no report: what is wrong with the lines, or with the calls.
#[derive(Clone, Copy, PartialEq, Eq, Debug)]
pub enum Wrong<E> {
    Lines(E),
    Calls(E),
}

impl<E> Wrong<E> {
    // What f makes of what is wrong, with the same of the two.
    pub fn map<T, F: FnOnce(E) -> T>(self, f: F) -> Wrong<T>
        requires { F.IsAlwaysCallable f }
        ensures { IsMapped (F.post f) self result }
    {
        match self {
            Wrong::Lines(e) => Wrong::Lines(f(e)),
            Wrong::Calls(e) => Wrong::Calls(f(e)),
        }
    }
}

impl fmt::Display for Report {
    ghost output = { λ r. Some (report_shown r) };

    fn fmt<W: fmt::Write>(&self, f: &mut fmt::Formatter<W>) -> fmt::Result {
        let Report { outcome, plan } = *self;
        write!(f, "{outcome}\nthe plan has {plan} calls\n")
    }
}

// Whether hut a may call hut e: both are there, and there is a line between the two.
// The two huts of a call stay two numbers, as they stand in a list: a pair would be made only to be taken apart.
fn call_fault(rows: &Rows, a: usize, e: usize) -> Result<(), Fault>
    ensures { result_err result ≡ fault_of (huts rows.now) (told rows.now) a e }
{
    let n = rows.of.len();
    if a >= n || e >= n {
        return Err(Fault::NoSuchHut);
    }
    if !rows.of[a].has(e) {
        return Err(Fault::NoLine);
    }
    Ok(())
}

// Refuses calls for the first one that is wrong.
fn first_off(rows: &Rows, calls: &[u16]) -> Result<(), Fault>
    ensures { result_err result ≡ wrong_call (huts rows.now) (told rows.now) calls.now }
{
    let mut left = calls;
    // lines and calls are lent slices of numbers, two each, by a rule of the project: a pair at a time is taken off the front
    while let [a, e, rest @ ..] = left {
        call_fault(rows, usize::from(*a), usize::from(*e))?;
        left = rest;
    }
    Ok(())
}

// Refuses calls, which say that they are for m huts, for the first of their faults.
fn fault_in(rows: &Rows, m: u16, calls: &[u16]) -> Result<(), Fault>
    ensures { result_err result ≡ call_fault (huts rows.now) (told rows.now) m calls.now }
{
    if usize::from(m) != rows.of.len() {
        return Err(Fault::NoSuchHut);
    }
    if calls.len() % 2 == 1 {
        return Err(Fault::Malformed);
    }
    if calls.len() / 2 > 4096 {
        return Err(Fault::TooLong);
    }
    first_off(rows, calls)
}

// How many calls the plan for these lines has.
fn plan_size(heap: Global, n: u16, lines: &[u16]) -> Result<usize, Fault>
    ensures { Counts n lines.now result }
{
    let plan = routes::for_lines(heap, n, lines)?;
    Ok(plan.calls.len() / 2)
}

// What the calls come to among n huts with these lines, beside the number of calls of the plan. The calls say that they are for m huts.
// The lines or the calls are refused whole, or answered.
// Lines and calls, and each number of huts and its list, stay parameters of their own: rules and clauses name them apart, and a clause about a struct that holds a slice is longer.
pub fn check(
    heap: Global,
    n: u16,
    lines: &[u16],
    m: u16,
    calls: &[u16],
) -> Result<Report, Wrong<Fault>>
    ensures checks { Checks n lines.now m calls.now result }
{
    let plan = plan_size(heap, n, lines).map_err(Wrong::Lines)?;
    let rows = rows::rows_of(heap, n, lines).map_err(Wrong::Lines)?;
    fault_in(&rows, m, calls).map_err(Wrong::Calls)?;
    let outcome = knowledge::who_knows(heap, n, calls).map_err(Wrong::Calls)?;
    Ok(Report { outcome, plan })
}
