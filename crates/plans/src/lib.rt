// Plans: lists of calls that bring everything to everybody.
#![tactic(auto)]

ghost use Rattle.std.specs.Prelude.{◌≡◌, ◌-◌, ◌<◌, ◌++◌, Some, codes, MatchResult};
ghost use Rattle.faults.specs.declared.Fault.TheVariants.{Memory};
ghost use Rattle.calls.specs.Number.{numbers};
ghost use Rattle.plans.specs.Complete.{hub, plan, written};
ghost use Rattle.plans.specs.Answer.{Answers, Planned, middle};
ghost use Rattle.plans.specs.Text.{call_lines, square_shown, middle_shown, plan_shown};
ghost use Rattle.std.specs.Fmt.{WritesOnOk};

use faults::Fault;
use std::alloc::Global;
use std::fmt;

// Four huts with lines a-b, b-c, c-d and d-a.
#[derive(Clone, Copy, PartialEq, Eq, Debug)]
pub struct Square {
    pub a: u16,
    pub b: u16,
    pub c: u16,
    pub d: u16,
}

// A plan: its calls, two numbers each, the caller first, in the order in which they are made; and the square in its middle, if there is one.
#[derive(Drop)]
pub struct Plan {
    pub calls: Vec<u16>,
    pub square: Option<Square>,
}

// A call a line, the caller first.
fn write_calls<W: fmt::Write>(calls: &[u16], f: &mut fmt::Formatter<W>) -> fmt::Result
    ensures { WritesOnOk W.Write.write_str_gives f.old result (call_lines calls.now) f.new }
{
    let mut left = calls;
    // lines and calls are lent slices of numbers, two each, by a rule of the project: a pair at a time is taken off the front
    while let [a, e, rest @ ..] = left {
        writeln!(f, "{a} {e}")?;
        left = rest;
    }
    Ok(())
}

impl fmt::Display for Square {
    ghost output = { λ s. Some (square_shown s) };

    fn fmt<W: fmt::Write>(&self, f: &mut fmt::Formatter<W>) -> fmt::Result {
        let Square { a, b, c, d } = *self;
        write!(f, "square {a} {b} {c} {d}")
    }
}

// The square, or that there is none.
fn write_square<W: fmt::Write>(square: Option<Square>, f: &mut fmt::Formatter<W>) -> fmt::Result
    ensures { WritesOnOk W.Write.write_str_gives f.old result (middle_shown square ++ codes "\n") f.new }
{
    match square {
        Some(square) => writeln!(f, "{square}"),
        None => writeln!(f, "no square"),
    }
}

// The calls, the square and the number of calls, each on a line of its own.
impl fmt::Display for Plan {
    ghost output = { λ p. Some (plan_shown p) };

    fn fmt<W: fmt::Write>(&self, f: &mut fmt::Formatter<W>) -> fmt::Result {
        write_calls(self.calls.as_slice(), f)?;
        write_square(self.square, f)?;
        let count = self.calls.len() / 2;
        writeln!(f, "{count} calls")
    }
}

// Hut 0 calls huts 4 to n - 1, in this order; none, if there are no more than four.
fn push_hub(calls: &mut Vec<u16>, n: u16) -> Result<(), Fault>
    ensures { MatchResult result (λ _. calls.new.items ≡ calls.old.items ++ numbers (hub (n - 4))) (λ f. f ≡ Memory) }
{
    for hut in 4..n {
        calls.extend_from_slice(&[0, hut])?;
    }
    Ok(())
}

// The calls for fewer than four huts.
fn few(n: u16) -> &'static [u16]
    requires { n < 4 }
    ensures { result.now ≡ numbers (plan n) }
{
    match n {
        2 => &[0, 1],
        3 => &[0, 1, 0, 2, 0, 1],
        _ => &[],
    }
}

// The smallest square, where all lines are there.
fn smallest_square(n: u16) -> Option<Square>
    ensures { result ≡ middle n }
{
    (n >= 4).then_some(Square {
        a: 0,
        b: 1,
        c: 2,
        d: 3,
    })
}

// The prescribed calls and their square make the plan.
fn with_square(calls: Vec<u16>, n: u16) -> Plan
    requires { calls.items ≡ written n }
    ensures { Planned n result }
{
    Plan {
        calls,
        square: smallest_square(n),
    }
}

// The plan for n huts that can all call each other: no list of calls that does it has fewer.
pub fn for_huts(heap: Global, n: u16) -> Result<Plan, Fault>
    ensures answers { Answers n result }
{
    if !calls::is_hut_count(n) {
        return Err(Fault::NoSuchHut);
    }
    let mut calls = Vec::new(heap);
    if n < 4 {
        calls.extend_from_slice(few(n))?;
        return Ok(with_square(calls, n));
    }
    push_hub(&mut calls, n)?; // hut 0 hears from huts 4 to n - 1
    calls.extend_from_slice(&[0, 1, 2, 3, 0, 2, 1, 3])?;
    push_hub(&mut calls, n)?; // and tells them
    Ok(with_square(calls, n))
}
