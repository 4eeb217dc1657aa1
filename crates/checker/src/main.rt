// Says what a list of calls comes to among huts with the lines that a text lists, beside the number of calls of the plan.
#![tactic(auto)]

ghost use Rattle.checker.specs.Printed.{Prints, Answered};

use checks::Wrong;
use faults::Fault;
use std::alloc::Global;
use std::process::ExitCode;
use texts::Listing;
use tool::{Bad, Failure, Program, Takes, Words};

const CHECKER: Program = Program {
    name: "checker",
    takes: Takes::TwoTexts,
    usage: "usage: checker --text LINES CALLS",
    about: "Says what a list of calls comes to: 'all know everything after 396 calls', if
these are the fewest first calls of the list after which every hut knows what
every hut saw; or 'hut 3 does not know of hut 7', the lowest hut that lacks
any, and the lowest that it lacks. Then comes 'the plan has 396 calls': as many
as the prescribed plan for these lines has.
The first line of LINES has the number of huts, 1 to 1024, and each line after
it a line between two huts, the lower hut first: '0 4'. They rise: each pair is
higher than the one before it, by its first hut, or by its second if the first
is the same. The first line of CALLS has the same number of huts, and each line
after it a call, the caller first, in the order in which they are made, 4096 at
most. Empty lines are passed over. '-' for one of the two is standard input.

Example: printf '3\\n0 1\\n1 2\\n' > lines
         printf '3\\n0 1\\n1 2\\n0 1\\n' | checker --text lines -
prints 'all know everything after 3 calls', then 'the plan has 3 calls'.

Status 0: done. Status 1: a file was refused or can't be read, or the command
line is wrong; then nothing is printed on standard output.
",
};

// What is printed for calls, among huts with these lines.
fn text(heap: Global, lines: &Listing, calls: &Listing) -> Result<String, Wrong<Fault>>
    ensures prints { Prints lines.now.huts lines.now.pairs.items calls.now.huts calls.now.pairs.items result }
{
    let report = checks::check(heap, lines.huts, &lines.pairs, calls.huts, &calls.pairs)?;
    report
        .to_string(heap)
        .map_err(|_| Wrong::Calls(Fault::Memory))
}

// What is printed for a text that should list lines, and one that should list calls.
fn checked(heap: Global, lines: &[u8], calls: &[u8]) -> Result<String, Wrong<Bad>>
    ensures answered { Answered lines.now calls.now result }
{
    let lines = texts::read(heap, lines).map_err(|unread| Wrong::Lines(Bad::Unread(unread)))?;
    let calls = texts::read(heap, calls).map_err(|unread| Wrong::Calls(Bad::Unread(unread)))?;
    let text = text(heap, &lines, &calls);
    text.map_err(|wrong| wrong.map(Bad::Refused))
}

// What is wrong, with the name of the file that it is wrong with.
fn failure<'a>(wrong: Wrong<Bad>, lines: &'a str, calls: &'a str) -> Failure<'a> {
    match wrong {
        Wrong::Lines(bad) => Failure::Bad(lines, bad),
        Wrong::Calls(bad) => Failure::Bad(calls, bad),
    }
}

// What is printed for two files.
fn for_files<'a>(rt: &HostRuntime, lines: &'a str, calls: &'a str) -> Result<String, Failure<'a>> {
    let first = tool::input(rt, lines)?;
    let second = tool::input(rt, calls)?;
    checked(rt.alloc(), &first, &second).map_err(|wrong| failure(wrong, lines, calls))
}

// What is printed for the words that are no options.
fn said<'a>(rt: &HostRuntime, words: Words<'a>) -> Result<String, Failure<'a>> {
    if !words.text {
        return Err(Failure::Missing("'--text'"));
    }
    match (words.first, words.second) {
        (Some("-"), Some("-")) => Err(Failure::Twice("-")),
        (Some(lines), Some(calls)) => for_files(rt, lines, calls),
        (Some(_), None) => Err(Failure::Missing("the file of the calls")),
        _ => Err(Failure::Missing("the file of the lines")),
    }
}

// What is printed on standard output.
fn answer<'a>(rt: &HostRuntime, words: &'a [String]) -> Result<String, Failure<'a>> {
    CHECKER.reply(rt.alloc(), words, |words| said(rt, words))
}

fn main(rt: HostRuntime) -> ExitCode {
    CHECKER.run(&rt, |words| answer(&rt, words))
}

#[cfg(test)]
mod tests {
    use super::*;
    use std::alloc::AllocError;
    use std::test::Fail;
    use tool::Complaint;

    const WRONG: &str = "
usage: checker --text LINES CALLS
Try 'checker --help' for more information.";

    // What two texts come to, each with a word for the one that is at fault.
    fn told(heap: Global, lines: &str, calls: &str) -> Result<String, AllocError> {
        match checked(heap, lines.as_bytes(), calls.as_bytes()) {
            Ok(text) => Ok(text),
            Err(Wrong::Lines(bad)) => format!(in heap; "lines: {bad}"),
            Err(Wrong::Calls(bad)) => format!(in heap; "calls: {bad}"),
        }
    }

    #[test]
    fn texts_are_checked(rt: HostRuntime) -> Result<(), Fail> {
        let lines = "3\n0 1\n1 2\n";
        let table = [
            (
                lines,
                "3\n0 1\n1 2\n0 1",
                "all know everything after 3 calls\nthe plan has 3 calls\n",
            ),
            (
                lines,
                "3\n2 1\n\n",
                "hut 0 does not know of hut 1\nthe plan has 3 calls\n",
            ),
            (
                lines,
                "2\n0 1",
                "calls: refused 2: no huts, more than 1024, or a hut that isn't there",
            ),
            (
                lines,
                "3\n0 1\n2 3",
                "calls: refused 2: no huts, more than 1024, or a hut that isn't there",
            ),
            (
                lines,
                "3\n0 1\n2 0\n2 3",
                "calls: refused 9: a call where there is no line",
            ),
            (
                lines,
                "3\n1 1",
                "calls: refused 9: a call where there is no line",
            ),
            (lines, "3\n0 1 2", "calls: line 2 can't be read"),
            (
                "3\n0 1",
                "3\n0 2",
                "lines: refused 4: not all huts are joined: hut 2",
            ),
            ("", "", "lines: line 1 can't be read"),
        ];
        for (lines, calls, text) in table {
            assert_eq!(rt; told(rt.alloc(), lines, calls)?.as_str(), text);
        }
        Ok(())
    }

    #[test]
    fn wrong_words_are_refused(rt: HostRuntime) -> Result<(), Fail> {
        let heap = rt.alloc();
        let table = [
            ("a b", "'--text' is missing"),
            ("--text", "the file of the lines is missing"),
            ("--text a", "the file of the calls is missing"),
            ("--text a b c", "one argument too many: 'c'"),
            ("--text - -", "'-' is given twice"),
            ("--texts a b", "unknown option '--texts'"),
        ];
        for (line, reason) in table {
            let mut words = Vec::new(heap);
            for word in line.split(' ') {
                words.push(String::from_str(heap, word)?)?;
            }
            let program = CHECKER;
            let told = match answer(&rt, words.as_slice()) {
                Ok(text) => text,
                Err(failure) => Complaint { program, failure }.to_string(heap)?,
            };
            let text = format!(in heap; "checker: {reason}{WRONG}")?;
            assert_eq!(rt; told.as_str(), text.as_str());
        }
        Ok(())
    }
}
