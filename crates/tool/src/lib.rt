// What the programs share: their command line, their input, what they say, and how they end.
#![tactic(auto)]

ghost use Rattle.std.specs.Prelude.{◌≡◌, ◌⊎◌, true, false, map, Some, None, IfErr, IsOk, MatchResult, OnErr, codes, string_bytes};
ghost use Rattle.std.specs.Fn.{FnOnceReturnsAt};
ghost use Rattle.std.specs.Process.{exit_status};
ghost use Rattle.tool.specs.Asked.{has_texts, has_second, IsSort, Asks};
ghost use Rattle.tool.specs.Reply.{Replies, IsAnswered};
ghost use Rattle.tool.specs.Outcome.{IsLeft, IsUnread, IsWant};
ghost use Rattle.tool.specs.Text.{bad_shown, failure_shown, misuse, complaint_shown, help_text, version_text};
ghost use Rattle.tool.specs.declared.Bad.TheVariants.{Unread as NotRead, Refused};

use faults::Fault;
use std::alloc::Global;
use std::io::{ErrorKind, Read, Write};
use std::process::ExitCode;
use std::{env, fmt, fs, io};
use texts::Unread;

// Of every program: its version, and what it is proved with.
const VERSION: &str = "0.1.0, proved with rattle-kit-13f logic dac8208d650f15bf";

// What a program takes, beside '--help', '--version' and '--'.
#[derive(Clone, Copy)]
pub enum Takes {
    // A number of huts.
    Number,
    // A number of huts, or a text after '--text'.
    NumberOrText,
    // Two texts, after '--text'.
    TwoTexts,
}

impl Takes {
    // Whether '--text' is an option, and '-' a word: standard input.
    fn has_texts(self) -> bool
        ensures { result ≡ has_texts self }
    {
        !matches!(self, Takes::Number)
    }

    // Whether a second word may come that is no option.
    fn has_second(self) -> bool
        ensures { result ≡ has_second self }
    {
        matches!(self, Takes::TwoTexts)
    }

    // What the word is, where options may still come or not: a flag, since that is the state of the scan, which '--' turns off.
    fn sort_of(self, word: &str, options: bool) -> Sort
        ensures { IsSort self options word.now result }
    {
        if !options || !word.starts_with('-') || word == "-" && self.has_texts() {
            return Sort::Plain;
        }
        match word {
            "--help" => Sort::Help,
            "--version" => Sort::Version,
            "--" => Sort::End,
            "--text" if self.has_texts() => Sort::Text,
            _ => Sort::Unknown,
        }
    }
}

// A program as its users meet it.
#[derive(Clone, Copy)]
pub struct Program {
    pub name: &'static str,
    pub takes: Takes,
    // The forms of its command line, a line each.
    pub usage: &'static str,
    // What it does, with an example.
    pub about: &'static str,
}

// What is wrong with a text: it can't be read, or what it says is refused.
#[derive(Clone, Copy)]
pub enum Bad {
    Unread(Unread),
    Refused(Fault),
}

impl fmt::Display for Bad {
    ghost output = { λ b. Some (bad_shown b) };

    fn fmt<W: fmt::Write>(&self, f: &mut fmt::Formatter<W>) -> fmt::Result {
        match *self {
            Bad::Unread(unread) => write!(f, "{unread}"),
            Bad::Refused(fault) => write!(f, "{fault}"),
        }
    }
}

impl From<Unread> for Bad {
    ghost from_gives = { λ u r. r ≡ NotRead u };

    fn from(unread: Unread) -> Bad {
        Bad::Unread(unread)
    }
}

impl From<Fault> for Bad {
    ghost from_gives = { λ f r. r ≡ Refused f };

    fn from(fault: Fault) -> Bad {
        Bad::Refused(fault)
    }
}

// Why nothing is printed on standard output.
#[derive(Drop)]
pub enum Failure<'a> {
    // The command line is wrong. What is missing is named by a text of the program's own, which the borrow checker does not let a closure give as one that always lives.
    Missing(&'a str),
    Unknown(&'a str),
    Extra(&'a str),
    Twice(&'a str),
    Late(&'a str),
    NoNumber(&'a str),
    // What is wrong with the number or the file that is named.
    Bad(&'a str, Bad),
    // The file that is named can't be read.
    Input(&'a str, io::Error),
}

impl Failure<'_> {
    // Whether the command line is wrong.
    fn is_misuse(&self) -> bool
        ensures { result ≡ misuse self.now }
    {
        !matches!(self, Failure::Bad(_, _) | Failure::Input(_, _))
    }
}

impl fmt::Display for Failure<'_> {
    ghost output = { failure_shown };

    fn fmt<W: fmt::Write>(&self, f: &mut fmt::Formatter<W>) -> fmt::Result {
        match self {
            Failure::Missing(what) => write!(f, "{what} is missing"),
            Failure::Unknown(word) => write!(f, "unknown option '{word}'"),
            Failure::Extra(word) => write!(f, "one argument too many: '{word}'"),
            Failure::Twice(word) => write!(f, "'{word}' is given twice"),
            Failure::Late(word) => write!(f, "'--text' stands after '{word}'"),
            Failure::NoNumber(word) => write!(f, "'{word}' is no number of huts"),
            Failure::Bad(word, bad) => write!(f, "{word}: {bad}"),
            Failure::Input(path, error) => write!(f, "{path}: {error}"),
        }
    }
}

// A failure as it is told.
#[derive(Drop)]
pub struct Complaint<'a> {
    pub program: Program,
    pub failure: Failure<'a>,
}

impl fmt::Display for Complaint<'_> {
    ghost output = { complaint_shown };

    fn fmt<W: fmt::Write>(&self, f: &mut fmt::Formatter<W>) -> fmt::Result {
        let Program { name, usage, .. } = self.program;
        let failure = &self.failure;
        if failure.is_misuse() {
            write!(
                f,
                "{name}: {failure}\n{usage}\nTry '{name} --help' for more information."
            )
        } else {
            write!(f, "{name}: {failure}")
        }
    }
}

// What the command line asks for.
#[derive(Drop)]
pub enum Request<'a> {
    Help,
    Version,
    Words(Words<'a>),
}

// The words that are no options, and whether they name texts.
#[derive(Clone, Copy)]
pub struct Words<'a> {
    pub text: bool, // a flag beside the words, since either may be missing with '--text' and without
    pub first: Option<&'a str>,
    pub second: Option<&'a str>,
}

// What a word of the command line is.
#[derive(Clone, Copy)]
enum Sort {
    Help,
    Version,
    // '--', which ends the options.
    End,
    Text,
    // An option that the program doesn't have.
    Unknown,
    // No option.
    Plain,
}

impl Program {
    // The request of the words after the program's name. '--' ends the options.
    pub fn asked<'a>(self, words: &'a [String]) -> Result<Request<'a>, Failure<'a>>
        ensures asks { Asks self.takes true false None None (map string_bytes words.now) result }
    {
        let mut text = false;
        let mut first = None;
        let mut second = None;
        let mut options = true;
        for word in words {
            let word = word.as_str();
            match self.takes.sort_of(word, options) {
                Sort::Help => return Ok(Request::Help),
                Sort::Version => return Ok(Request::Version),
                Sort::End => options = false,
                Sort::Text if text => return Err(Failure::Twice(word)),
                Sort::Text => match first {
                    Some(word) => return Err(Failure::Late(word)),
                    None => text = true,
                },
                Sort::Unknown => return Err(Failure::Unknown(word)),
                Sort::Plain if first.is_none() => first = Some(word),
                Sort::Plain if second.is_none() && self.takes.has_second() => second = Some(word),
                Sort::Plain => return Err(Failure::Extra(word)),
            }
        }
        Ok(Request::Words(Words {
            text,
            first,
            second,
        }))
    }

    // The forms of the command line, and what the program does.
    pub fn help<'a>(self, heap: Global) -> Result<String, Failure<'a>>
        ensures text { MatchResult result (λ s. string_bytes s ≡ help_text self) (IsWant (codes "--help")) }
    {
        let Program {
            name,
            usage,
            about,
            ..
        } = self;
        let text = format!(in heap; "{usage}\n       {name} --help | --version\n\n{about}");
        let word: &'a str = "--help"; // named, since a closure can't give a text that always lives where a shorter life is asked for
        text.map_err(|_| no_memory(word))
    }

    // The name, the version and the kit.
    pub fn version<'a>(self, heap: Global) -> Result<String, Failure<'a>>
        ensures text { MatchResult result (λ s. string_bytes s ≡ version_text self) (IsWant (codes "--version")) }
    {
        let name = self.name;
        let text = format!(in heap; "{name} {VERSION}\n");
        let word: &'a str = "--version"; // named, as in `help`
        text.map_err(|_| no_memory(word))
    }

    // The help, the version, or what is said to the words that are no options.
    pub fn reply<'a, F: FnOnce(Words<'_>) -> Result<String, Failure<'_>> + Drop>(
        self,
        heap: Global,
        words: &'a [String],
        say: F,
    ) -> Result<String, Failure<'a>>
        requires { F.IsAlwaysCallable say }
        ensures replies { Replies self (F.post say) (map string_bytes words.now) result }
    {
        let words = match self.asked(words)? {
            Request::Help => return self.help(heap),
            Request::Version => return self.version(heap),
            Request::Words(words) => words,
        };
        say(words)
    }

    // The words after the program's name, or the status to end with.
    pub fn arguments(self, rt: &HostRuntime) -> Result<Vec<String>, ExitCode>
        ensures status { IfErr result (λ status. exit_status status ≡ 1) }
    {
        gathered(rt).map_err(|e| {
            let name = self.name;
            failed(rt, format_args!("{name}: the arguments can't be read: {e}"))
        })
    }

    // Prints the answer on standard output, or on standard error why there is none: then the status is 1.
    pub fn finish(self, rt: &HostRuntime, answer: Result<String, Failure<'_>>) -> ExitCode
        ensures none { OnErr answer.entry (exit_status result ≡ 1) }
    {
        let program = self;
        let name = program.name;
        match answer {
            Ok(text) => match deliver(rt, &text) {
                Ok(()) => ExitCode::SUCCESS,
                Err(e) => failed(rt, format_args!("{name}: {e}")),
            },
            Err(failure) => failed(rt, Complaint { program, failure }),
        }
    }

    // Prints what is answered to the words after the program's name, as `finish` does.
    pub fn run<F: FnOnce(&[String]) -> Result<String, Failure<'_>> + Drop>(
        self,
        rt: &HostRuntime,
        answer: F,
    ) -> ExitCode
        requires { F.IsAlwaysCallable answer }
        ensures status { (exit_status result ≡ 1) ⊎ IsAnswered (FnOnceReturnsAt F.FnOnce answer) }
    {
        let words = match self.arguments(rt) {
            Ok(words) => words,
            Err(status) => return status,
        };
        let answer = answer(&words);
        self.finish(rt, answer)
    }
}

// Want of memory for what an option prints.
fn no_memory(word: &str) -> Failure<'_>
    ensures { IsWant word.now result }
{
    Failure::Bad(word, Bad::Refused(Fault::Memory))
}

// The status, once it is said on standard error why.
fn failed(rt: &HostRuntime, why: impl fmt::Display + Drop) -> ExitCode
    ensures { exit_status result ≡ 1 }
{
    let _ = rt.eprintln(why);
    ExitCode::FAILURE
}

fn gathered(rt: &HostRuntime) -> io::Result<Vec<String>> {
    Ok(env::args(rt)?.skip(1).collect(rt.alloc())?)
}

fn standard_input(rt: &HostRuntime) -> io::Result<Vec<u8>> {
    let mut bytes = Vec::new(rt.alloc());
    rt.stdin().read_to_end(&mut bytes)?;
    Ok(bytes)
}

// All the bytes of a file, or of standard input, which is named '-'.
pub fn input<'a>(rt: &HostRuntime, path: &'a str) -> Result<Vec<u8>, Failure<'a>>
    ensures unread { IfErr result (IsUnread path.now) }
{
    let bytes = if path == "-" {
        standard_input(rt)
    } else {
        fs::read(rt, path)
    };
    bytes.map_err(|error| Failure::Input(path, error))
}

// What became of writing. A reader that has seen enough is no failure.
pub fn forgiving(done: io::Result<()>) -> io::Result<()>
    ensures left { IsLeft done → IsOk result }
    ensures otherwise { (IsLeft done → ⊥) → result ≡ done }
{
    match done {
        Err(e) if e.kind() == ErrorKind::BrokenPipe => Ok(()),
        done => done,
    }
}

// Writes the whole text at once.
fn deliver(rt: &HostRuntime, text: &str) -> io::Result<()> {
    forgiving(rt.stdout().write_all(text.as_bytes()))
}
