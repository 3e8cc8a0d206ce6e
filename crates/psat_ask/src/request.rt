//! What the words behind the program's name ask for.
ghost use Rattle.std.specs.Prelude.{◌≡◌, IfOk, IsOk, OnOk, map, string_bytes, true};
ghost use Rattle.ps_ask.specs.Shown.{AreSettings};
ghost use Rattle.psat_ask.specs.declared.options.Valued.TheVariants as valued;
ghost use Rattle.psat_ask.specs.declared.request.Next.TheVariants as next;
ghost use Rattle.psat_ask.specs.Choices.{TakesFile, TakesStyle, choices_of};
ghost use Rattle.psat_ask.specs.Requests.{HasSettings, IsAskedBy, IsFile, IsNoValue, IsOf};
ghost use Rattle.psat_ask.specs.Requests.{TakesFlag, TakesJoined, TakesKinds, TakesValue, TookOr};

use crate::kinds::{no_kinds, without_kinds};
use crate::meant::unknown;
use crate::options::{Valued, default_settings, option_named, seconds_of, with_style, with_value};
use crate::refused::Refused;
use crate::texts::{NO_REPORT, ONE_REPORT, OWN_REPORT, STYLES, TWO_REPORTS, WRONG_TIME};
use ps_ask::{Settings, Style};
use std::alloc::Global;

/// What is asked for.
#[derive(Drop)]
pub enum Request {
    /// The help text.
    Help,
    /// The version.
    Version,
    /// Answers to problems.
    Ask(Asked),
}

/// Which problems are to be answered, and how.
#[derive(Drop)]
pub struct Asked {
    /// How.
    pub settings: Settings,
    /// The file of the report, where one is wanted beside what is shown.
    pub report: Option<String>,
    /// How many seconds a problem may take, where that is limited.
    pub seconds: Option<u64>,
    /// Whether a terminal is told how far the answer is.
    pub tells_progress: bool,
    /// The files of the problems; `-` is standard input.
    pub files: Vec<String>,
}

impl Asked {
    // What is wrong with the report that is asked for: it is of one problem, and doesn't take its place.
    fn report_fault(&self) -> Option<&'static str> {
        if self.report.is_none() && self.settings.style != Style::Report {
            return None;
        }
        if self.files.len() > 1 {
            return Some(ONE_REPORT);
        }
        match (&self.report, self.files.first()) {
            (Some(report), Some(file)) if report == file => Some(OWN_REPORT),
            _ => None,
        }
    }
}

/// What the next word is.
#[derive(Clone, Copy, Debug, PartialEq, Eq)]
enum Next {
    /// An option or a file.
    Word,
    /// The value of an option.
    Value(Valued),
    /// A file, as all behind it.
    File,
}

/// How far words were read.
#[derive(Drop)]
struct Reading {
    asked: Asked,
    next: Next,
}

impl Reading {
    // Changes the style.
    fn style(&mut self, style: Style) -> Result<(), Refused>
        requires { AreSettings self.old.asked.settings }
        ensures set { OnOk result (TakesStyle style self.old.asked self.new.asked) }
        ensures lawful { AreSettings self.new.asked.settings }
        ensures next { self.new.next ≡ self.old.next }
    {
        match with_style(self.asked.settings, style) {
            Some(settings) => {
                self.asked.settings = settings;
                Ok(())
            }
            None => Err(Refused::Wrong(STYLES)),
        }
    }

    // Sets where the report goes.
    fn report(&mut self, alloc: Global, value: &str) -> Result<(), Refused>
        requires { AreSettings self.old.asked.settings }
        ensures set { OnOk result
            (TakesValue valued.Report value.now self.old.asked self.new.asked) }
        ensures lawful { AreSettings self.new.asked.settings }
        ensures next { self.new.next ≡ self.old.next }
    {
        if value.is_empty() {
            return Err(Refused::Wrong(NO_REPORT));
        }
        if self.asked.report.is_some() || self.asked.settings.style == Style::Report {
            return Err(Refused::Wrong(TWO_REPORTS));
        }
        if value == "-" {
            return self.style(Style::Report);
        }
        self.asked.report = Some(String::from_str(alloc, value)?);
        self.asked.settings.reports = true;
        Ok(())
    }

    // Sets a limit of time.
    fn time_limit(&mut self, value: &str) -> Result<(), Refused>
        requires { AreSettings self.old.asked.settings }
        ensures set { OnOk result
            (TakesValue valued.TimeLimit value.now self.old.asked self.new.asked) }
        ensures lawful { AreSettings self.new.asked.settings }
        ensures next { self.new.next ≡ self.old.next }
    {
        let Some(seconds) = seconds_of(value) else {
            return Err(Refused::Wrong(WRONG_TIME));
        };
        self.asked.seconds = Some(seconds);
        self.asked.settings.is_timed = true;
        Ok(())
    }

    // Sets the limit or the digits that an option names.
    fn number(&mut self, option: Valued, value: &str) -> Result<(), Refused>
        requires { AreSettings self.old.asked.settings }
        ensures set { OnOk result
            (TakesValue option value.now self.old.asked self.new.asked) }
        ensures lawful { AreSettings self.new.asked.settings }
        ensures next { self.new.next ≡ self.old.next }
    {
        match with_value(self.asked.settings, option, value) {
            Some(settings) => {
                self.asked.settings = settings;
                Ok(())
            }
            None => Err(Refused::Wrong(option.fault())),
        }
    }

    // Sets the value of an option.
    fn value(&mut self, alloc: Global, option: Valued, value: &str) -> Result<(), Refused>
        requires { AreSettings self.old.asked.settings }
        ensures set { OnOk result
            (TakesValue option value.now self.old.asked self.new.asked) }
        ensures lawful { AreSettings self.new.asked.settings }
        ensures next { self.new.next ≡ self.old.next }
    {
        match option {
            Valued::Report => self.report(alloc, value),
            Valued::TimeLimit => self.time_limit(value),
            Valued::Digits | Valued::Pivots | Valued::Conflicts => self.number(option, value),
        }
    }

    // Leaves out kinds of warnings.
    fn no_warnings(&mut self, alloc: Global, kinds: &str) -> Result<(), Refused>
        requires { AreSettings self.old.asked.settings }
        ensures set { OnOk result (TakesKinds kinds.now self.old.asked self.new.asked) }
        ensures lawful { AreSettings self.new.asked.settings }
        ensures next { self.new.next ≡ self.old.next }
    {
        self.asked.settings.warns = without_kinds(alloc, self.asked.settings.warns, kinds)?;
        Ok(())
    }

    // Reads an option with its value behind `=`.
    fn option_pair(
        &mut self,
        alloc: Global,
        word: &str,
        name: &str,
        value: &str,
    ) -> Result<(), Refused>
        requires { AreSettings self.old.asked.settings }
        ensures set { OnOk result
            (TakesJoined name.now value.now self.old.asked self.new.asked) }
        ensures lawful { AreSettings self.new.asked.settings }
        ensures next { self.new.next ≡ self.old.next }
    {
        if let Some(option) = option_named(name) {
            return self.value(alloc, option, value);
        }
        if name == "--no-warnings" {
            return self.no_warnings(alloc, value);
        }
        if name == "--quiet" && value == "exact" {
            return self.style(Style::Exact);
        }
        Err(unknown(alloc, word))
    }

    // Reads an option without a value.
    fn flag(&mut self, alloc: Global, word: &str) -> Result<(), Refused>
        requires { AreSettings self.old.asked.settings }
        ensures set { OnOk result (TakesFlag word.now self.old.asked self.new.asked) }
        ensures lawful { AreSettings self.new.asked.settings }
        ensures next { self.new.next ≡ self.old.next }
    {
        match word {
            "--quiet" => self.style(Style::Values),
            "--json" => self.style(Style::Json),
            "--why" => {
                self.asked.settings.tells_support = true;
                Ok(())
            }
            "--example" => {
                self.asked.settings.tells_examples = true;
                Ok(())
            }
            "--no-warnings" => {
                self.asked.settings.warns = no_kinds();
                Ok(())
            }
            "--no-progress" => {
                self.asked.tells_progress = false;
                Ok(())
            }
            _ => Err(unknown(alloc, word)),
        }
    }

    // Reads an option that sets something by itself.
    #[tactic(auto, using(crate::proofs::RequestLaws::took_flag))]
    fn set_flag(&mut self, alloc: Global, word: &str) -> Result<Option<Request>, Refused>
        requires settings { AreSettings self.old.asked.settings }
        requires next { self.old.next ≡ next.Word }
        ensures settings { AreSettings self.new.asked.settings }
        ensures took { TookOr result word.now self.old self.new }
    {
        self.flag(alloc, word)?;
        Ok(None)
    }

    // Reads an option without a value, or what stands in the place of one.
    #[tactic(auto, using(crate::proofs::RequestLaws::took_option, crate::proofs::RequestLaws::took_end))]
    fn sole(&mut self, alloc: Global, word: &str) -> Result<Option<Request>, Refused>
        requires settings { AreSettings self.old.asked.settings }
        requires next { self.old.next ≡ next.Word }
        ensures settings { AreSettings self.new.asked.settings }
        ensures took { TookOr result word.now self.old self.new }
    {
        if let Some(option) = option_named(word) {
            self.next = Next::Value(option);
            return Ok(None);
        }
        match word {
            "--help" | "-h" => Ok(Some(Request::Help)),
            "--version" | "-V" => Ok(Some(Request::Version)),
            "--" => {
                self.next = Next::File;
                Ok(None)
            }
            _ => self.set_flag(alloc, word),
        }
    }

    // Reads an option.
    #[tactic(auto, using(crate::proofs::RequestLaws::took_joined))]
    fn option(&mut self, alloc: Global, word: &str) -> Result<Option<Request>, Refused>
        requires settings { AreSettings self.old.asked.settings }
        requires next { self.old.next ≡ next.Word }
        ensures settings { AreSettings self.new.asked.settings }
        ensures took { TookOr result word.now self.old self.new }
    {
        match word.split_once('=') {
            Some((name, value)) => {
                self.option_pair(alloc, word, name, value)?;
                Ok(None)
            }
            None => self.sole(alloc, word),
        }
    }

    // Takes a word as a file.
    fn file(&mut self, alloc: Global, word: &str) -> Result<(), Refused>
        requires { AreSettings self.old.asked.settings }
        ensures taken { OnOk result (TakesFile word.now self.old.asked self.new.asked) }
        ensures kept { self.new.asked.settings ≡ self.old.asked.settings }
        ensures next { self.new.next ≡ self.old.next }
    {
        self.asked.files.push(String::from_str(alloc, word)?)?;
        Ok(())
    }

    // Reads an option, or takes a word as a file.
    #[tactic(auto, using(crate::proofs::RequestLaws::took_file))]
    fn option_or_file(&mut self, alloc: Global, word: &str) -> Result<Option<Request>, Refused>
        requires settings { AreSettings self.old.asked.settings }
        requires next { self.old.next ≡ next.Word }
        ensures settings { AreSettings self.new.asked.settings }
        ensures took { TookOr result word.now self.old self.new }
    {
        if !is_file(word) {
            return self.option(alloc, word);
        }
        self.file(alloc, word)?;
        Ok(None)
    }

    // Reads a word: a request that takes the place of all others, if it is one.
    #[tactic(auto, using(crate::proofs::RequestLaws::took_value, crate::proofs::RequestLaws::took_later))]
    fn word(&mut self, alloc: Global, word: &str) -> Result<Option<Request>, Refused>
        requires { AreSettings self.old.asked.settings }
        ensures settings { AreSettings self.new.asked.settings }
        ensures took { TookOr result word.now self.old self.new }
    {
        match self.next {
            Next::Word => self.option_or_file(alloc, word),
            Next::Value(option) => {
                self.value(alloc, option, word)?;
                self.next = Next::Word;
                Ok(None)
            }
            Next::File => {
                self.file(alloc, word)?;
                Ok(None)
            }
        }
    }

    // What is asked for where no word is left.
    fn end(self) -> Result<Request, Refused>
        requires { AreSettings self.asked.settings }
        ensures settings { IfOk result HasSettings }
        ensures asked { IfOk result (IsOf (choices_of self.asked)) }
        ensures ended { IsOk result → IsNoValue self.next }
    {
        if let Next::Value(option) = self.next {
            return Err(Refused::Wrong(option.fault()));
        }
        if let Some(fault) = self.asked.report_fault() {
            return Err(Refused::Wrong(fault));
        }
        Ok(Request::Ask(self.asked))
    }
}

// Whether a word is a file: it doesn't begin with a minus sign, or is that alone.
fn is_file(word: &str) -> bool
    ensures { result ≡ true → IsFile word.now }
{
    word == "-" || !word.starts_with('-')
}

/// What the words behind the program's name ask for.
#[tactic(auto, using(crate::proofs::RequestLaws::leads_first, crate::proofs::RequestLaws::leads_next, crate::proofs::RequestLaws::leads_last, crate::proofs::RequestLaws::asked_there, crate::proofs::RequestLaws::lawful_text))]
pub fn request_of(alloc: Global, words: &[String]) -> Result<Request, Refused>
    ensures lawful { IfOk result HasSettings }
    ensures asked { IfOk result (IsAskedBy (map string_bytes words.now)) }
{
    let mut reading = Reading {
        asked: Asked {
            settings: default_settings(),
            report: None,
            seconds: None,
            tells_progress: true,
            files: Vec::new(alloc),
        },
        next: Next::Word,
    };
    for word in words {
        if let Some(request) = reading.word(alloc, word.as_str())? {
            return Ok(request);
        }
    }
    reading.end()
}
