//! Options, and what is asked for without any.
ghost use Rattle.std.specs.Prelude.{◌≡◌, IfSome};
ghost use Rattle.ps_ask.specs.Shown.{AreSettings};
ghost use Rattle.psat_ask.specs.Numbers.{FindsNumber};
ghost use Rattle.psat_ask.specs.Options.{FindsNamed, FindsStyle, FindsValue, usual_settings};
ghost use Rattle.psat_ask.specs.declared.options.Valued.TheVariants.{Conflicts, Digits, Pivots};
ghost use Rattle.psat_ask.specs.declared.options.TheConstants.{MOST_SECONDS};

use crate::number::number_within;
use crate::texts::{NO_REPORT, WRONG_CONFLICTS, WRONG_DIGITS, WRONG_PIVOTS, WRONG_TIME};
use ps_answer::MOST_PIVOTS;
use ps_ask::{Settings, Style, Wanted};
use ps_frac::MOST_DIGITS;
use ps_guess::Limits;
use ps_log::MOST_CONFLICTS;

/// The most seconds of a limit of time.
pub const MOST_SECONDS: u64 = 86_400;

/// An option with a value.
#[derive(Clone, Copy, Debug, PartialEq, Eq)]
pub enum Valued {
    /// How many digits decimals have.
    Digits,
    /// The most pivots of a run.
    Pivots,
    /// The most conflicts of a search.
    Conflicts,
    /// Where the report goes.
    Report,
    /// How many seconds a problem may take.
    TimeLimit,
}

impl Valued {
    /// What is said of a value that it doesn't take.
    pub fn fault(self) -> &'static str {
        match self {
            Valued::Digits => WRONG_DIGITS,
            Valued::Pivots => WRONG_PIVOTS,
            Valued::Conflicts => WRONG_CONFLICTS,
            Valued::Report => NO_REPORT,
            Valued::TimeLimit => WRONG_TIME,
        }
    }
}

/// The option with a value that a word names.
pub fn option_named(word: &str) -> Option<Valued>
    ensures { FindsNamed word.now result }
{
    match word {
        "--digits" => Some(Valued::Digits),
        "--pivots" => Some(Valued::Pivots),
        "--conflicts" => Some(Valued::Conflicts),
        "--report" => Some(Valued::Report),
        "--time-limit" => Some(Valued::TimeLimit),
        _ => None,
    }
}

/// What is asked for without options.
pub fn default_settings() -> Settings
    ensures usual { result ≡ usual_settings }
    ensures lawful { AreSettings result }
{
    Settings {
        limits: Limits {
            pivots: 10_000,
            conflicts: 20_000,
        },
        digits: 6,
        style: Style::Words,
        tells_support: false,
        tells_examples: false,
        reports: false,
        warns: Wanted {
            or: true,
            interval: true,
            twice: true,
            name: true,
            unstated: true,
            condition: true,
        },
        is_timed: false,
    }
}

// The settings with as many digits of decimals as a word spells.
fn with_digits(settings: Settings, word: &str) -> Option<Settings>
    requires { AreSettings settings }
    ensures found { FindsValue Digits word.now settings result }
    ensures lawful { IfSome result AreSettings }
{
    let digits = number_within(word, 1, u64::from(MOST_DIGITS))?;
    Some(Settings {
        digits: digits as u32,
        ..settings
    })
}

// The settings with as many pivots of a run as a word spells.
fn with_pivots(settings: Settings, word: &str) -> Option<Settings>
    requires { AreSettings settings }
    ensures found { FindsValue Pivots word.now settings result }
    ensures lawful { IfSome result AreSettings }
{
    let pivots = number_within(word, 0, MOST_PIVOTS)?;
    Some(Settings {
        limits: Limits {
            pivots,
            conflicts: settings.limits.conflicts,
        },
        ..settings
    })
}

// The settings with as many conflicts of a search as a word spells.
fn with_conflicts(settings: Settings, word: &str) -> Option<Settings>
    requires { AreSettings settings }
    ensures found { FindsValue Conflicts word.now settings result }
    ensures lawful { IfSome result AreSettings }
{
    let conflicts = number_within(word, 0, MOST_CONFLICTS)?;
    Some(Settings {
        limits: Limits {
            pivots: settings.limits.pivots,
            conflicts,
        },
        ..settings
    })
}

/// The seconds of a limit of time that a word spells.
pub fn seconds_of(word: &str) -> Option<u64>
    ensures { FindsNumber 1 MOST_SECONDS word.now result }
{
    number_within(word, 1, MOST_SECONDS)
}

/// The settings with the value that a word spells for an option.
pub fn with_value(settings: Settings, option: Valued, word: &str) -> Option<Settings>
    requires { AreSettings settings }
    ensures found { FindsValue option word.now settings result }
    ensures lawful { IfSome result AreSettings }
{
    match option {
        Valued::Digits => with_digits(settings, word),
        Valued::Pivots => with_pivots(settings, word),
        Valued::Conflicts => with_conflicts(settings, word),
        Valued::Report | Valued::TimeLimit => None,
    }
}

/// The settings in another style, where no other one was asked for.
pub fn with_style(settings: Settings, style: Style) -> Option<Settings>
    requires { AreSettings settings }
    ensures found { FindsStyle style settings result }
    ensures lawful { IfSome result AreSettings }
{
    if settings.style != Style::Words && settings.style != style {
        return None;
    }
    Some(Settings { style, ..settings })
}
