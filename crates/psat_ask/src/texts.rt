//! What is shown without an input.

/// What `--help` shows.
pub const HELP: &str = "Answers problems of probabilistic logic in words and numbers.

Usage: psat_ask [OPTIONS] [FILE]..

Each FILE holds a problem. Without one, and for -, standard input is read. A problem:

    psat 2;
    P(rain) = 0.7;
    P(wet given rain) >= 0.9;
    P(rain) - 2 P(snow) >= 0;
    query P(wet);
    end;

A text that begins with psat 1; is read too, and holds no sums or differences.

Options:
  --digits N      digits of decimals behind the point, 1 to 18 (6)
  --quiet         the verdict and the values alone; --quiet=exact as fractions
  --json          one JSON object for each problem, on one line
  --why           beneath each bound the sentences on which it rests, and how far it
                  moves with their numbers; at the end those on which none rests
  --example       beneath each bound a distribution that reaches it
  --report FILE   write the report that psat check accepts to FILE as well, whole or
                  not at all
  --report -      write that report alone
  --pivots N      the most pivots of a run, 0 to 1000000 (10000)
  --conflicts N   the most conflicts of a search, 0 to 1099511627776 (20000)
  --time-limit N  begin no further step after N seconds for a problem, 1 to 86400
  --no-warnings   no warnings; --no-warnings=KIND,.. none of these kinds:
                  or, interval, twice, name, unstated, condition
  --no-progress   no line on a terminal that tells how far the answer is
  --help, -h      this text
  --version, -V   the version
  --              only files behind it

A value may also stand behind =, as in --digits=3.

Exit status, with several files the greatest:
  0  consistent, and nothing is open
  1  inconsistent
  2  invalid arguments; no input was read
  3  an input is no problem, or is too long
  4  some part is open, or wasn't finished in time
  5  reading failed
  6  writing failed
  7  not enough memory
  10 the arguments can't be had, or one isn't UTF-8; no input was read

man psat_ask tells more.
";

/// What is told where a problem is read from a terminal.
pub const AWAITED: &str = "reading the problem from the terminal; Ctrl-D ends it";

/// What `--version` shows.
pub const VERSION: &str = "psat_ask 1\n";

/// Digits of decimals that aren't a number from 1 to 18.
pub const WRONG_DIGITS: &str = "--digits takes a number from 1 to 18";

/// A limit of pivots that can't be.
pub const WRONG_PIVOTS: &str = "--pivots takes a number from 0 to 1000000";

/// A limit of conflicts that can't be.
pub const WRONG_CONFLICTS: &str = "--conflicts takes a number from 0 to 1099511627776";

/// A limit of time that can't be.
pub const WRONG_TIME: &str = "--time-limit takes a number of seconds from 1 to 86400";

/// A kind of warnings that there isn't.
pub const WRONG_KINDS: &str =
    "--no-warnings takes kinds: or, interval, twice, name, unstated, condition";

/// A report without a file.
pub const NO_REPORT: &str = "--report takes a file, or - for standard output";

/// More than one way to show an answer.
pub const STYLES: &str = "--quiet, --json and --report - don't go together";

/// One report for several problems.
pub const ONE_REPORT: &str = "--report takes one problem";

/// Two reports.
pub const TWO_REPORTS: &str = "--report stands twice";

/// A report in place of a problem.
pub const OWN_REPORT: &str = "--report FILE is the problem's file";
