//! Causes and verdicts that are read.
ghost use Rattle.std.specs.Prelude.{◌≡◌, ◌∷◌, [], IfOk};
ghost use Rattle.ps_answer.specs.Answers.{ratio_of, cause_items, verdict_items, IsCounted, IsVerdictCounted};
ghost use Rattle.ps_answer.specs.Items.{IsReducedWithin, IsRatioWithin};
ghost use Rattle.ps_answer.specs.declared.limits.TheConstants.{MOST_OPERAND};
ghost use Rattle.ps_answer.specs.declared.item.LineItem.TheVariants as line;
ghost use Rattle.ps_answer.specs.declared.part.Part.TheVariants.{ACause, AGoal, AVerdict};
ghost use Rattle.ps_reader.specs.Read.{Fits};
ghost use Rattle.ps_reader.specs.Taken.{IsLineRead, IsValueRead};
ghost use Rattle.ps_reader.specs.Reports.{IsRestRead, IsGood};

use crate::lines::Lines;
use crate::models::{dual, model, steps};
use crate::ratio::fraction_of;
use ps_answer::{Cause, LineItem, Part, Ratio, ReportError, Verdict};
use ps_frac::{Fraction, Op};
use ps_pb::Constraint;
use ps_table::{Place, WideAt};

/// Why a part is open.
pub(crate) fn cause(lines: &mut Lines<'_>) -> Result<Cause, ReportError>
    ensures cause { IsValueRead cause_items (ACause ∷ []) lines.old lines.new result }
    ensures counted { IfOk result IsCounted }
{
    let item = lines.take(Part::ACause)?;
    cause_behind(item, lines)
}

/// The cause that a line begins.
pub(crate) fn cause_behind(item: LineItem, lines: &mut Lines<'_>) -> Result<Cause, ReportError>
    requires fits { Fits ACause item }
    requires good { IsGood item }
    ensures cause { IsRestRead item cause_items lines.old lines.new result }
    ensures counted { IfOk result IsCounted }
{
    match item {
        LineItem::OpenPivots { limit } => Ok(Cause::Pivots { limit }),
        LineItem::OpenConflicts { limit } => conflicts(limit, lines),
        LineItem::OpenWide {
            place,
            op,
            left,
            right,
        } => Ok(wide(place, op, &left, &right)),
        _ => unreachable!(),
    }
}

fn wide(place: Place, op: Op, left: &Ratio, right: &Ratio) -> Cause
    requires left { IsReducedWithin MOST_OPERAND left.now }
    requires left_within { IsRatioWithin MOST_OPERAND left.now }
    requires right { IsReducedWithin MOST_OPERAND right.now }
    requires right_within { IsRatioWithin MOST_OPERAND right.now }
    ensures wide { cause_items result ≡ line.OpenWide place op left.now right.now ∷ [] }
    ensures counted { IsCounted result }
{
    Cause::Wide {
        at: WideAt {
            place,
            op,
            left: fraction(left),
            right: fraction(right),
        },
    }
}

fn conflicts(limit: u64, lines: &mut Lines<'_>) -> Result<Cause, ReportError>
    ensures cause { IsRestRead (line.OpenConflicts limit) cause_items lines.old lines.new result }
    ensures counted { IfOk result IsCounted }
{
    let goal = goal(lines)?;
    let steps = steps(lines, limit)?;
    Ok(Cause::Conflicts { limit, goal, steps })
}

fn goal(lines: &mut Lines<'_>) -> Result<Constraint, ReportError>
    ensures { IsLineRead (λ g. line.GoalLine g) AGoal lines.old lines.new result }
{
    match lines.take(Part::AGoal)? {
        LineItem::GoalLine { goal } => Ok(goal),
        _ => unreachable!(),
    }
}

/// A fraction in lowest terms.
pub(crate) fn fraction(ratio: &Ratio) -> Fraction
    requires reduced { IsReducedWithin MOST_OPERAND ratio.now }
    requires within { IsRatioWithin MOST_OPERAND ratio.now }
    ensures { ratio_of result ≡ ratio.now }
{
    fraction_of(&ratio.over, &ratio.under)
}

/// What is answered to a problem's sentences.
pub(crate) fn verdict(lines: &mut Lines<'_>) -> Result<Verdict, ReportError>
    ensures verdict { IsValueRead verdict_items (AVerdict ∷ []) lines.old lines.new result }
    ensures counted { IfOk result IsVerdictCounted }
{
    match lines.take(Part::AVerdict)? {
        LineItem::Consistent => consistent(lines),
        LineItem::Inconsistent => inconsistent(lines),
        item => open(item, lines),
    }
}

fn consistent(lines: &mut Lines<'_>) -> Result<Verdict, ReportError>
    ensures verdict { IsRestRead line.Consistent verdict_items lines.old lines.new result }
    ensures counted { IfOk result IsVerdictCounted }
{
    Ok(Verdict::Consistent(model(lines)?))
}

fn inconsistent(lines: &mut Lines<'_>) -> Result<Verdict, ReportError>
    ensures verdict { IsRestRead line.Inconsistent verdict_items lines.old lines.new result }
    ensures counted { IfOk result IsVerdictCounted }
{
    Ok(Verdict::Inconsistent(dual(lines)?))
}

fn open(item: LineItem, lines: &mut Lines<'_>) -> Result<Verdict, ReportError>
    requires fits { Fits ACause item }
    requires good { IsGood item }
    ensures verdict { IsRestRead item verdict_items lines.old lines.new result }
    ensures counted { IfOk result IsVerdictCounted }
{
    Ok(Verdict::Open(cause_behind(item, lines)?))
}
