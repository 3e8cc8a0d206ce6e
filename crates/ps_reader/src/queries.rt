//! Queries and their sides that are read.
ghost use Rattle.std.specs.Prelude.{◌∷◌, [], IfOk};
ghost use Rattle.ps_answer.specs.Answers.{ArePartsCounted};
ghost use Rattle.ps_answer.specs.Items.{IsReducedWithin, IsRatioWithin};
ghost use Rattle.ps_answer.specs.declared.limits.TheConstants.{MOST_OPERAND};
ghost use Rattle.ps_answer.specs.declared.item.LineItem.TheVariants as line;
ghost use Rattle.ps_answer.specs.declared.part.Part.TheVariants.{ACause, AnAnswer, AQuery};
ghost use Rattle.ps_reader.specs.Read.{Fits};
ghost use Rattle.ps_reader.specs.Taken.{IsValueRead};
ghost use Rattle.ps_reader.specs.Reports.{IsRestRead, IsSideRead, IsSideRest, IsOpenRest, IsGood};
ghost use Rattle.ps_reader.specs.Reports.{query_part_items, parts_and_end_items};
ghost use Rattle.ps_reader.specs.Reports.{IsNextRead, IsSideTold, IsPartTold, IsNumberWithin};

use crate::causes::{cause, cause_behind, fraction};
use crate::lines::Lines;
use crate::models::{dual, model};
use crate::traces::trace;
use ps_answer::{LineItem, Part, Parts, QueryAnswer, QueryPart, Ratio, ReportError, SideAnswer};
use ps_io::List;
use ps_table::Trace;

// A side of a query, and its events.
fn side(upper: bool, lines: &mut Lines<'_>) -> Result<(SideAnswer, Trace), ReportError>
    ensures side { IsSideRead upper lines.old lines.new result }
    ensures counted { IfOk result IsSideTold }
{
    match lines.take(Part::ASide { upper })? {
        LineItem::Bound { value, .. } => bound(&value, lines),
        LineItem::OpenSide { .. } => open_side(lines),
        _ => unreachable!(),
    }
}

fn bound(value: &Ratio, lines: &mut Lines<'_>) -> Result<(SideAnswer, Trace), ReportError>
    requires reduced { IsReducedWithin MOST_OPERAND value.now }
    requires within { IsRatioWithin MOST_OPERAND value.now }
    ensures side { IsSideRest (λ upper. line.Bound upper value.now) lines.old lines.new result }
    ensures counted { IfOk result IsSideTold }
{
    let model = model(lines)?;
    let dual = dual(lines)?;
    let trace = trace(lines)?;
    let value = fraction(value);
    Ok((SideAnswer::Bound { value, model, dual }, trace))
}

fn open_side(lines: &mut Lines<'_>) -> Result<(SideAnswer, Trace), ReportError>
    ensures side { IsSideRest (λ upper. line.OpenSide upper) lines.old lines.new result }
    ensures counted { IfOk result IsSideTold }
{
    let cause = cause(lines)?;
    let trace = trace(lines)?;
    Ok((SideAnswer::Open(cause), trace))
}

// What is answered to a query, and the events of its first phase.
fn part(lines: &mut Lines<'_>) -> Result<QueryPart, ReportError>
    ensures part { IsValueRead query_part_items (AnAnswer ∷ []) lines.old lines.new result }
    ensures counted { IfOk result IsPartTold }
{
    match lines.take(Part::AnAnswer)? {
        LineItem::Bounds => sides(lines),
        LineItem::Impossible => impossible(lines),
        item => open(item, lines),
    }
}

fn sides(lines: &mut Lines<'_>) -> Result<QueryPart, ReportError>
    ensures part { IsRestRead line.Bounds query_part_items lines.old lines.new result }
    ensures counted { IfOk result IsPartTold }
{
    let first = trace(lines)?;
    let (lower, lower_trace) = side(false, lines)?;
    let (upper, upper_trace) = side(true, lines)?;
    Ok(QueryPart {
        answer: QueryAnswer::Bounds {
            lower,
            lower_trace,
            upper,
            upper_trace,
        },
        first,
    })
}

fn impossible(lines: &mut Lines<'_>) -> Result<QueryPart, ReportError>
    ensures part { IsRestRead line.Impossible query_part_items lines.old lines.new result }
    ensures counted { IfOk result IsPartTold }
{
    let dual = dual(lines)?;
    let first = trace(lines)?;
    Ok(QueryPart {
        answer: QueryAnswer::Impossible(dual),
        first,
    })
}

fn open(item: LineItem, lines: &mut Lines<'_>) -> Result<QueryPart, ReportError>
    requires fits { Fits ACause item }
    requires good { IsGood item }
    ensures part { IsOpenRest item lines.old lines.new result }
    ensures counted { IfOk result IsPartTold }
{
    let cause = cause_behind(item, lines)?;
    let first = trace(lines)?;
    Ok(QueryPart {
        answer: QueryAnswer::Open(cause),
        first,
    })
}

/// The queries in their order, up to the line that ends a report.
pub(crate) fn parts(lines: &mut Lines<'_>) -> Result<Parts, ReportError>
    ensures parts { IsValueRead parts_and_end_items (AQuery 1 ∷ []) lines.old lines.new result }
    ensures counted { IfOk result ArePartsCounted }
{
    let mut parts = List::new(lines.alloc());
    let mut number = 1;
    while is_query(number, lines)? {
        parts.push(part(lines)?)?;
        number += 1;
    }
    Ok(parts)
}

fn is_query(number: u64, lines: &mut Lines<'_>) -> Result<bool, ReportError>
    ensures line { IsNextRead number lines.old lines.new result }
    ensures number { IfOk result (IsNumberWithin number) }
{
    match lines.take(Part::AQuery { number })? {
        LineItem::Query { .. } => Ok(true),
        LineItem::End => Ok(false),
        _ => unreachable!(),
    }
}
