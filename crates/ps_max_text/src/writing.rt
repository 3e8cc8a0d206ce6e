//! Answers that are written.
ghost use Rattle.std.specs.Prelude.{◌≡◌, ◌<◌, [], ◌∷◌, Some, length, map};
ghost use Rattle.std.specs.List.{AllByRecursion};
ghost use Rattle.ps_io.specs.LineText.{IsWord};
ghost use Rattle.ps_io.specs.Lines.{text_of};
ghost use Rattle.ps_io.specs.Wrote.{Wrote};
ghost use Rattle.ps_log.specs.Lines.{HoldsLine};
ghost use Rattle.ps_log.specs.Texts.{step_line};
ghost use Rattle.ps_max_text.specs.Texts.{body_lines, count_line, found, log_lines};
ghost use Rattle.ps_max_text.specs.Texts.{max_lines, number_line, open_line};
ghost use Rattle.ps_max_text.specs.Texts.{best_lines, values_line, spent, IsShortLine};

use ps_formula::World;
use ps_io::{Lines, Sink, WriteFault};
use ps_log::{write_goal, write_step};
use ps_max_answer::MaxAnswer;
use ps_pb::{Constraint, Step};
use ps_report::add_world;

// Writes the line as it stands.
fn end_line<O: Sink>(lines: &mut Lines<'_, O>) -> Result<(), WriteFault>
    ensures { Wrote O.written O.faults lines.old lines.new result (text_of lines.old ∷ []) }
{
    lines.end_line()
}

// Writes a line of one word.
fn write_word<O: Sink>(lines: &mut Lines<'_, O>, word: &[u8]) -> Result<(), WriteFault>
    requires empty { text_of lines.old ≡ [] }
    requires one_word { IsWord word.now }
    requires short { length word.now < 20 }
    ensures { Wrote O.written O.faults lines.old lines.new result (word.now ∷ []) }
{
    lines.word(word);
    lines.end_line()
}

// Writes a line of a word and a count.
fn write_count<O: Sink>(lines: &mut Lines<'_, O>, word: &[u8], count: u64) -> Result<(), WriteFault>
    requires empty { text_of lines.old ≡ [] }
    requires one_word { IsWord word.now }
    requires short { length word.now < 20 }
    ensures { Wrote O.written O.faults lines.old lines.new result
        (count_line word.now count ∷ []) }
{
    lines.word(word);
    lines.number(count as i128);
    lines.end_line()
}

// Writes a line of a word and a cost.
fn write_cost<O: Sink>(lines: &mut Lines<'_, O>, word: &[u8], cost: &i128) -> Result<(), WriteFault>
    requires empty { text_of lines.old ≡ [] }
    requires one_word { IsWord word.now }
    requires short { length word.now < 20 }
    ensures { Wrote O.written O.faults lines.old lines.new result
        (number_line word.now cost.now ∷ []) }
{
    lines.word(word);
    lines.number(*cost);
    lines.end_line()
}

// Writes the values of the variables.
fn write_values<O: Sink>(lines: &mut Lines<'_, O>, values: &World) -> Result<(), WriteFault>
    requires empty { text_of lines.old ≡ [] }
    requires short { IsShortLine (values_line values.now) }
    ensures { Wrote O.written O.faults lines.old lines.new result (values_line values.now ∷ []) }
{
    lines.word(b"v");
    add_world(lines, values);
    lines.end_line()
}

// Writes steps.
fn write_steps<O: Sink>(lines: &mut Lines<'_, O>, steps: &[Step]) -> Result<(), WriteFault>
    requires empty { text_of lines.old ≡ [] }
    requires short { AllByRecursion IsShortLine (map step_line steps.now) }
    ensures { Wrote O.written O.faults lines.old lines.new result (map step_line steps.now) }
{
    for step in steps {
        write_step(lines, step)?;
    }
    Ok(())
}

// Writes how many steps there are, and each of them.
fn write_log<O: Sink>(lines: &mut Lines<'_, O>, steps: &[Step]) -> Result<(), WriteFault>
    requires empty { text_of lines.old ≡ [] }
    requires short { AllByRecursion IsShortLine (log_lines steps.now) }
    ensures { Wrote O.written O.faults lines.old lines.new result (log_lines steps.now) }
{
    write_count(lines, b"log", steps.len() as u64)?;
    write_steps(lines, steps)
}

// Writes an optimum below its first line.
fn write_found<O: Sink>(
    lines: &mut Lines<'_, O>,
    assignment: &World,
    steps: &[Step],
) -> Result<(), WriteFault>
    requires empty { text_of lines.old ≡ [] }
    requires short { AllByRecursion IsShortLine (found assignment.now steps.now) }
    ensures { Wrote O.written O.faults lines.old lines.new result
        (found assignment.now steps.now) }
{
    write_values(lines, assignment)?;
    write_log(lines, steps)
}

// Adds why an answer is open, the limit of conflicts, and how many steps follow.
fn add_open<O: Sink>(lines: &mut Lines<'_, O>, limit: u64, count: u64)
    requires { text_of lines.old ≡ [] }
    ensures { HoldsLine lines.old lines.new (open_line limit count) }
{
    lines.word(b"open");
    lines.word(b"conflicts");
    lines.number(limit as i128);
    lines.number(count as i128);
}

// Writes the first line of a search that was spent.
fn write_open<O: Sink>(lines: &mut Lines<'_, O>, limit: u64, count: u64) -> Result<(), WriteFault>
    requires { text_of lines.old ≡ [] }
    ensures { Wrote O.written O.faults lines.old lines.new result
        (open_line limit count ∷ []) }
{
    add_open(lines, limit, count);
    end_line(lines)
}

// Writes an assignment with its cost.
fn write_costed<O: Sink>(lines: &mut Lines<'_, O>, best: &(i128, World)) -> Result<(), WriteFault>
    requires empty { text_of lines.old ≡ [] }
    requires short { AllByRecursion IsShortLine (best_lines (Some best.now)) }
    ensures { Wrote O.written O.faults lines.old lines.new result (best_lines (Some best.now)) }
{
    write_cost(lines, b"best", &best.0)?;
    write_values(lines, &best.1)
}

// Writes the best assignment so far, or that there is none.
fn write_best<O: Sink>(
    lines: &mut Lines<'_, O>,
    best: &Option<(i128, World)>,
) -> Result<(), WriteFault>
    requires empty { text_of lines.old ≡ [] }
    requires short { AllByRecursion IsShortLine (best_lines best.now) }
    ensures { Wrote O.written O.faults lines.old lines.new result (best_lines best.now) }
{
    match best {
        None => {
            lines.word(b"best");
            lines.word(b"none");
            lines.end_line()
        }
        Some(best) => write_costed(lines, best),
    }
}

// Writes the goal and the steps of a search that was spent, and the best assignment so far.
fn write_spent<O: Sink>(
    lines: &mut Lines<'_, O>,
    goal: &Constraint,
    steps: &[Step],
    best: &Option<(i128, World)>,
) -> Result<(), WriteFault>
    requires empty { text_of lines.old ≡ [] }
    requires short { AllByRecursion IsShortLine (spent goal.now steps.now best.now) }
    ensures { Wrote O.written O.faults lines.old lines.new result
        (spent goal.now steps.now best.now) }
{
    write_goal(lines, goal)?;
    write_steps(lines, steps)?;
    write_best(lines, best)
}

fn write_body<O: Sink>(answer: &MaxAnswer, lines: &mut Lines<'_, O>) -> Result<(), WriteFault>
    requires empty { text_of lines.old ≡ [] }
    requires short { AllByRecursion IsShortLine (body_lines answer.now) }
    ensures { Wrote O.written O.faults lines.old lines.new result (body_lines answer.now) }
{
    match answer {
        MaxAnswer::Optimum {
            cost,
            assignment,
            steps,
        } => {
            write_cost(lines, b"optimum", cost)?;
            write_found(lines, assignment, steps.as_slice())
        }
        MaxAnswer::Unsatisfiable { steps } => {
            write_word(lines, b"unsatisfiable")?;
            write_log(lines, steps.as_slice())
        }
        MaxAnswer::Open {
            limit,
            goal,
            steps,
            best,
        } => {
            write_open(lines, *limit, steps.len() as u64)?;
            write_spent(lines, goal, steps.as_slice(), best)
        }
    }
}

/// Writes the text of an answer. No memory is taken. After a fault a proper prefix of the text was
/// written.
pub fn write_max<O: Sink>(answer: &MaxAnswer, lines: &mut Lines<'_, O>) -> Result<(), WriteFault>
    requires empty { text_of lines.old ≡ [] }
    requires short { AllByRecursion IsShortLine (max_lines answer.now) }
    ensures { Wrote O.written O.faults lines.old lines.new result (max_lines answer.now) }
{
    write_count(lines, b"maxsat", 1)?;
    write_body(answer, lines)?;
    write_word(lines, b"end")
}
