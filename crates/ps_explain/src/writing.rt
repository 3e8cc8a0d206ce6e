//! The text of an explanation, line by line.
ghost use Rattle.std.specs.Prelude.{◌≡◌, ◌<◌, ◌∷◌, [], codes, pos, length, All};
ghost use Rattle.ps_answer.specs.declared.item.LineItem.TheVariants as line;
ghost use Rattle.ps_answer.specs.Answers.{cause_items, dual_items, model_items, trace_items};
ghost use Rattle.ps_io.specs.LineText.{IsWord};
ghost use Rattle.ps_io.specs.Lines.{text_of};
ghost use Rattle.ps_io.specs.Wrote.{Wrote};
ghost use Rattle.ps_log.specs.Lines.{AddsNumbers, HoldsLine, length_with};
ghost use Rattle.ps_report.specs.Parts.{AreShort};
ghost use Rattle.ps_explain.specs.Texts.{HasShortLines, IsShortList, body_lines, core_lines};
ghost use Rattle.ps_explain.specs.Texts.{body_and_end, consistent_lines, below_core, list_and_trace};
ghost use Rattle.ps_explain.specs.Texts.{explanation_line, explanation_lines, models_lines};
ghost use Rattle.ps_explain.specs.Texts.{number_list, numbers_line, open_lines, without_line};
ghost use Rattle.ps_explain.specs.Texts.{without_lines, Prints};

use crate::explained::Explained;
use ps_answer::{Cause, Dual, Model};
use ps_io::{LONGEST_LINE, Lines, Sink, WriteFault};
use ps_log::add_number;
use ps_report::{write_cause, write_consistent, write_dual, write_end, write_model, write_trace};
use ps_table::Event;

/// Writes the explanation of a problem. No memory is taken. After a fault a proper prefix of its
/// text was written.
pub fn write_explanation<O: Sink>(
    explained: &Explained,
    lines: &mut Lines<'_, O>,
) -> Result<(), WriteFault>
    requires empty { text_of lines.old ≡ [] }
    requires short { HasShortLines explained.now }
    ensures { Wrote O.written O.faults lines.old lines.new result
        (explanation_lines explained.now) }
{
    write_head(lines)?;
    write_body_and_end(lines, explained)
}

fn write_body_and_end<O: Sink>(
    lines: &mut Lines<'_, O>,
    explained: &Explained,
) -> Result<(), WriteFault>
    requires empty { text_of lines.old ≡ [] }
    requires short { HasShortLines explained.now }
    ensures { Wrote O.written O.faults lines.old lines.new result (body_and_end explained.now) }
{
    write_body(lines, explained)?;
    write_end(lines)
}

fn write_head<O: Sink>(lines: &mut Lines<'_, O>) -> Result<(), WriteFault>
    requires { text_of lines.old ≡ [] }
    ensures { Wrote O.written O.faults lines.old lines.new result (explanation_line ∷ []) }
{
    lines.word(b"explanation");
    lines.number(1);
    lines.end_line()
}

fn write_body<O: Sink>(lines: &mut Lines<'_, O>, explained: &Explained) -> Result<(), WriteFault>
    requires empty { text_of lines.old ≡ [] }
    requires short { HasShortLines explained.now }
    ensures { Wrote O.written O.faults lines.old lines.new result (body_lines explained.now) }
{
    match explained {
        Explained::Consistent(model) => write_met(lines, model),
        Explained::Core {
            sentences,
            dual,
            without,
        } => write_core(lines, sentences.as_slice(), dual, without.as_slice()),
        Explained::Open {
            sentences,
            cause,
            first,
        } => write_open(lines, sentences.as_slice(), cause, first.as_slice()),
    }
}

fn write_met<O: Sink>(lines: &mut Lines<'_, O>, model: &Model) -> Result<(), WriteFault>
    requires empty { text_of lines.old ≡ [] }
    requires short { AreShort (model_items model.now) }
    ensures { Wrote O.written O.faults lines.old lines.new result (consistent_lines model.now) }
{
    write_consistent(lines)?;
    write_model(lines, model)
}

fn write_core<O: Sink>(
    lines: &mut Lines<'_, O>,
    sentences: &[u32],
    dual: &Dual,
    without: &[Model],
) -> Result<(), WriteFault>
    requires empty { text_of lines.old ≡ [] }
    requires list { IsShortList (codes "core") sentences.now }
    requires dual { AreShort (dual_items dual.now) }
    requires models { All (λ m. AreShort (model_items m)) without.now }
    requires each { length sentences.now ≡ length without.now }
    ensures { Prints O.Sink lines.old lines.new result
        (core_lines sentences.now dual.now without.now) }
{
    write_numbers(lines, b"core", sentences)?;
    write_dual_and_models(lines, sentences, dual, without)
}

fn write_dual_and_models<O: Sink>(
    lines: &mut Lines<'_, O>,
    sentences: &[u32],
    dual: &Dual,
    without: &[Model],
) -> Result<(), WriteFault>
    requires empty { text_of lines.old ≡ [] }
    requires dual { AreShort (dual_items dual.now) }
    requires models { All (λ m. AreShort (model_items m)) without.now }
    requires each { length sentences.now ≡ length without.now }
    ensures { Prints O.Sink lines.old lines.new result
        (below_core sentences.now dual.now without.now) }
{
    write_dual(lines, dual)?;
    write_models(lines, sentences, without)
}

fn write_open<O: Sink>(
    lines: &mut Lines<'_, O>,
    sentences: &[u32],
    cause: &Cause,
    first: &[Event],
) -> Result<(), WriteFault>
    requires empty { text_of lines.old ≡ [] }
    requires cause { AreShort (cause_items cause.now) }
    requires list { IsShortList (codes "sentences") sentences.now }
    requires events { AreShort (trace_items first.now) }
    ensures { Prints O.Sink lines.old lines.new result
        (open_lines sentences.now cause.now first.now) }
{
    write_cause(lines, cause)?;
    write_list_and_trace(lines, sentences, first)
}

fn write_list_and_trace<O: Sink>(
    lines: &mut Lines<'_, O>,
    sentences: &[u32],
    first: &[Event],
) -> Result<(), WriteFault>
    requires empty { text_of lines.old ≡ [] }
    requires list { IsShortList (codes "sentences") sentences.now }
    requires events { AreShort (trace_items first.now) }
    ensures { Prints O.Sink lines.old lines.new result
        (list_and_trace sentences.now first.now) }
{
    write_numbers(lines, b"sentences", sentences)?;
    write_trace(lines, first)
}

fn write_models<O: Sink>(
    lines: &mut Lines<'_, O>,
    sentences: &[u32],
    without: &[Model],
) -> Result<(), WriteFault>
    requires empty { text_of lines.old ≡ [] }
    requires models { All (λ m. AreShort (model_items m)) without.now }
    requires each { length sentences.now ≡ length without.now }
    ensures { Prints O.Sink lines.old lines.new result
        (models_lines sentences.now without.now) }
{
    for i in 0..sentences.len() {
        write_without(lines, sentences[i], &without[i])?;
    }
    Ok(())
}

fn write_without<O: Sink>(
    lines: &mut Lines<'_, O>,
    sentence: u32,
    model: &Model,
) -> Result<(), WriteFault>
    requires empty { text_of lines.old ≡ [] }
    requires short { AreShort (model_items model.now) }
    ensures { Wrote O.written O.faults lines.old lines.new result
        (without_lines sentence model.now) }
{
    write_without_head(lines, sentence)?;
    write_model(lines, model)
}

fn write_without_head<O: Sink>(lines: &mut Lines<'_, O>, sentence: u32) -> Result<(), WriteFault>
    requires { text_of lines.old ≡ [] }
    ensures { Wrote O.written O.faults lines.old lines.new result (without_line sentence ∷ []) }
{
    lines.word(b"without");
    lines.number(sentence as i128);
    lines.end_line()
}

fn write_numbers<O: Sink>(
    lines: &mut Lines<'_, O>,
    word: &[u8],
    numbers: &[u32],
) -> Result<(), WriteFault>
    requires empty { text_of lines.old ≡ [] }
    requires word { IsWord word.now }
    requires short { IsShortList word.now numbers.now }
    ensures { Prints O.Sink lines.old lines.new result
        (numbers_line word.now numbers.now ∷ []) }
{
    add_list(lines, word, numbers);
    end_line(lines)
}

/// Writes the line as it stands.
fn end_line<O: Sink>(lines: &mut Lines<'_, O>) -> Result<(), WriteFault>
    ensures { Wrote O.written O.faults lines.old lines.new result (text_of lines.old ∷ []) }
{
    lines.end_line()
}

fn add_list<O: Sink>(lines: &mut Lines<'_, O>, word: &[u8], numbers: &[u32])
    requires empty { text_of lines.old ≡ [] }
    requires word { IsWord word.now }
    requires short { IsShortList word.now numbers.now }
    ensures { HoldsLine lines.old lines.new (numbers_line word.now numbers.now) }
{
    lines.word(word);
    add_count(lines, numbers);
    add_numbers(lines, numbers);
}

fn add_count<O: Sink>(lines: &mut Lines<'_, O>, numbers: &[u32])
    requires { length_with lines.old (pos (length numbers.now) ∷ []) < LONGEST_LINE }
    ensures { AddsNumbers lines.old lines.new (pos (length numbers.now) ∷ []) }
{
    add_number(lines, numbers.len() as i128);
}

fn add_numbers<O: Sink>(lines: &mut Lines<'_, O>, numbers: &[u32])
    requires { length_with lines.old (number_list numbers.now) < LONGEST_LINE }
    ensures { AddsNumbers lines.old lines.new (number_list numbers.now) }
{
    for number in numbers {
        add_whole(lines, number);
    }
}

fn add_whole<O: Sink>(lines: &mut Lines<'_, O>, number: &u32)
    requires { length_with lines.old ((pos number.now) ∷ []) < LONGEST_LINE }
    ensures { AddsNumbers lines.old lines.new ((pos number.now) ∷ []) }
{
    add_number(lines, *number as i128);
}
