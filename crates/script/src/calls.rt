// The lines of a started run.
ghost use Rattle.std.specs.Prelude.{◌≡◌, ℕ, if◌then◌else◌};
ghost use Rattle.std.specs.Option.{option_map};
ghost use Rattle.bench.specs.Model.{model_of};
ghost use Rattle.refusals.specs.Rows.{is_drop};
ghost use Rattle.lines.specs.Views.{viewed};
ghost use Rattle.script.specs.Calls.{answer_or, answered, called, values};

use crate::answer::Answer;
use bench::Bench;
use kinds::Kind;
use lines::Line;
use refusals::Refusal;
use seals::Scheme;

// A frame that is received may be dropped.
fn dropped(refusal: Refusal) -> Result<Answer, Refusal>
    ensures { answer_or result ≡ (if is_drop refusal then Answer.Dropped refusal else Answer.Refused refusal) }
{
    if refusal.is_drop() {
        Ok(Answer::Dropped(refusal))
    } else {
        Err(refusal)
    }
}

// The call of a line that is read, which a started run may have.
fn granted<S: Scheme, K: Kind>(bench: &mut Bench<S, K>, line: Line) -> Result<Answer, Refusal>
    ensures { (z : ℕ) × ((answer_or result, model_of S.Scheme.meaning bench.new) ≡ called (values K.Kind.admitted K.Kind.same) z (viewed line) (model_of S.Scheme.meaning bench.old)) }
{
    match line {
        Line::Bench { .. } | Line::Item { .. } | Line::Start { .. } => Err(Refusal::Line),
        Line::Set { processor, offset } => bench.set(processor, offset).map(|()| Answer::Done),
        Line::Turn { processor } => bench.turn(processor).map(|()| Answer::Done),
        Line::Advance { ticks } => bench.advance(u64::from(ticks)).map(Answer::Number),
        Line::Seal { processor, text } => bench
            .seal(processor, text.as_slice())
            .map(Answer::Number),
        Line::Open {
            processor,
            item,
            value,
        } => bench.open(processor, item, value).map(Answer::Number),
        Line::Inject { from, to, bytes } => bench
            .inject(from, to, bytes.as_slice())
            .map(Answer::Number)
            .or_else(dropped),
        Line::Deliver { flight, processor } => bench
            .deliver(flight, processor)
            .map(Answer::Number)
            .or_else(dropped),
        Line::Decide { processor, item } => bench.decide(processor, item).map(Answer::Decided),
    }
}

// Makes the call of a line, None where it is unreadable.
pub fn call<S: Scheme, K: Kind>(bench: &mut Bench<S, K>, line: Option<Line>) -> Answer
    ensures { (z : ℕ) × ((result, model_of S.Scheme.meaning bench.new) ≡ answered (values K.Kind.admitted K.Kind.same) z (option_map viewed line) (model_of S.Scheme.meaning bench.old)) }
{
    match line {
        Some(line) => granted(bench, line).unwrap_or_else(Answer::Refused),
        None => Answer::Refused(Refusal::Line),
    }
}
