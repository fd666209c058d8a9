// Reads a line by its form, which its first word names.
ghost use Rattle.std.specs.Prelude.{◌≡◌, IfOk};
ghost use Rattle.std.specs.Option.{option_map, option_transpose};
ghost use Rattle.lines.specs.Grammar.{advance_form, bench_form, decide_form, deliver_form, inject_form, item_form, line_form, open_form, read_line, seal_form, set_form, start_form, turn_form};
ghost use Rattle.lines.specs.Left.{ahead};
ghost use Rattle.lines.specs.Views.{viewed};

use crate::line::Line;
use crate::words::Words;
use std::alloc::{AllocError, Global};

// Reads a line's bytes, without its newline. None where the line is unreadable: another first word,
// a word too few or too many, or a word of another form.
#[tactic(auto, unfolding(crate::specs::Grammar::read_line))]
pub fn read(heap: Global, line: &[u8]) -> Result<Option<Line>, AllocError>
    ensures { IfOk result (λ o. option_map viewed o ≡ read_line line.now) }
{
    read_words(heap, Words::new(line)).transpose()
}

fn read_words(heap: Global, mut words: Words<'_>) -> Option<Result<Line, AllocError>>
    ensures { IfOk (option_transpose result) (λ o. option_map viewed o ≡ line_form (ahead words.entry)) }
{
    match words.text()? {
        "bench" => bench(words).map(Ok),
        "item" => item(words).map(Ok),
        "start" => start(words).map(Ok),
        "set" => set(words).map(Ok),
        "turn" => turn(words).map(Ok),
        "advance" => advance(words).map(Ok),
        "seal" => seal(heap, words),
        "open" => open(words).map(Ok),
        "inject" => inject(heap, words),
        "deliver" => deliver(words).map(Ok),
        "decide" => decide(words).map(Ok),
        _ => None,
    }
}

// The forms, each with its words beside the fields that they fill. As one function over the line as a closure, its clause
// would speak of the closure and no longer of a form.
fn bench(mut words: Words<'_>) -> Option<Line>
    ensures { option_map viewed result ≡ bench_form (ahead words.entry) }
{
    let [n, f, d, e] = words.numbers::<4>()?;
    words.end()?;
    Some(Line::Bench { n, f, d, e })
}

fn item(mut words: Words<'_>) -> Option<Line>
    ensures { option_map viewed result ≡ item_form (ahead words.entry) }
{
    let [sender, reading] = words.numbers::<2>()?;
    words.end()?;
    Some(Line::Item { sender, reading })
}

fn start(mut words: Words<'_>) -> Option<Line>
    ensures { option_map viewed result ≡ start_form (ahead words.entry) }
{
    let kind = words.parse()?;
    let scheme = words.parse()?;
    words.end()?;
    Some(Line::Start { kind, scheme })
}

fn set(mut words: Words<'_>) -> Option<Line>
    ensures { option_map viewed result ≡ set_form (ahead words.entry) }
{
    let [processor, offset] = words.numbers::<2>()?;
    words.end()?;
    Some(Line::Set { processor, offset })
}

fn turn(mut words: Words<'_>) -> Option<Line>
    ensures { option_map viewed result ≡ turn_form (ahead words.entry) }
{
    let processor = words.number()?;
    words.end()?;
    Some(Line::Turn { processor })
}

fn advance(mut words: Words<'_>) -> Option<Line>
    ensures { option_map viewed result ≡ advance_form (ahead words.entry) }
{
    let ticks = words.number()?;
    words.end()?;
    Some(Line::Advance { ticks })
}

fn seal(heap: Global, mut words: Words<'_>) -> Option<Result<Line, AllocError>>
    ensures { IfOk (option_transpose result) (λ o. option_map viewed o ≡ seal_form (ahead words.entry)) }
{
    let processor = words.number()?;
    // Want of memory goes before a word too many.
    let text = match words.byte_string(heap)? {
        Ok(text) => text,
        Err(error) => return Some(Err(error)),
    };
    words.end()?;
    Some(Ok(Line::Seal { processor, text }))
}

fn open(mut words: Words<'_>) -> Option<Line>
    ensures { option_map viewed result ≡ open_form (ahead words.entry) }
{
    let [processor, item] = words.numbers::<2>()?;
    let value = words.value()?;
    words.end()?;
    Some(Line::Open {
        processor,
        item,
        value,
    })
}

fn inject(heap: Global, mut words: Words<'_>) -> Option<Result<Line, AllocError>>
    ensures { IfOk (option_transpose result) (λ o. option_map viewed o ≡ inject_form (ahead words.entry)) }
{
    let [from, to] = words.numbers::<2>()?;
    // Want of memory goes before a word too many.
    let bytes = match words.byte_string(heap)? {
        Ok(bytes) => bytes,
        Err(error) => return Some(Err(error)),
    };
    words.end()?;
    Some(Ok(Line::Inject { from, to, bytes }))
}

fn deliver(mut words: Words<'_>) -> Option<Line>
    ensures { option_map viewed result ≡ deliver_form (ahead words.entry) }
{
    let [flight, processor] = words.numbers::<2>()?;
    words.end()?;
    Some(Line::Deliver { flight, processor })
}

fn decide(mut words: Words<'_>) -> Option<Line>
    ensures { option_map viewed result ≡ decide_form (ahead words.entry) }
{
    let [processor, item] = words.numbers::<2>()?;
    words.end()?;
    Some(Line::Decide { processor, item })
}
