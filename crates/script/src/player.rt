// Plays a script.
ghost use Rattle.std.specs.Prelude.{◌≡◌, ℕ, ◌+◌, ◌++◌, ◌<◌, min, [], IfOk, string_bytes, slice_index, slice_index_or};
ghost use Rattle.std.specs.Option.{option_map};
ghost use Rattle.seals.specs.Books.{book_of, fresh};
ghost use Rattle.bench.specs.Making.{made as making};
ghost use Rattle.bench.specs.Model.{model_of};
ghost use Rattle.lines.specs.Left.{left};
ghost use Rattle.script.specs.Transcript.{Taken, Prints, unended, out_of_order, report, fresh_scheme, values_of, Runs, Started, Opens, Transcript};
ghost use Rattle.script.specs.Calls.{values};
ghost use Rattle.script.specs.Settings.{unset};

use crate::answer::Answer;
use crate::calls::call;
use crate::printing::ItemLine;
use crate::setting::{Heard, Setting};
use bench::Bench;
use kinds::{Kind, Setpoint, Step};
use lines::{KindWord, Pieces, SchemeWord};
use plans::{Appointment, Sizes};
use seals::{Deck, Ledger, Scheme};
use std::alloc::{AllocError, Global};
use std::array;

// The most bytes that a script has.
const LONGEST: usize = 16_384;

// Row 60, as `Answer::Refused` prints it.
const REFUSED: &str = "no 60\n";

// The answer to what stands after the last newline, and no Option where there is nothing: it is printed as it is.
fn unended(last: &[u8]) -> &'static str
    ensures { result.now ≡ unended last.now }
{
    match last {
        [] => "",
        _ => REFUSED,
    }
}

// The numbers 1 to 64.
fn one_to_64() -> [u32; 64]
    ensures { (k : ℕ) → k < 64 → slice_index result k ≡ k + 1 }
{
    array::from_fn(|k| k as u32 + 1)
}

// A deck of which each signer is dealt the seals 1 to 64.
fn deck() -> Deck
    ensures meaning { book_of result.book ≡ fresh (min 64 64) }
    ensures dealt { (q k : ℕ) → q < 8 → k < 64 → slice_index (slice_index_or result.numbering.hands q []) k ≡ k + 1 }
{
    let seals = one_to_64();
    Deck::new(64, &[seals; 8])
}

// The lines that are left, and what is printed so far.
#[derive(Drop)]
struct Player<'a> {
    heap: Global,
    lines: Pieces<'a>,
    out: String,
}

impl<'a> Player<'a> {
    // The next line, None after the last newline: what stands there is answered.
    fn next_line(&mut self) -> Result<Option<&'a [u8]>, AllocError>
        ensures { IfOk result (λ line. Taken (option_map (λ l. l.now) line) (left self.old.lines) (left self.new.lines) (string_bytes self.old.out) (string_bytes self.new.out)) }
    {
        let Some(piece) = self.lines.next() else {
            return Ok(None);
        };
        if !self.lines.is_over() {
            return Ok(Some(piece));
        }
        self.out.push_str(unended(piece))?;
        Ok(None)
    }

    // A refusal for every line that is left.
    fn refuse_rest(&mut self) -> Result<(), AllocError>
        ensures { IfOk result (λ _. string_bytes self.new.out ≡ string_bytes self.old.out ++ out_of_order (left self.old.lines)) }
    {
        while self.next_line()?.is_some() {
            self.out.push_str(REFUSED)?;
        }
        Ok(())
    }

    // The report, a line for each item of the agenda.
    fn report<S: Scheme, K: Kind>(&mut self, bench: &Bench<S, K>) -> Result<(), AllocError>
        ensures { IfOk result (λ _. string_bytes self.new.out ≡ string_bytes self.old.out ++ report (model_of S.Scheme.meaning bench.now)) }
    {
        for item in 1..=8 {
            if let Ok(report) = bench.report(item) {
                let line = ItemLine {
                    item,
                    report: &report,
                };
                write!(self.out, "{line}")?;
            }
        }
        Ok(())
    }

    // The rest of a started run.
    fn run<S: Scheme + Drop, K: Kind + Drop>(
        &mut self,
        mut bench: Bench<S, K>,
    ) -> Result<(), AllocError>
        ensures { IfOk result (λ _. Prints (Runs (values K.Kind.admitted K.Kind.same) (model_of S.Scheme.meaning bench) (left self.old.lines)) (string_bytes self.old.out) (string_bytes self.new.out)) }
    {
        while let Some(line) = self.next_line()? {
            let answer = call(&mut bench, lines::read(self.heap, line)?);
            write!(self.out, "{answer}")?;
        }
        self.report(&bench)
    }

    // What `start` and the lines after it print.
    fn begin<S: Scheme + Drop, K: Kind + Drop>(
        &mut self,
        bench: Bench<S, K>,
    ) -> Result<(), AllocError>
        ensures { IfOk result (λ _. Prints (Started (values K.Kind.admitted K.Kind.same) (model_of S.Scheme.meaning bench) (left self.old.lines)) (string_bytes self.old.out) (string_bytes self.new.out)) }
    {
        match bench.refusal() {
            None => {
                write!(self.out, "{}", Answer::Done)?;
                self.run(bench)
            }
            Some(refusal) => {
                write!(self.out, "{}", Answer::Refused(refusal))?;
                self.refuse_rest()
            }
        }
    }

    // Starts a run of a kind. Each arm is another type from here on.
    fn start_with<S: Scheme + Drop>(
        &mut self,
        sizes: Sizes,
        agenda: &[Appointment],
        kind: KindWord,
        scheme: S,
    ) -> Result<(), AllocError>
        ensures { IfOk result (λ _. Prints (Started (values_of kind) (making sizes.n sizes.f sizes.d sizes.e agenda.now (S.Scheme.meaning scheme)) (left self.old.lines)) (string_bytes self.old.out) (string_bytes self.new.out)) }
    {
        match kind {
            KindWord::Setpoint => self.begin(Bench::new(sizes, agenda, scheme, Setpoint)),
            KindWord::Step => self.begin(Bench::new(sizes, agenda, scheme, Step)),
        }
    }

    // Starts a run with a fresh scheme. Each arm is another type from here on.
    fn start(
        &mut self,
        sizes: Sizes,
        agenda: &[Appointment],
        kind: KindWord,
        scheme: SchemeWord,
    ) -> Result<(), AllocError>
        ensures { IfOk result (λ _. Prints (Started (values_of kind) (making sizes.n sizes.f sizes.d sizes.e agenda.now (fresh_scheme scheme)) (left self.old.lines)) (string_bytes self.old.out) (string_bytes self.new.out)) }
    {
        match scheme {
            SchemeWord::Ledger => self.start_with(sizes, agenda, kind, Ledger::new()),
            SchemeWord::Deck => self.start_with(sizes, agenda, kind, deck()),
        }
    }

    // The lines up to the start, and those after it.
    fn open(&mut self) -> Result<(), AllocError>
        ensures { IfOk result (λ _. Prints (Opens unset (left self.old.lines)) (string_bytes self.old.out) (string_bytes self.new.out)) }
    {
        let mut setting = Setting::new(self.heap);
        while let Some(line) = self.next_line()? {
            match setting.hear(lines::read(self.heap, line)?)? {
                Heard::Kept => {}
                Heard::OutOfOrder => self.out.push_str(REFUSED)?,
                Heard::Start(sizes, kind, scheme) => {
                    return self.start(sizes, setting.agenda.as_slice(), kind, scheme);
                }
            }
        }
        Ok(())
    }
}

// What the script prints, or want of memory.
pub fn play(heap: Global, text: &[u8]) -> Result<String, AllocError>
    ensures { IfOk result (λ out. Transcript text.now (string_bytes out)) }
{
    if text.len() > LONGEST {
        return String::from_str(heap, REFUSED);
    }
    let mut player = Player {
        heap,
        lines: Pieces::new(text, b'\n'),
        out: String::new(heap),
    };
    player.open()?;
    Ok(player.out)
}
