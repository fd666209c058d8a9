// The tests of a frame's links: rows 35, 36 and 37, each over all links.
ghost use Rattle.std.specs.Prelude.{◌≡◌, ◌+◌, ◌<◌, ◌==◌, ◌≤◌, not, length, find, position, IfSome};
ghost use Rattle.std.specs.List.{range_with_len};
ghost use Rattle.frames.specs.Texts.{numbers_of};
ghost use Rattle.frames.specs.Views.{fields_of};
ghost use Rattle.plans.specs.Setups.{setup_of};
ghost use Rattle.processor.specs.Chains.{is_repeat, is_wrong, linked, is_sealed, sealed, chained};

use frames::{Frame, LONGEST_TEXT};
use plans::Plan;
use refusals::Refusal;
use seals::Scheme;

// Whether the number at place k stands at an earlier place.
fn is_repeat(processors: &[u8], k: usize) -> bool
    requires { k < length processors.now }
    ensures { result ≡ is_repeat processors.now k }
{
    processors[..k].contains(&processors[k])
}

fn is_wrong(n: u8, processors: &[u8], k: usize) -> bool
    requires { k < length processors.now }
    ensures { result ≡ is_wrong n processors.now k }
{
    !(1..=n).contains(&processors[k]) || is_repeat(processors, k)
}

// The first place of a number that is not 1 to n, or is a repeat.
fn first_wrong(n: u8, processors: &[u8]) -> Option<usize>
    ensures within { IfSome result (λ k. k < length processors.now) }
    ensures is { result ≡ find (is_wrong n processors.now) (range_with_len 0 (length processors.now)) }
{
    (0..processors.len()).find(|k| is_wrong(n, processors, *k))
}

// The first place of the own number.
fn first_own(own: u8, processors: &[u8]) -> Option<usize>
    ensures within { IfSome result (λ k. k < length processors.now) }
    ensures is { result ≡ position (λ p. p == own) processors.now }
{
    processors.iter().position(|p| *p == own)
}

// Rows 35 and 36.
#[tactic(auto, using(refusals::proofs::Firsts::first_find))]
fn are_linked(n: u8, own: u8, processors: &[u8]) -> Result<(), Refusal>
    requires { length processors.now ≤ 8 }
    ensures { result ≡ linked n own processors.now }
{
    if let Some(k) = first_wrong(n, processors) {
        return Err(Refusal::Link(k as u8 + 1));
    }
    if let Some(k) = first_own(own, processors) {
        return Err(Refusal::Own(k as u8 + 1));
    }
    Ok(())
}

// Rows 35 and 36 of a frame at processor `own`.
fn numbers_stand(n: u8, own: u8, frame: &Frame<'_>) -> Result<(), Refusal>
    ensures { result ≡ linked n own (numbers_of (fields_of frame.now).links) }
{
    let numbers = frame.processors();
    are_linked(n, own, &numbers[..frame.count() as usize])
}

// Whether link k, counted from 1, has the seal of its processor on its text.
fn is_sealed<S: Scheme>(scheme: &S, frame: &Frame<'_>, k: u8) -> bool
    ensures { result ≡ is_sealed (S.Scheme.meaning scheme.now).triples (fields_of frame.now) k }
{
    let Some(link) = frame.link(k) else {
        return false;
    };
    // The longest text's room: no heap here.
    let mut text = [0; LONGEST_TEXT];
    let Some(size) = frame.text(k, &mut text) else {
        return false;
    };
    scheme.check(link.processor, &text[0..size], link.seal)
}

// The first place of a link that is not sealed.
fn first_unsealed<S: Scheme>(scheme: &S, frame: &Frame<'_>) -> Option<u8>
    ensures is { result ≡ find (λ k. not (is_sealed (S.Scheme.meaning scheme.now).triples (fields_of frame.now) (k + 1))) (range_with_len 0 (length (fields_of frame.now).links)) }
    ensures within { IfSome result (λ k. k < 8) }
{
    (0..frame.count()).find(|k| !is_sealed(scheme, frame, *k + 1))
}

// Row 37.
#[tactic(auto, using(refusals::proofs::Firsts::first_find))]
fn are_sealed<S: Scheme>(scheme: &S, frame: &Frame<'_>) -> Result<(), Refusal>
    ensures { result ≡ sealed (S.Scheme.meaning scheme.now).triples (fields_of frame.now) }
{
    match first_unsealed(scheme, frame) {
        Some(k) => Err(Refusal::Forged(k + 1)),
        None => Ok(()),
    }
}

// Rows 35, 36 and 37 of a frame at processor `own`.
pub(crate) fn chain_stands<S: Scheme>(
    plan: &Plan,
    scheme: &S,
    own: u8,
    frame: &Frame<'_>,
) -> Result<(), Refusal>
    ensures { result ≡ chained (setup_of plan.now).n (S.Scheme.meaning scheme.now).triples own (fields_of frame.now) }
{
    numbers_stand(plan.n, own, frame)?;
    are_sealed(scheme, frame)
}
