// Reads the words of a line one by one.
ghost use Rattle.std.specs.Prelude.{◌≡◌, is_some, true, IfOk, Some, vec_items, MatchOption};
ghost use Rattle.std.specs.Option.{option_map, option_transpose};
ghost use Rattle.lines.specs.Cut.{head, is_nil, pieces, tail, tails};
ghost use Rattle.lines.specs.Digits.{and_then, byte_string, number_of, numbers_of, value_of};
ghost use Rattle.lines.specs.Left.{NoText, Parsed, ahead};

use crate::digits;
use crate::pieces::Pieces;
use std::alloc::{AllocError, Global};
use std::str::{FromStr, from_utf8};

// The words that are still to come. Each call takes one, also where it is of another form. No model: they are the pieces.
#[derive(Drop)]
pub struct Words<'a> {
    parts: Pieces<'a>,
}

impl<'a> Words<'a> {
    // One space separates words.
    pub fn new(line: &'a [u8]) -> Words<'a>
        ensures { ahead result ≡ pieces 32 line.now }
    {
        Words {
            parts: Pieces::new(line, b' '),
        }
    }

    pub fn word(&mut self) -> Option<&'a [u8]>
        ensures value { option_map (λ x. x.now) result ≡ head (ahead self.old) }
        ensures after { ahead self.new ≡ tail (ahead self.old) }
    {
        self.parts.next()
    }

    // The next word as text, None where its bytes are no text.
    pub fn text(&mut self) -> Option<&'a str>
        ensures value { MatchOption result (NoText (ahead self.old)) (λ s. Some s.now ≡ head (ahead self.old)) }
        ensures after { ahead self.new ≡ tail (ahead self.old) }
    {
        from_utf8(self.word()?).ok()
    }

    pub fn number(&mut self) -> Option<u32>
        ensures value { result ≡ and_then (head (ahead self.old)) number_of }
        ensures after { ahead self.new ≡ tail (ahead self.old) }
    {
        digits::number(self.word()?)
    }

    // The next N words as numbers.
    pub fn numbers<const N: usize>(&mut self) -> Option<[u32; N]>
        ensures value { result ≡ numbers_of N (ahead self.old) }
        ensures after { is_some result ≡ true → ahead self.new ≡ tails N (ahead self.old) }
    {
        let mut numbers = [0; N];
        for n in numbers.iter_mut() {
            *n = self.number()?;
        }
        Some(numbers)
    }

    pub fn value(&mut self) -> Option<u64>
        ensures value { result ≡ and_then (head (ahead self.old)) value_of }
        ensures after { ahead self.new ≡ tail (ahead self.old) }
    {
        digits::value(self.word()?)
    }

    pub fn byte_string(&mut self, heap: Global) -> Option<Result<Vec<u8>, AllocError>>
        ensures value { IfOk (option_transpose result) (λ o. option_map vec_items o ≡ and_then (head (ahead self.old)) byte_string) }
        ensures after { ahead self.new ≡ tail (ahead self.old) }
    {
        digits::byte_string(heap, self.word()?).transpose()
    }

    // The next word as what its text names.
    pub fn parse<T: FromStr>(&mut self) -> Option<T>
    where
        T::Err: Drop,
        ensures value { Parsed T.from_str_gives (ahead self.old) result }
        ensures after { ahead self.new ≡ tail (ahead self.old) }
    {
        self.text()?.parse().ok()
    }

    // Some where no word is left. No bool: a form reads it with `?`.
    pub fn end(&self) -> Option<()>
        ensures { is_some result ≡ is_nil (ahead self.now) }
    {
        self.parts.is_over().then_some(())
    }
}
