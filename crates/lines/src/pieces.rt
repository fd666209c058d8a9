// Cuts bytes at a separator: a text into lines, a line into words.
ghost use Rattle.std.specs.Prelude.{◌≡◌, ◌==◌, position};
ghost use Rattle.std.specs.Iterator.{YieldsFirstRef, item_count};
ghost use Rattle.lines.specs.Cut.{CutAt, is_nil, pieces};
ghost use Rattle.lines.specs.Left.{left};

// The pieces that are still to come. Bytes with k separators have k + 1 pieces. No model: as an iterator it says already
// which pieces are left.
#[derive(Drop)]
pub struct Pieces<'a> {
    // The bytes after the last separator that was met, None once the last piece was given.
    rest: Option<&'a [u8]>,
    separator: u8,
}

impl<'a> Pieces<'a> {
    pub fn new(bytes: &'a [u8], separator: u8) -> Pieces<'a>
        ensures { left result ≡ pieces separator bytes.now }
    {
        Pieces {
            rest: Some(bytes),
            separator,
        }
    }

    // Whether the last piece was given: no separator came after it.
    #[tactic(auto, using(crate::proofs::Cutting::pieces_some))]
    pub fn is_over(&self) -> bool
        ensures { result ≡ is_nil (left self.now) }
    {
        self.rest.is_none()
    }
}

impl<'a> Iterator for Pieces<'a> {
    type Item = &'a [u8];

    ghost next_gives = { YieldsFirstRef left };

    ghost remaining = { item_count left };

    fn next(&mut self) -> Option<&'a [u8]> {
        let bytes = self.rest?;
        match find(bytes, self.separator) {
            Some(i) => {
                self.rest = Some(&bytes[i + 1..]);
                Some(&bytes[..i])
            }
            None => self.rest.take(),
        }
    }
}

// The index of the first separator.
fn find(bytes: &[u8], separator: u8) -> Option<usize>
    ensures { CutAt separator bytes.now result }
{
    bytes.iter().position(|b| *b == separator)
}
