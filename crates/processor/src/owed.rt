// A broadcast that is owed: the item, the value, the own number and the links so far, of which the first `count` are taken.
// It is neither copied nor let go: `relay` or `forgo` spends it.
ghost use Rattle.std.specs.Prelude.{◌≡◌, [], ◌∷◌};

use frames::Link;

// Plain fields with their count, and no array: a token of numbers, by the rules of the kit.
pub struct Owed {
    pub(crate) item: u8,
    pub(crate) value: u64,
    pub(crate) own: u8,
    pub(crate) count: u8,
    pub(crate) first: Link,
    pub(crate) second: Link,
    pub(crate) third: Link,
    pub(crate) fourth: Link,
    pub(crate) fifth: Link,
    pub(crate) sixth: Link,
}

impl Owed {
    // The links, of which the first `count` are taken.
    pub(crate) fn links(&self) -> [Link; 6]
        ensures { result ≡ self.now.first ∷ self.now.second ∷ self.now.third ∷ self.now.fourth ∷ self.now.fifth ∷ self.now.sixth ∷ [] }
    {
        [
            self.first,
            self.second,
            self.third,
            self.fourth,
            self.fifth,
            self.sixth,
        ]
    }
}
