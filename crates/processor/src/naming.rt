// Whom an owed broadcast names: it goes to all others.
ghost use Rattle.std.specs.Prelude.{◌≡◌, ◌==◌};
ghost use Rattle.std.specs.List.{list_any};
ghost use Rattle.processor.specs.Broadcasts.{links_in};
ghost use Rattle.processor.specs.Naming.{is_named};

use crate::owed::Owed;

impl Owed {
    // The item that the broadcast is of.
    pub fn item(&self) -> u8
        ensures { result ≡ self.now.item }
    {
        self.item
    }

    // The processor that owes it.
    pub fn own(&self) -> u8
        ensures { result ≡ self.now.own }
    {
        self.own
    }

    // Whether p is the processor of a link so far.
    fn has_link_of(&self, p: u8) -> bool
        ensures { result ≡ list_any (λ link. link.processor == p) (links_in self.now) }
    {
        self.links()
            .iter()
            .take(usize::from(self.count))
            .any(|link| link.processor == p)
    }

    // Whether p is named in the broadcast: as its author, or in a link so far.
    pub fn names(&self, p: u8) -> bool
        ensures { result ≡ is_named self.now p }
    {
        self.own == p || self.has_link_of(p)
    }
}
