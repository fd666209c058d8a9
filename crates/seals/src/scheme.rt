// A seal scheme, by the triples that it has issued.
ghost use Rattle.std.specs.Prelude.{◌≡◌};
ghost use Rattle.seals.specs.Meanings.{Meaning, Tidy, answered, signed, given, holds, left_of, count_for};

use refusals::Refusal;

// A signer and a text stand apart, as every caller has them: a struct of both would be made for one call.
pub trait Scheme {
    ghost meaning: { Self → Meaning };

    // Seals a text for a signer. What was sealed before has its seal answered again.
    // The number of a new seal is the scheme's choice.
    fn sign(&mut self, signer: u8, text: &[u8]) -> Result<u32, Refusal>
        ensures answer { result ≡ answered (meaning self.old) signer text.now (given result) }
        ensures after { meaning self.new ≡ signed (meaning self.old) signer text.now (given result) };

    // Whether the scheme issued this seal to the signer for the text.
    fn check(&self, signer: u8, text: &[u8], seal: u32) -> bool
        ensures { result ≡ holds (meaning self.now).triples signer text.now seal };

    // How many new texts the signer may still have sealed.
    fn left(&self, signer: u8) -> usize
        ensures { result ≡ left_of (meaning self.now) signer };

    // How many texts the signer has had sealed.
    fn count(&self, signer: u8) -> usize
        ensures { result ≡ count_for signer (meaning self.now).triples };

    // The length of the longest text that is sealed.
    fn longest(&self) -> usize
        ensures { result ≡ (meaning self.now).longest };

    ghost tidy: { (s : Self) → Tidy (meaning s) };
}
