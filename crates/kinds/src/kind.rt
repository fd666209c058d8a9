// What a kind of value is.
ghost use Rattle.std.specs.Prelude.{ℕ, ◌≡◌, Bool, true};

// Both answers depend on the codes alone. Sameness is an equivalence among admitted codes, and never holds with another code.
pub trait Kind: Copy {
    ghost admitted: { ℕ → Bool };

    ghost same: { ℕ → ℕ → Bool };

    fn admits(&self, code: u64) -> bool
        ensures { result ≡ admitted code };

    fn are_same(&self, a: u64, b: u64) -> bool
        ensures { result ≡ same a b };

    ghost reflexive: { (a : ℕ) → admitted a ≡ true → same a a ≡ true };

    ghost symmetric: { (a b : ℕ) → same a b ≡ true → same b a ≡ true };

    ghost transitive: { (a b c : ℕ) → same a b ≡ true → same b c ≡ true → same a c ≡ true };

    ghost strict: { (a b : ℕ) → same a b ≡ true → admitted a ≡ true };
}
