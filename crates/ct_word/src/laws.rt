//! Laws of the definitions of this crate, each the contract of a function with an empty body.

ghost use Rattle.std.specs.Prelude.{◌≡◌, ◌^◌, ◌<◌, ◌↔◌, ℕ, List, Some, decimal};
ghost use Rattle.ct_word.specs.Decimals.{decimal_of};

/// Each number has one numeral, the one that is printed.
pub fn one_numeral()
    ensures { (word : List ℕ) (n : ℕ) → n < 2 ^ 64 → (decimal_of word ≡ Some n) ↔ (word ≡ decimal n) }
{}
