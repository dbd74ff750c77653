//! Laws of the definitions of this crate, each the contract of a function with an empty body.

ghost use Rattle.std.specs.Prelude.{◌≡◌, Bool};
ghost use Rattle.ct_sense.specs.declared.sense.Sense.{Sense};
ghost use Rattle.ct_sense.specs.Forms.{IsSense, bytes_of_sense};

/// Bytes are one form of one value, so that reading is the inverse of writing.
pub fn one_value()
    ensures { (a b : Sense) (f g : Bool) → IsSense a → IsSense b →
        bytes_of_sense a f ≡ bytes_of_sense b g → (a ≡ b) × (f ≡ g) }
{}
