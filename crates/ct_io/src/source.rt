ghost use Rattle.std.specs.Prelude.{◌≡◌, ℕ, List, Option, ◌<◌, ◌≤◌, length, IfOk};
ghost use Rattle.std.specs.Io.KnownBytes.{ReadConsumes};
ghost use Rattle.ct_word.specs.Causes.{HasCause, Rose, end_of_u64};

use ct_word::Failed;

/// What bytes are read from, in pieces.
pub trait Source {
    // The bytes that are still to come, where they are told.
    ghost left: { Self → Option (List ℕ) };

    // How many calls were made, and how many of them failed. Both stand still at the end of u64.
    ghost reads: { Self → ℕ };

    ghost faults: { Self → ℕ };

    /// Puts the next bytes at the front of `into`, and says how many: 0 only at the end.
    /// A call that fails gives no byte and raises the count of faults, and no other does.
    fn read(&mut self, into: &mut [u8]) -> Result<usize, Failed>
        requires { 0 < length into.old }
        ensures bound { IfOk result (λ n. n ≤ length into.new) }
        ensures bytes { ReadConsumes (left self.old) (left self.new) result into.new }
        ensures counted { Rose end_of_u64 (reads self.old) (reads self.new) }
        ensures cause { HasCause end_of_u64 (faults self.old) (faults self.new) result };
}
