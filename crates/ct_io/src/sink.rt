ghost use Rattle.std.specs.Prelude.{◌≡◌, ℕ, List, Option, ◌<◌, ◌≤◌, length, IfOk};
ghost use Rattle.std.specs.Io.KnownBytes.{WriteAppends};
ghost use Rattle.ct_word.specs.Causes.{HasCause, end_of_u64};

use ct_word::Failed;

/// What bytes are written to, in pieces.
pub trait Sink {
    // The bytes that it took so far, where they are told.
    ghost held: { Self → Option (List ℕ) };

    // How many calls failed, which stands still at the end of u64.
    ghost faults: { Self → ℕ };

    /// Takes bytes from the front of `piece`, and says how many: at least one.
    /// A call that fails takes no byte and raises the count of faults, and no other does.
    fn write(&mut self, piece: &[u8]) -> Result<usize, Failed>
        requires { 0 < length piece.now }
        ensures taken { IfOk result (λ n. (0 < n) × (n ≤ length piece.now)) }
        ensures bytes { WriteAppends (held self.old) (held self.new) result piece.now }
        ensures cause { HasCause end_of_u64 (faults self.old) (faults self.new) result };
}
