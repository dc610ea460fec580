//! What is kept, piece by piece.
ghost use Rattle.std.specs.Prelude.{◌≡◌, ◌≤◌, ◌<◌, ◌++◌, ◌⊎◌, List, Option, length, ℕ, OnErr, OnOk};
ghost use Rattle.outside_io.specs.Causes.{CountsFaults};
ghost use Rattle.kept_port.specs.Logs.{Finds, FindsOne};

use outside_io::Failed;

/// A text that grows at its end, kept where a crash may tear it. What is sure outlives every crash from then on.
pub trait Log {
    /// The text that is sure.
    ghost sure: { Self → List ℕ };

    /// The bytes that a crash at this moment may leave.
    ghost image: { Self → List ℕ → Type 0 };

    /// A clock, which doesn't fall.
    ghost clock: { Self → ℕ };

    /// The bytes that a crash at some moment from that time on may have left, inside a call or between two.
    ghost since: { Self → ℕ → List ℕ → Type 0 };

    /// The text that is found in bytes. There is none in those that aren't a log's.
    ghost text_in: { List ℕ → Option (List ℕ) };

    /// How often a call has failed.
    ghost faults: { Self → ℕ };

    /// Puts a piece behind the text, for sure. A crash meanwhile, or after a fault, leaves the text, or the text with the whole piece,
    /// where no call had failed before. After a call that failed each call fails.
    fn append(&mut self, piece: &[u8]) -> Result<(), Failed>
        requires some { 0 < length piece.now }
        requires small { length piece.now ≤ 16384 }
        ensures kept { OnOk result (sure self.new ≡ sure self.old ++ piece.now) }
        ensures same { OnErr result (sure self.new ≡ sure self.old) }
        ensures whole { faults self.old ≡ 0 → (c : List ℕ) → since self.new (clock self.old) c
            → FindsOne text_in (sure self.old) (sure self.old ++ piece.now) c }
        ensures later { clock self.old ≤ clock self.new }
        ensures time { (t : ℕ) (c : List ℕ) → t ≤ clock self.old → since self.new t c
            → since self.old t c ⊎ since self.new (clock self.old) c }
        ensures count { CountsFaults (faults self.old) (faults self.new) result };

    /// Whatever a crash leaves, what is sure is found in it.
    ghost finds_sure: { (log : Self) (c : List ℕ) → image log c → Finds text_in (sure log) c };

    /// Since this moment there is no other.
    ghost only_now: { (log : Self) (c : List ℕ) → since log (clock log) c → image log c };

    /// This moment is one of those since an earlier one.
    ghost counts_now: { (log : Self) (t : ℕ) (c : List ℕ) → t ≤ clock log → image log c
        → since log t c };
}
