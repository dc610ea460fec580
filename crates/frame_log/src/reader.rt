//! Bytes that are read one after the other.
ghost use Rattle.std.specs.Prelude.{◌≡◌, ℕ, ◌<◌, List, length, Option, IfOk};
ghost use Rattle.outside_io.specs.Causes.{CountsFaults};
ghost use Rattle.frame_log.specs.Reads.{Takes};

use outside_io::Failed;

/// Bytes that are read one after the other, so many at a time.
pub trait Reader {
    /// The bytes that are left, where that is told.
    ghost left: { Self → Option (List ℕ) };

    /// How often a read has failed.
    ghost faults: { Self → ℕ };

    /// That nothing else became of it from then to now.
    ghost looks: { Self → Self → Type 0 };

    /// The next bytes, as many as the buffer holds, and whether there were so many. Where there weren't, what came is lost.
    fn take(&mut self, buf: &mut [u8]) -> Result<bool, Failed>
        requires { 0 < length buf.old }
        ensures taken { IfOk result (λ whole. Takes (left self.old) (left self.new) buf.new
            whole) }
        ensures looks { looks self.old self.new }
        ensures count { CountsFaults (faults self.old) (faults self.new) result };

    /// Nothing else became of it in two steps.
    ghost looks_on: { (a b c : Self) → looks a b → looks b c → looks a c };
}
