//! A sink that compares what is written with a text, and hands on what goes beyond it.
ghost use Rattle.std.specs.Prelude.{◌≡◌, ℕ, ◌+◌, ◌<◌, ◌≤◌, ◌∷◌, ◌++◌, [], false, true, nat_eq, length, take, is_err, IfOk, IsErr, OnErr, OnOk};
ghost use Rattle.std.specs.Io.KnownBytes.{Appends};
ghost use Rattle.std.specs.List.{starts_with};
ghost use Rattle.live_day.specs.Comparing.{Appends-prop, beyond, common, differ, differing_line, lines_in, next_place};
ghost use Rattle.outside_io.specs.GhostTexts.{bytes_of};

use outside_io::{Failed, GhostText, Sink};
use std::snapshot::Snapshot;

/// What clauses know of a sink that compares: the sink below, as it was at first, and all that was written.
#[derive(Drop)]
pub(crate) struct Past<S> {
    first: Snapshot<S>,
    text: GhostText,
}

impl<S> Past<S> {
    /// Nothing is written yet to what will be in front of this sink.
    pub(crate) fn before(below: &S) -> Past<S>
        ensures first { result.first.value ≡ below.now }
        ensures none { bytes_of result.text ≡ [] }
    {
        Past {
            first: Snapshot::of(below),
            text: GhostText::Nothing,
        }
    }
}

/// A sink in front of another. It compares what is written with a text that it is given, and hands on what goes beyond it. From a byte
/// on that differs, nothing is handed on.
#[derive(Drop)]
pub(crate) struct Comparing<'a, S: Sink> {
    below: &'a mut S,
    wanted: &'a [u8],
    // So many bytes were as wanted.
    at: usize,
    // A byte was not.
    differs: bool,
    // The last write failed.
    failed: bool,
    past: &'a mut Past<S>,
    ghost at_is: { at ≡ common wanted.now (bytes_of past.now.text) },
    ghost differs_is: { differs ≡ differ wanted.now (bytes_of past.now.text) },
    ghost handed: { Appends (S.state past.now.first.value).written (S.state below.now).written
        (beyond wanted.now (bytes_of past.now.text)) } by { Appends-prop (S.state past.now.first.value).written (S.state below.now).written
            (beyond wanted.now (bytes_of past.now.text)) },
}

// Where the text stands after one more byte.
fn next_place(wanted: &[u8], at: usize, differs: bool, byte: u8) -> (usize, bool)
    requires { differs ≡ false → at < length wanted.now }
    ensures { (result.0, result.1) ≡ next_place wanted.now at differs byte }
{
    if differs {
        return (at, true);
    }
    if wanted[at] == byte {
        return (at + 1, false);
    }
    (at, true)
}

// How many lines end in a text.
fn lines(text: &[u8]) -> usize
    ensures count { result ≡ lines_in text.now }
    ensures most { result ≤ length text.now }
{
    text.iter().filter(|b| **b == 10).count()
}

impl<'a, S: Sink> Comparing<'a, S> {
    /// Nothing is written yet.
    pub(crate) fn over(
        below: &'a mut S,
        wanted: &'a [u8],
        past: &'a mut Past<S>,
    ) -> Comparing<'a, S>
        requires first { past.old.first.value ≡ below.old }
        requires none { bytes_of past.old.text ≡ [] }
        ensures same_reference { result.below.ghost_name ≡ below.entry.ghost_name }
        ensures same { result.below.now ≡ below.old }
        ensures first { result.past.now.first.value ≡ below.old }
        ensures wanted { result.wanted.now ≡ wanted.now }
        ensures none { bytes_of result.past.now.text ≡ [] }
    {
        Comparing {
            below,
            wanted,
            at: 0,
            differs: false,
            failed: false,
            past,
        }
    }

    // Whether what is written goes beyond the text.
    fn is_beyond(&self) -> bool
        ensures { result ≡ starts_with nat_eq (bytes_of self.now.past.now.text) self.now.wanted.now }
    {
        if self.differs {
            return false;
        }
        self.at == self.wanted.len()
    }

    /// The line in which the text that it compares with isn't what was written, where that doesn't begin with it.
    pub(crate) fn other_line(&self) -> Option<usize>
        ensures { result ≡ differing_line self.now.wanted.now (bytes_of self.now.past.now.text) }
    {
        if self.is_beyond() {
            return None;
        }
        Some(lines(&self.wanted[..self.at]) + 1)
    }

    // Compares one byte more.
    fn compare(&mut self, byte: u8)
        requires { starts_with nat_eq (bytes_of self.old.past.now.text) self.old.wanted.now ≡ false }
        ensures same_reference { self.new.below.ghost_name ≡ self.old.below.ghost_name }
        ensures same { self.new.below.now ≡ self.old.below.now }
        ensures first { self.new.past.now.first.value ≡ self.old.past.now.first.value }
        ensures wanted { self.new.wanted.now ≡ self.old.wanted.now }
        ensures more { bytes_of self.new.past.now.text ≡ bytes_of self.old.past.now.text ++ byte ∷ [] }
        ensures good { self.new.failed ≡ false }
    {
        let (at, differs) = next_place(self.wanted, self.at, self.differs, byte);
        self.past.text.add(byte);
        self.at = at;
        self.differs = differs;
        self.failed = false;
    }
}

impl<S: Sink> Sink for Comparing<'_, S> {
    ghost use Rattle.live_day.specs.ComparingState.{comparing_state};

    ghost state = { comparing_state S.Sink };

    fn write(&mut self, piece: &[u8]) -> Result<usize, Failed> {
        if !self.is_beyond() {
            self.compare(piece[0]);
            return Ok(1);
        }
        match self.below.write(piece) {
            Ok(count) => {
                self.past.text.add_all(&piece[..count]);
                self.failed = false;
                Ok(count)
            }
            Err(_) => {
                self.failed = true;
                Err(Failed)
            }
        }
    }
}
