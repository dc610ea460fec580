//! What the definitions of this crate mean. Each law is the contract of a function that does nothing.
ghost use Rattle.std.specs.Prelude.{◌≡◌, ◌&&◌, ◌∷◌, ◌++◌, [], List, ℕ, true};
ghost use Rattle.csv.specs.Reading.{records};
ghost use Rattle.csv.specs.declared.parser.State.{State};
ghost use Rattle.record_rows.specs.Lines.{EndsInEnd, HasEndLine, line_of};
ghost use Rattle.record_rows.specs.Machine.{at_start, comes, is_line_end, is_open, is_read, open_rows, place_after, row_config, rows_from};
ghost use Rattle.record_rows.specs.declared.line.Line.TheVariants as lines;

/// The records of a text, as `csv` reads it, are those that come whole in it, and the one that is open at its end, if one is.
#[tactic(auto, using(crate::proofs::CsvRecords::records_come))]
pub fn records_come_whole()
    ensures { (text : List ℕ) → records row_config text
        ≡ rows_from at_start text ++ open_rows (place_after at_start text) }
{}

/// The records that come whole in a front of a text come first in the text, and nothing after the front changes them.
#[tactic(auto, using(crate::proofs::PlaceFacts::rows_append))]
pub fn rows_follow_the_text()
    ensures { (front rest : List ℕ) → rows_from at_start (front ++ rest)
        ≡ rows_from at_start front ++ rows_from (place_after at_start front) rest }
{}

/// A byte makes a record whole exactly where it is CR or LF, and the record has begun and isn't in quotes.
#[tactic(auto, using(crate::proofs::PlaceFacts::comes_with))]
pub fn a_record_ends_with_its_line()
    ensures { (s : State) (b : ℕ) → is_read s ≡ true → comes s b ≡ (is_line_end b && is_open s) }
{}

/// The line of an input is `Over` exactly where it has a line that is END and nothing else, with its line end; where it has none,
/// it is `HasEND` exactly where it ends in such a line without its end.
pub fn end_lines_are_found()
    ensures over { (input : List ℕ) → line_of input ≡ lines.Over → HasEndLine input }
    ensures found { (input : List ℕ) → HasEndLine input → line_of input ≡ lines.Over }
    ensures open { (input : List ℕ) → line_of input ≡ lines.HasEND → EndsInEnd input }
    ensures last { (input : List ℕ) → EndsInEnd input → ¬ (HasEndLine input) → line_of input ≡ lines.HasEND }
{}
