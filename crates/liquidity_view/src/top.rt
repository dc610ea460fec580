//! The top call: from the words and the streams to the status.
ghost use Rattle.std.specs.Prelude.{◌≡◌, []};
ghost use Rattle.machine.specs.Legal.{IsLegal};
ghost use Rattle.program_answers.specs.Answers.{done};
ghost use Rattle.program_answers.specs.Giving.{Says};
ghost use Rattle.liquidity_view.specs.Promises.{IsViewed, ViewPromises, viewed};
ghost use Rattle.liquidity_view.specs.Requests.{request_of, usage_text};
ghost use Rattle.liquidity_view.specs.Viewed.{view_text};
ghost use Rattle.liquidity_view.specs.Views.{StandsFor};

use crate::report::put_view;
use crate::view::LiquidityView;
use crate::words::{Request, request_of};
use cash_amounts::Words;
use commit_journal::Journal;
use journal_reading::{OverJournal, Telling};
use outside_io::{Sink, Source};
use program_answers::{serve, status_after};
use rule_book::Setting;
use std::alloc::Global;

// Writes the figures over a journal, with a view that stands for no lines.
fn view_with<S: Sink>(
    mut view: LiquidityView,
    setting: &Setting,
    journal: &Journal,
    request: &Request,
    output: &mut S,
) -> u8
    requires legal { IsLegal setting.now.day journal.now.history }
    requires first { StandsFor setting.now.day [] view }
    requires name { view.name ≡ request.now.name }
    ensures { Says (S.state output.old) (S.state output.new)
        (done (view_text setting.now.day request.now journal.now.history)) result }
{
    status_after(0, put_view(&mut view, setting, journal, request, output))
}

// Tells the figures that are asked for.
#[derive(Drop)]
struct Views;

impl Telling for Views {
    type Request = Request;

    ghost asked = { request_of };

    ghost usage_text = { usage_text };

    ghost told = { viewed };

    ghost IsDone = { IsViewed };

    fn request_of(&self, words: &Words) -> Option<Request> {
        request_of(words)
    }

    fn usage(&self) -> &'static [u8] {
        b"usage: liquidity_view view NAME FIRST LAST\n"
    }

    fn tell<S: Sink>(
        &self,
        alloc: Global,
        setting: &Setting,
        request: &Request,
        journal: &Journal,
        output: &mut S,
    ) -> u8 {
        match LiquidityView::open(alloc, setting, &request.name) {
            Ok(view) => view_with(view, setting, journal, request, output),
            Err(_) => 1,
        }
    }

    ghost does = { λ request bytes text is. is };
}

/// Does all that the program does, and answers its status. The words are `view NAME FIRST LAST`, both places of one to seven
/// digits. The input is a day and the text of a legal journal of it, which needn't be complete.
///
/// - 0: the figures of the bank of that name were written after each line from FIRST to LAST, and how many lines the journal has;
/// - 1, 2, 4, 5: memory was wanting, the words are no command line, a read or a write failed (`serve` of `program_answers`);
/// - 3, 6, 7: a record of the day is refused, what follows the day is no legal journal, the input is too long (`OverJournal` of
///   `journal_reading`).
pub fn liquidity<R: Source, S: Sink>(
    alloc: Global,
    words: &Words,
    input: &mut R,
    output: &mut S,
) -> u8
    ensures { ViewPromises (record {
      words = words.now;
      status = result;
      left = R.left input.old;
      left_after = R.left input.new;
      read_faults = R.faults input.old;
      read_faults_after = R.faults input.new;
      ends = R.ends input.old;
      ends_after = R.ends input.new;
      sink = S.state output.old;
      sink_after = S.state output.new;
    }) }
{
    serve(&OverJournal(Views), alloc, words, input, output)
}
