//! The top call: from the words and the streams to the status.
ghost use Rattle.std.specs.Prelude.{◌≡◌};
ghost use Rattle.machine.specs.Legal.{IsLegal};
ghost use Rattle.program_answers.specs.Answers.{done};
ghost use Rattle.program_answers.specs.Giving.{Says, SaysIfRoom};
ghost use Rattle.day_page.specs.Pages.{page_text};
ghost use Rattle.day_page.specs.Requests.{request_of, usage_text};
ghost use Rattle.day_page.specs.Sheets.{AreWatched, HaveCourses};
ghost use Rattle.page_engine.specs.Promises.{IsShown, PagePromises, shown};
ghost use Rattle.day_page.proofs.HighestFacts.{figures_hold};

use cash_amounts::Words;
use commit_journal::Journal;
use day_page::{Balances, Request, Watched, put_page, request_of, shown_balances, watch_all};
use journal_reading::{OverJournal, Telling};
use outside_io::{Sink, Source};
use program_answers::{serve, status_after};
use rule_book::Setting;
use std::alloc::Global;

// Writes the page over a journal, with the figures of it.
fn page_with<S: Sink>(
    setting: &Setting,
    request: &Request,
    journal: &Journal,
    balances: &Balances,
    watched: &Watched,
    output: &mut S,
) -> u8
    requires have { HaveCourses setting.now.day request.now journal.now.history
        balances.now.courses.items balances.now.points.items }
    requires watched { AreWatched setting.now.day request.now journal.now.history watched.now.facts
        watched.now.waits.items watched.now.peaks watched.now.bars.items
        watched.now.changes.items }
    ensures { Says (S.state output.old) (S.state output.new)
        (done (page_text setting.now.day request.now journal.now.history)) result }
{
    status_after(
        0,
        put_page(setting, request, journal, balances, watched, output),
    )
}

// The same, once the balances are known.
fn page_of<S: Sink>(
    alloc: Global,
    setting: &Setting,
    request: &Request,
    journal: &Journal,
    balances: &Balances,
    output: &mut S,
) -> u8
    requires legal { IsLegal setting.now.day journal.now.history }
    requires have { HaveCourses setting.now.day request.now journal.now.history
        balances.now.courses.items balances.now.points.items }
    ensures { SaysIfRoom S.state output.old output.new
        (done (page_text setting.now.day request.now journal.now.history)) result }
{
    match watch_all(alloc, setting, request, journal) {
        Ok(watched) => page_with(setting, request, journal, balances, &watched, output),
        Err(_) => 1,
    }
}

// Shows the page that is asked for.
#[derive(Drop)]
struct Pages;

impl Telling for Pages {
    type Request = Request;

    ghost asked = { request_of };

    ghost usage_text = { usage_text };

    ghost told = { shown };

    ghost IsDone = { IsShown };

    fn request_of(&self, words: &Words) -> Option<Request> {
        request_of(words)
    }

    fn usage(&self) -> &'static [u8] {
        b"usage: day_page page [NAME]\n"
    }

    fn tell<S: Sink>(
        &self,
        alloc: Global,
        setting: &Setting,
        request: &Request,
        journal: &Journal,
        output: &mut S,
    ) -> u8 {
        match shown_balances(alloc, setting, request, journal) {
            Ok(balances) => page_of(alloc, setting, request, journal, &balances, output),
            Err(_) => 1,
        }
    }

    ghost does = { λ request bytes text is. record {
      told = is;
      figures = figures_hold is.day request is.journal;
    } };
}

/// Does all that the program does, and answers its status. The words are `page`, for the whole day, or `page NAME`, for one
/// party. The input is a day and the text of a legal journal of it, which needn't be complete.
///
/// - 0: the page over the journal was written;
/// - 1, 2, 4, 5: memory was wanting, the words are no command line, a read or a write failed (`serve` of `program_answers`);
/// - 3, 6, 7: a record of the day is refused, what follows the day is no legal journal, the input is too long (`OverJournal` of
///   `journal_reading`).
pub fn page<R: Source, S: Sink>(alloc: Global, words: &Words, input: &mut R, output: &mut S) -> u8
    ensures { PagePromises (record {
      words = words.now;
      status = result;
      left = R.left input.old;
      left_after = R.left input.new;
      read_faults = R.faults input.old;
      read_faults_after = R.faults input.new;
      ends = R.ends input.old;
      ends_after = R.ends input.new;
      sink = S.state output.old;
      sink_after = S.state output.new;
    }) }
{
    serve(&OverJournal(Pages), alloc, words, input, output)
}
