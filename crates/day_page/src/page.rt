//! The text of a page.
ghost use Rattle.std.specs.Prelude.{◌≡◌, ◌++◌};
ghost use Rattle.batch_records.specs.DayRecord.{Day};
ghost use Rattle.commit_journal.specs.Line.{History};
ghost use Rattle.outside_io.specs.Calls.{Puts};
ghost use Rattle.machine.specs.Telling.History.{is_ended};
ghost use Rattle.day_facts.specs.Facts.{StandsFor};
ghost use Rattle.day_page.specs.CountTexts.{counts_text};
ghost use Rattle.day_page.specs.LineTexts.{lines_text};
ghost use Rattle.day_page.specs.Pages.{balances_part, bars_part, clock_words, foot_text, head_text, heading_text, last_parts, name_text, nav_text, page_text, standing_of, standing_text, state_text, title_text, waiting_part, whose_page};
ghost use Rattle.day_page.specs.Sheets.{AreWatched, HaveCourses};
ghost use Rattle.day_page.specs.Styles.{style_text};

use crate::balances::put_balances;
use crate::counting::put_counts;
use crate::courses::Balances;
use crate::drawing::put_bars;
use crate::markup::{clock_bytes, put_pieces};
use crate::past::Past;
use crate::sheet::Watched;
use crate::styles::{patterns, style};
use crate::waiting::put_waiting;
use crate::wording::put_lines;
use crate::words::Request;
use commit_journal::Journal;
use day_facts::DayFacts;
use itoa::Buffer;
use outside_io::{Sink, WriteFault, put_all};
use rule_book::Setting;

// ---- the head

fn whose_page(request: &Request) -> &[u8]
    ensures { result.now ≡ whose_page request.now.party }
{
    match &request.party {
        Some(party) => party.as_bytes(),
        None => b"the whole day",
    }
}

fn has_ended(facts: &DayFacts) -> bool
    ensures { (day : Day) (J : History) → StandsFor day J facts.now → result ≡ is_ended J }
{
    facts.ended().is_some()
}

fn state_of(facts: &DayFacts) -> &'static [u8]
    ensures { (day : Day) (J : History) → StandsFor day J facts.now → result.now ≡ state_text J }
{
    if has_ended(facts) {
        b"the day has ended"
    } else {
        b"the day has not ended"
    }
}

#[tactic(auto, unfolding(crate::specs::Pages::title_text))]
fn put_title<S: Sink>(setting: &Setting, request: &Request, sink: &mut S) -> Result<(), WriteFault>
    ensures { Puts (S.state sink.old) (S.state sink.new) (title_text setting.now.day request.now)
        result }
{
    let date = setting.day.date().put();
    let pieces: [&[u8]; 5] = [
        b"<!DOCTYPE html>\n<html lang='en'><head><meta charset='utf-8'><meta name='viewport' content='width=device-width,initial-scale=1'><title>Settlement day ",
        date.as_bytes(),
        b": ",
        whose_page(request),
        b"</title>",
    ];
    put_pieces(sink, &pieces)
}

#[tactic(auto, unfolding(crate::specs::Pages::name_text))]
fn put_name<S: Sink>(setting: &Setting, request: &Request, sink: &mut S) -> Result<(), WriteFault>
    ensures { Puts (S.state sink.old) (S.state sink.new) (name_text setting.now.day request.now)
        result }
{
    let date = setting.day.date().put();
    let pieces: [&[u8]; 5] = [
        b"<main><h1>Settlement day ",
        date.as_bytes(),
        b": ",
        whose_page(request),
        b"</h1>\n<p>",
    ];
    put_pieces(sink, &pieces)
}

#[tactic(auto, unfolding(crate::specs::Pages::clock_words))]
fn put_clock<S: Sink>(lines: u32, now: u32, sink: &mut S) -> Result<(), WriteFault>
    ensures { Puts (S.state sink.old) (S.state sink.new) (clock_words lines now) result }
{
    let mut digits = Buffer::new();
    let clock = clock_bytes(now);
    let pieces: [&[u8]; 4] = [
        digits.format(lines).as_bytes(),
        b" lines, the clock stands at ",
        &clock,
        b", ",
    ];
    put_pieces(sink, &pieces)
}

fn put_state<S: Sink>(state: &[u8], sink: &mut S) -> Result<(), WriteFault>
    ensures { Puts (S.state sink.old) (S.state sink.new) (state.now ++ nav_text) result }
{
    put_all(sink, state)?;
    put_all(
        sink,
        b". Amounts are in euro.</p>\n<nav aria-label='Parts of the page'><ul><li><a href='#figures'>The day in figures</a></li><li><a href='#balances'>Balances over the clock</a></li><li><a href='#waiting'>What waits</a></li><li><a href='#batches'>Batches over the clock</a></li><li><a href='#lines'>Lines in words</a></li></ul></nav>\n",
    )
}

#[tactic(auto, unfolding(crate::specs::Pages::standing_of))]
fn put_standing_of<S: Sink>(
    lines: u32,
    now: u32,
    state: &[u8],
    sink: &mut S,
) -> Result<(), WriteFault>
    ensures { Puts (S.state sink.old) (S.state sink.new) (standing_of lines now state.now) result }
{
    put_clock(lines, now, sink)?;
    put_state(state, sink)
}

#[tactic(auto, unfolding(crate::specs::Pages::standing_text))]
fn put_standing<S: Sink>(
    setting: &Setting,
    journal: &Journal,
    facts: &DayFacts,
    sink: &mut S,
) -> Result<(), WriteFault>
    requires stands { StandsFor setting.now.day journal.now.history facts.now }
    ensures { Puts (S.state sink.old) (S.state sink.new) (standing_text journal.now.history)
        result }
{
    put_standing_of(facts.lines(), facts.clock(), state_of(facts), sink)
}

fn put_name_and_standing<S: Sink>(
    setting: &Setting,
    request: &Request,
    journal: &Journal,
    facts: &DayFacts,
    sink: &mut S,
) -> Result<(), WriteFault>
    requires stands { StandsFor setting.now.day journal.now.history facts.now }
    ensures { Puts (S.state sink.old) (S.state sink.new)
        (name_text setting.now.day request.now ++ standing_text journal.now.history) result }
{
    put_name(setting, request, sink)?;
    put_standing(setting, journal, facts, sink)
}

#[tactic(auto, unfolding(crate::specs::Pages::heading_text))]
fn put_heading<S: Sink>(
    setting: &Setting,
    request: &Request,
    journal: &Journal,
    facts: &DayFacts,
    sink: &mut S,
) -> Result<(), WriteFault>
    requires stands { StandsFor setting.now.day journal.now.history facts.now }
    ensures { Puts (S.state sink.old) (S.state sink.new)
        (heading_text setting.now.day request.now journal.now.history) result }
{
    put_all(sink, patterns())?;
    put_name_and_standing(setting, request, journal, facts, sink)
}

fn put_style_and_heading<S: Sink>(
    setting: &Setting,
    request: &Request,
    journal: &Journal,
    facts: &DayFacts,
    sink: &mut S,
) -> Result<(), WriteFault>
    requires stands { StandsFor setting.now.day journal.now.history facts.now }
    ensures { Puts (S.state sink.old) (S.state sink.new)
        (style_text ++ heading_text setting.now.day request.now journal.now.history) result }
{
    put_all(sink, style())?;
    put_heading(setting, request, journal, facts, sink)
}

#[tactic(auto, unfolding(crate::specs::Pages::head_text))]
fn put_head<S: Sink>(
    setting: &Setting,
    request: &Request,
    journal: &Journal,
    facts: &DayFacts,
    sink: &mut S,
) -> Result<(), WriteFault>
    requires stands { StandsFor setting.now.day journal.now.history facts.now }
    ensures { Puts (S.state sink.old) (S.state sink.new)
        (head_text setting.now.day request.now journal.now.history) result }
{
    put_title(setting, request, sink)?;
    put_style_and_heading(setting, request, journal, facts, sink)
}

// ---- the parts

// Writes the day in figures, with the facts of the whole journal.
fn put_counts_part<S: Sink>(
    setting: &Setting,
    request: &Request,
    journal: &Journal,
    facts: &DayFacts,
    sink: &mut S,
) -> Result<(), WriteFault>
    requires stands { StandsFor setting.now.day journal.now.history facts.now }
    ensures { Puts (S.state sink.old) (S.state sink.new)
        (counts_text setting.now.day request.now journal.now.history) result }
{
    let past = Past {
        setting,
        journal,
        place: journal.len(),
        facts,
    };
    put_counts(&past, request, sink)
}

#[tactic(auto, unfolding(crate::specs::Pages::balances_part))]
fn put_balances_part<S: Sink>(
    setting: &Setting,
    request: &Request,
    journal: &Journal,
    balances: &Balances,
    sink: &mut S,
) -> Result<(), WriteFault>
    requires have { HaveCourses setting.now.day request.now journal.now.history
        balances.now.courses.items balances.now.points.items }
    ensures { Puts (S.state sink.old) (S.state sink.new)
        (balances_part setting.now.day request.now journal.now.history) result }
{
    put_balances(
        setting,
        balances.courses.as_slice(),
        balances.points.as_slice(),
        sink,
    )
}

#[tactic(auto, unfolding(crate::specs::Pages::waiting_part))]
fn put_waiting_part<S: Sink>(
    setting: &Setting,
    request: &Request,
    journal: &Journal,
    watched: &Watched,
    sink: &mut S,
) -> Result<(), WriteFault>
    requires watched { AreWatched setting.now.day request.now journal.now.history watched.now.facts
        watched.now.waits.items watched.now.peaks watched.now.bars.items
        watched.now.changes.items }
    ensures { Puts (S.state sink.old) (S.state sink.new)
        (waiting_part setting.now.day request.now journal.now.history) result }
{
    put_waiting(watched.waits.as_slice(), &watched.peaks, sink)
}

#[tactic(auto, unfolding(crate::specs::Pages::bars_part))]
fn put_bars_part<S: Sink>(
    setting: &Setting,
    request: &Request,
    journal: &Journal,
    watched: &Watched,
    sink: &mut S,
) -> Result<(), WriteFault>
    requires watched { AreWatched setting.now.day request.now journal.now.history watched.now.facts
        watched.now.waits.items watched.now.peaks watched.now.bars.items
        watched.now.changes.items }
    ensures { Puts (S.state sink.old) (S.state sink.new)
        (bars_part setting.now.day request.now journal.now.history) result }
{
    put_bars(
        setting,
        watched.bars.as_slice(),
        watched.changes.as_slice(),
        watched.facts.clock(),
        sink,
    )
}

fn put_lines_and_foot<S: Sink>(
    setting: &Setting,
    request: &Request,
    journal: &Journal,
    sink: &mut S,
) -> Result<(), WriteFault>
    ensures { Puts (S.state sink.old) (S.state sink.new)
        (lines_text setting.now.day request.now journal.now.history ++ foot_text) result }
{
    put_lines(setting, request, journal, sink)?;
    put_all(sink, b"</main></body></html>\n")
}

#[tactic(auto, unfolding(crate::specs::Pages::last_parts))]
fn put_last_parts<S: Sink>(
    setting: &Setting,
    request: &Request,
    journal: &Journal,
    watched: &Watched,
    sink: &mut S,
) -> Result<(), WriteFault>
    requires watched { AreWatched setting.now.day request.now journal.now.history watched.now.facts
        watched.now.waits.items watched.now.peaks watched.now.bars.items
        watched.now.changes.items }
    ensures { Puts (S.state sink.old) (S.state sink.new)
        (last_parts setting.now.day request.now journal.now.history) result }
{
    put_bars_part(setting, request, journal, watched, sink)?;
    put_lines_and_foot(setting, request, journal, sink)
}

fn put_waiting_on<S: Sink>(
    setting: &Setting,
    request: &Request,
    journal: &Journal,
    watched: &Watched,
    sink: &mut S,
) -> Result<(), WriteFault>
    requires watched { AreWatched setting.now.day request.now journal.now.history watched.now.facts
        watched.now.waits.items watched.now.peaks watched.now.bars.items
        watched.now.changes.items }
    ensures { Puts (S.state sink.old) (S.state sink.new)
        (waiting_part setting.now.day request.now journal.now.history
        ++ last_parts setting.now.day request.now journal.now.history) result }
{
    put_waiting_part(setting, request, journal, watched, sink)?;
    put_last_parts(setting, request, journal, watched, sink)
}

fn put_balances_on<S: Sink>(
    setting: &Setting,
    request: &Request,
    journal: &Journal,
    balances: &Balances,
    watched: &Watched,
    sink: &mut S,
) -> Result<(), WriteFault>
    requires have { HaveCourses setting.now.day request.now journal.now.history
        balances.now.courses.items balances.now.points.items }
    requires watched { AreWatched setting.now.day request.now journal.now.history watched.now.facts
        watched.now.waits.items watched.now.peaks watched.now.bars.items
        watched.now.changes.items }
    ensures { Puts (S.state sink.old) (S.state sink.new)
        (balances_part setting.now.day request.now journal.now.history
        ++ (waiting_part setting.now.day request.now journal.now.history
        ++ last_parts setting.now.day request.now journal.now.history)) result }
{
    put_balances_part(setting, request, journal, balances, sink)?;
    put_waiting_on(setting, request, journal, watched, sink)
}

fn put_counts_on<S: Sink>(
    setting: &Setting,
    request: &Request,
    journal: &Journal,
    balances: &Balances,
    watched: &Watched,
    sink: &mut S,
) -> Result<(), WriteFault>
    requires have { HaveCourses setting.now.day request.now journal.now.history
        balances.now.courses.items balances.now.points.items }
    requires watched { AreWatched setting.now.day request.now journal.now.history watched.now.facts
        watched.now.waits.items watched.now.peaks watched.now.bars.items
        watched.now.changes.items }
    ensures { Puts (S.state sink.old) (S.state sink.new)
        (counts_text setting.now.day request.now journal.now.history
        ++ (balances_part setting.now.day request.now journal.now.history
        ++ (waiting_part setting.now.day request.now journal.now.history
        ++ last_parts setting.now.day request.now journal.now.history))) result }
{
    put_counts_part(setting, request, journal, &watched.facts, sink)?;
    put_balances_on(setting, request, journal, balances, watched, sink)
}

/// Writes the page over a journal.
#[tactic(auto, unfolding(crate::specs::Pages::page_text))]
pub fn put_page<S: Sink>(
    setting: &Setting,
    request: &Request,
    journal: &Journal,
    balances: &Balances,
    watched: &Watched,
    sink: &mut S,
) -> Result<(), WriteFault>
    requires have { HaveCourses setting.now.day request.now journal.now.history
        balances.now.courses.items balances.now.points.items }
    requires watched { AreWatched setting.now.day request.now journal.now.history watched.now.facts
        watched.now.waits.items watched.now.peaks watched.now.bars.items
        watched.now.changes.items }
    ensures { Puts (S.state sink.old) (S.state sink.new)
        (page_text setting.now.day request.now journal.now.history) result }
{
    put_head(setting, request, journal, &watched.facts, sink)?;
    put_counts_on(setting, request, journal, balances, watched, sink)
}
