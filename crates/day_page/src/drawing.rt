//! The text of batches over the clock.
ghost use Rattle.std.specs.Prelude.{◌≡◌, ◌++◌, nat_eq};
ghost use Rattle.outside_io.specs.Calls.{Puts};
ghost use Rattle.day_page.specs.BarTexts.{bar_cells, bar_end, bar_figures, bar_head, bar_part, bar_picture, bar_row, bar_rows, bar_words, bars_end, bars_text};

use crate::bars::{Mark, phase_word};
use crate::classes::{order_cents, word_of};
use crate::markup::{amount, clock_bytes, message_id, put_if, put_pieces, sender_name};
use itoa::Buffer;
use outside_io::{Sink, WriteFault, put_all};
use rule_book::Setting;

#[tactic(auto, unfolding(crate::specs::BarTexts::bar_head))]
fn put_head<S: Sink>(setting: &Setting, n: u32, sink: &mut S) -> Result<(), WriteFault>
    ensures { Puts (S.state sink.old) (S.state sink.new) (bar_head setting.now.day n) result }
{
    let sum = amount(u128::from(order_cents(setting, n)));
    let pieces: [&[u8]; 13] = [
        b"<tr><td>",
        sender_name(setting, n),
        b"</td><td>",
        word_of(setting, n),
        b"</td><th scope='row'>",
        message_id(setting, n),
        b"</th><td>",
        sum.as_bytes(),
        b"</td><td><svg class='bar' viewBox='0 0 870 14' preserveAspectRatio='none' role='img' aria-label='Phases of batch ",
        message_id(setting, n),
        b"'><title>Phases of batch ",
        message_id(setting, n),
        b"</title>",
    ];
    put_pieces(sink, &pieces)
}

fn is_of(n: u32, mark: &Mark) -> bool
    ensures { result ≡ nat_eq mark.now.msg n }
{
    mark.msg == n
}

#[tactic(auto, unfolding(crate::specs::BarTexts::bar_part))]
fn put_part<S: Sink>(end: u32, n: u32, mark: &Mark, sink: &mut S) -> Result<(), WriteFault>
    ensures { Puts (S.state sink.old) (S.state sink.new) (bar_part end n mark.now) result }
{
    let mut from = Buffer::new();
    let mut width = Buffer::new();
    let pieces: [&[u8]; 7] = [
        b"<rect class='",
        phase_word(mark.phase),
        b"' x='",
        from.format(mark.clock / 100).as_bytes(),
        b"' y='1' width='",
        width
            .format((end / 100 + 4).saturating_sub(mark.clock / 100))
            .as_bytes(),
        b"' height='12'/>",
    ];
    put_if(sink, is_of(n, mark), &pieces)
}

#[tactic(auto, unfolding(crate::specs::BarTexts::bar_words))]
fn put_words<S: Sink>(n: u32, mark: &Mark, sink: &mut S) -> Result<(), WriteFault>
    ensures { Puts (S.state sink.old) (S.state sink.new) (bar_words n mark.now) result }
{
    let clock = clock_bytes(mark.clock);
    let pieces: [&[u8]; 4] = [&clock, b" ", phase_word(mark.phase), b"<br>"];
    put_if(sink, is_of(n, mark), &pieces)
}

fn put_picture<S: Sink>(changes: &[Mark], end: u32, n: u32, sink: &mut S) -> Result<(), WriteFault>
    ensures { Puts (S.state sink.old) (S.state sink.new) (bar_picture changes.now end n) result }
{
    for mark in changes {
        put_part(end, n, mark, sink)?;
    }
    Ok(())
}

fn put_figures<S: Sink>(changes: &[Mark], n: u32, sink: &mut S) -> Result<(), WriteFault>
    ensures { Puts (S.state sink.old) (S.state sink.new) (bar_figures changes.now n) result }
{
    for mark in changes {
        put_words(n, mark, sink)?;
    }
    Ok(())
}

fn put_figures_and_end<S: Sink>(changes: &[Mark], n: u32, sink: &mut S) -> Result<(), WriteFault>
    ensures { Puts (S.state sink.old) (S.state sink.new) (bar_figures changes.now n ++ bar_end)
        result }
{
    put_figures(changes, n, sink)?;
    put_all(sink, b"</td></tr>\n")
}

#[tactic(auto, unfolding(crate::specs::BarTexts::bar_cells))]
fn put_cells<S: Sink>(changes: &[Mark], n: u32, sink: &mut S) -> Result<(), WriteFault>
    ensures { Puts (S.state sink.old) (S.state sink.new) (bar_cells changes.now n) result }
{
    put_all(sink, b"</svg></td><td class='phases'>")?;
    put_figures_and_end(changes, n, sink)
}

fn put_bar<S: Sink>(changes: &[Mark], end: u32, n: u32, sink: &mut S) -> Result<(), WriteFault>
    ensures { Puts (S.state sink.old) (S.state sink.new)
        (bar_picture changes.now end n ++ bar_cells changes.now n) result }
{
    put_picture(changes, end, n, sink)?;
    put_cells(changes, n, sink)
}

#[tactic(auto, unfolding(crate::specs::BarTexts::bar_row))]
fn put_row<S: Sink>(
    setting: &Setting,
    changes: &[Mark],
    end: u32,
    n: u32,
    sink: &mut S,
) -> Result<(), WriteFault>
    ensures { Puts (S.state sink.old) (S.state sink.new) (bar_row setting.now.day changes.now end n)
        result }
{
    put_head(setting, n, sink)?;
    put_bar(changes, end, n, sink)
}

fn put_rows<S: Sink>(
    setting: &Setting,
    bars: &[u32],
    changes: &[Mark],
    end: u32,
    sink: &mut S,
) -> Result<(), WriteFault>
    ensures { Puts (S.state sink.old) (S.state sink.new)
        (bar_rows setting.now.day bars.now changes.now end) result }
{
    for n in bars {
        put_row(setting, changes, end, *n, sink)?;
    }
    Ok(())
}

fn put_rows_and_end<S: Sink>(
    setting: &Setting,
    bars: &[u32],
    changes: &[Mark],
    end: u32,
    sink: &mut S,
) -> Result<(), WriteFault>
    ensures { Puts (S.state sink.old) (S.state sink.new)
        (bar_rows setting.now.day bars.now changes.now end ++ bars_end) result }
{
    put_rows(setting, bars, changes, end, sink)?;
    put_all(sink, b"</tbody></table></div></section>\n")
}

/// Writes the batches over the clock.
#[tactic(auto, unfolding(crate::specs::BarTexts::bars_text))]
pub fn put_bars<S: Sink>(
    setting: &Setting,
    bars: &[u32],
    changes: &[Mark],
    end: u32,
    sink: &mut S,
) -> Result<(), WriteFault>
    ensures { Puts (S.state sink.old) (S.state sink.new)
        (bars_text setting.now.day bars.now changes.now end) result }
{
    put_all(
        sink,
        b"<section id='batches'><h2>Batches over the clock</h2>\n<p>The first hundred accepted batches, of a party those that it sent or has an account in. Each bar goes from 00:00 at the left to 24:00 at the right.</p>\n<ul class='legend'><li><svg viewBox='0 0 80 14' preserveAspectRatio='none' aria-hidden='true'><rect class='information' width='80' height='14'/></svg> information: banks may object</li><li><svg viewBox='0 0 80 14' preserveAspectRatio='none' aria-hidden='true'><rect class='waiting' width='80' height='14'/></svg> waiting: the earliest time is still to come</li><li><svg viewBox='0 0 80 14' preserveAspectRatio='none' aria-hidden='true'><rect class='open' width='80' height='14'/></svg> open: entries are booked as money comes</li><li><svg viewBox='0 0 80 14' preserveAspectRatio='none' aria-hidden='true'><rect class='asking' width='80' height='14'/></svg> asking: the system is asked for its fund</li><li><svg viewBox='0 0 80 14' preserveAspectRatio='none' aria-hidden='true'><rect class='covered' width='80' height='14'/></svg> covered: the fund has paid</li><li><svg viewBox='0 0 80 14' preserveAspectRatio='none' aria-hidden='true'><rect class='overdue' width='80' height='14'/></svg> overdue, or answered</li><li>empty: not taken yet, or over</li></ul>\n<div class='wide' tabindex='0' role='region' aria-label='Batches over the clock'><table class='bars'><caption>Batches with their phases: the stop at which each was seen first, or the end of the journal</caption><thead><tr><th scope='col'>System</th><th scope='col'>Kind</th><th scope='col'>Batch</th><th scope='col'>Sum</th><th scope='col'>00:00 to 24:00</th><th scope='col'>Phases</th></tr></thead><tbody>\n",
    )?;
    put_rows_and_end(setting, bars, changes, end, sink)
}
