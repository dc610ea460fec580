//! The text of what waits over the clock.
ghost use Rattle.std.specs.Prelude.{◌≡◌, ◌++◌};
ghost use Rattle.std.specs.List.{flat_map};
ghost use Rattle.outside_io.specs.Calls.{Puts};
ghost use Rattle.day_page.specs.WaitTexts.{peak_of, priority_word, queue_end, queue_head, queue_of, queue_path, queue_picture, queue_step, queue_text, queue_texts, waiting_row, waiting_rows, waiting_table, waiting_table_end, waiting_text};

use crate::balances::frame;
use crate::markup::{amount, clock_bytes, put_pieces, x_of, y_of};
use crate::peaks::Peaks;
use crate::waits::{Queue, Waiting};
use itoa::Buffer;
use outside_io::{Sink, WriteFault, put_all};

// ---- priorities

fn queue_of(p: u32, waiting: &Waiting) -> Queue
    ensures { result ≡ queue_of p waiting.now }
{
    match p {
        0 => waiting.urgent,
        1 => waiting.high,
        _ => waiting.normal,
    }
}

fn priority_word<'a>(p: u32) -> &'a [u8]
    ensures { result.now ≡ priority_word p }
{
    match p {
        0 => b"Urgent",
        1 => b"High",
        _ => b"Normal",
    }
}

fn peak_of(p: u32, peaks: &Peaks) -> u128
    ensures { result ≡ peak_of p peaks.now }
{
    match p {
        0 => peaks.urgent,
        1 => peaks.high,
        _ => peaks.normal,
    }
}

// ---- a picture for each priority

#[tactic(auto, unfolding(crate::specs::WaitTexts::queue_head))]
fn put_head<S: Sink>(p: u32, top: u128, sink: &mut S) -> Result<(), WriteFault>
    ensures { Puts (S.state sink.old) (S.state sink.new) (queue_head p top) result }
{
    let top = amount(top);
    let pieces: [&[u8]; 13] = [
        b"<section><h3>",
        priority_word(p),
        b"</h3>\n<div class='wide' tabindex='0' role='region' aria-label='Picture: what waits, ",
        priority_word(p),
        b"'><svg viewBox='0 -16 940 212' role='img' aria-label='Sum of what waits over the clock, priority ",
        priority_word(p),
        b"'><title>Sum of what waits over the clock, priority ",
        priority_word(p),
        b"</title>",
        frame(),
        b"<text x='60' y='-2'>",
        top.as_bytes(),
        b"</text><path class='line' d='M60 170",
    ];
    put_pieces(sink, &pieces)
}

#[tactic(auto, unfolding(crate::specs::WaitTexts::queue_step, crate::specs::BalanceTexts::step_text))]
fn put_step<S: Sink>(p: u32, top: u128, waiting: &Waiting, sink: &mut S) -> Result<(), WriteFault>
    ensures { Puts (S.state sink.old) (S.state sink.new) (queue_step p top waiting.now) result }
{
    let mut across = Buffer::new();
    let mut up = Buffer::new();
    let pieces: [&[u8]; 4] = [
        b"H",
        across.format(x_of(waiting.clock)).as_bytes(),
        b"V",
        up.format(y_of(top, queue_of(p, waiting).cents)).as_bytes(),
    ];
    put_pieces(sink, &pieces)
}

fn put_path<S: Sink>(waiting: &[Waiting], p: u32, top: u128, sink: &mut S) -> Result<(), WriteFault>
    ensures { Puts (S.state sink.old) (S.state sink.new) (queue_path waiting.now p top) result }
{
    for one in waiting {
        put_step(p, top, one, sink)?;
    }
    Ok(())
}

fn put_line<S: Sink>(waiting: &[Waiting], p: u32, top: u128, sink: &mut S) -> Result<(), WriteFault>
    ensures { Puts (S.state sink.old) (S.state sink.new) (queue_path waiting.now p top ++ queue_end)
        result }
{
    put_path(waiting, p, top, sink)?;
    put_all(sink, b"'/></svg></div></section>\n")
}

#[tactic(auto, unfolding(crate::specs::WaitTexts::queue_picture))]
fn put_picture<S: Sink>(
    waiting: &[Waiting],
    p: u32,
    top: u128,
    sink: &mut S,
) -> Result<(), WriteFault>
    ensures { Puts (S.state sink.old) (S.state sink.new) (queue_picture waiting.now p top) result }
{
    put_head(p, top, sink)?;
    put_line(waiting, p, top, sink)
}

#[tactic(auto, unfolding(crate::specs::WaitTexts::queue_text))]
fn put_queue<S: Sink>(
    waiting: &[Waiting],
    peaks: &Peaks,
    p: u32,
    sink: &mut S,
) -> Result<(), WriteFault>
    ensures { Puts (S.state sink.old) (S.state sink.new) (queue_text waiting.now peaks.now p)
        result }
{
    put_picture(waiting, p, peak_of(p, peaks), sink)
}

fn put_queues_of<S: Sink>(
    waiting: &[Waiting],
    peaks: &Peaks,
    priorities: &[u32],
    sink: &mut S,
) -> Result<(), WriteFault>
    ensures { Puts (S.state sink.old) (S.state sink.new)
        (flat_map (queue_text waiting.now peaks.now) priorities.now) result }
{
    for p in priorities {
        put_queue(waiting, peaks, *p, sink)?;
    }
    Ok(())
}

#[tactic(auto, unfolding(crate::specs::WaitTexts::queue_texts))]
fn put_queues<S: Sink>(waiting: &[Waiting], peaks: &Peaks, sink: &mut S) -> Result<(), WriteFault>
    ensures { Puts (S.state sink.old) (S.state sink.new) (queue_texts waiting.now peaks.now) result }
{
    let priorities = [0, 1, 2];
    put_queues_of(waiting, peaks, &priorities, sink)
}

// ---- the figures of all

#[tactic(auto, unfolding(crate::specs::WaitTexts::waiting_row))]
fn put_row<S: Sink>(waiting: &Waiting, sink: &mut S) -> Result<(), WriteFault>
    ensures { Puts (S.state sink.old) (S.state sink.new) (waiting_row waiting.now) result }
{
    let clock = clock_bytes(waiting.clock);
    let mut urgent = Buffer::new();
    let mut high = Buffer::new();
    let mut normal = Buffer::new();
    let urgent_sum = amount(waiting.urgent.cents);
    let high_sum = amount(waiting.high.cents);
    let normal_sum = amount(waiting.normal.cents);
    let pieces: [&[u8]; 15] = [
        b"<tr><th scope='row'>",
        &clock,
        b"</th><td>",
        urgent.format(waiting.urgent.count).as_bytes(),
        b"</td><td>",
        urgent_sum.as_bytes(),
        b"</td><td>",
        high.format(waiting.high.count).as_bytes(),
        b"</td><td>",
        high_sum.as_bytes(),
        b"</td><td>",
        normal.format(waiting.normal.count).as_bytes(),
        b"</td><td>",
        normal_sum.as_bytes(),
        b"</td></tr>\n",
    ];
    put_pieces(sink, &pieces)
}

fn put_rows<S: Sink>(waiting: &[Waiting], sink: &mut S) -> Result<(), WriteFault>
    ensures { Puts (S.state sink.old) (S.state sink.new) (waiting_rows waiting.now) result }
{
    for one in waiting {
        put_row(one, sink)?;
    }
    Ok(())
}

fn put_table_body<S: Sink>(waiting: &[Waiting], sink: &mut S) -> Result<(), WriteFault>
    ensures { Puts (S.state sink.old) (S.state sink.new)
        (waiting_rows waiting.now ++ waiting_table_end) result }
{
    put_rows(waiting, sink)?;
    put_all(sink, b"</tbody></table></div></details></section>\n")
}

#[tactic(auto, unfolding(crate::specs::WaitTexts::waiting_table))]
fn put_table<S: Sink>(waiting: &[Waiting], sink: &mut S) -> Result<(), WriteFault>
    ensures { Puts (S.state sink.old) (S.state sink.new) (waiting_table waiting.now) result }
{
    put_all(
        sink,
        b"<details><summary>Figures: what waits</summary><div class='wide' tabindex='0' role='region' aria-label='Figures: what waits'><table><caption>Items that wait when the clock leaves each stop, in the last row at the end of the journal, and what they take once they are booked</caption><thead><tr><th scope='col'>Clock</th><th scope='col'>Urgent</th><th scope='col'>Sum urgent</th><th scope='col'>High</th><th scope='col'>Sum high</th><th scope='col'>Normal</th><th scope='col'>Sum normal</th></tr></thead><tbody>\n",
    )?;
    put_table_body(waiting, sink)
}

fn put_queues_and_table<S: Sink>(
    waiting: &[Waiting],
    peaks: &Peaks,
    sink: &mut S,
) -> Result<(), WriteFault>
    ensures { Puts (S.state sink.old) (S.state sink.new)
        (queue_texts waiting.now peaks.now ++ waiting_table waiting.now) result }
{
    put_queues(waiting, peaks, sink)?;
    put_table(waiting, sink)
}

/// Writes what waits over the clock, with the highest sums over every line.
#[tactic(auto, unfolding(crate::specs::WaitTexts::waiting_text))]
pub fn put_waiting<S: Sink>(
    waiting: &[Waiting],
    peaks: &Peaks,
    sink: &mut S,
) -> Result<(), WriteFault>
    ensures { Puts (S.state sink.old) (S.state sink.new) (waiting_text waiting.now peaks.now)
        result }
{
    put_all(
        sink,
        b"<section id='waiting'><h2>What waits</h2>\n<p>Payments and entries of batches that wait for money or for those before them, by priority. A batch of B is one item. Of a party these are the items that take from its accounts. Of stops within five minutes the last is shown; the figure above each picture is the highest sum after any line.</p>\n",
    )?;
    put_queues_and_table(waiting, peaks, sink)
}
