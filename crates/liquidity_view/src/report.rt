//! The text of a view.
ghost use Rattle.std.specs.Prelude.{◌≡◌, ◌≤◌, ◌<◌, ◌+◌, ◌&&◌, ◌++◌, ◌∷◌, [], length, nat_le};
ghost use Rattle.std.specs.List.{flat_map};
ghost use Rattle.arrayvec.specs.ArrayString.{array_string_len};
ghost use Rattle.cash_amounts.specs.AmountText.{amount_text};
ghost use Rattle.outside_io.specs.Calls.{Puts};
ghost use Rattle.commit_journal.specs.Histories.{oldest};
ghost use Rattle.machine.specs.Legal.{IsLegal};
ghost use Rattle.liquidity_view.specs.Viewed.{figures_text, places, signed_text, text_at, view_text};
ghost use Rattle.liquidity_view.specs.Views.{StandsFor};

use crate::view::{Figures, LiquidityView};
use crate::words::Request;
use arrayvec::ArrayString;
use commit_journal::Journal;
use itoa::Buffer;
use outside_io::{Sink, WriteFault, put_fields};
use program_answers::put_ok;
use rule_book::Setting;

// ---- amounts

// Puts one ASCII character at the end of a text that has room for it.
fn push_ascii(text: &mut ArrayString<48>, byte: u8)
    requires ascii { byte < 128 }
    requires room { array_string_len text.old < 48 }
    ensures bytes { text.new.bytes ≡ text.old.bytes ++ byte ∷ [] }
    ensures length { array_string_len text.new ≡ array_string_len text.old + 1 }
{
    text.push(char::from(byte));
}

fn push_digit(text: &mut ArrayString<48>, digit: u128)
    requires digit { digit < 10 }
    requires room { array_string_len text.old < 48 }
    ensures bytes { text.new.bytes ≡ text.old.bytes ++ (48 + digit) ∷ [] }
    ensures length { array_string_len text.new ≡ array_string_len text.old + 1 }
{
    push_ascii(text, b'0' + digit as u8);
}

// Puts the text of an amount at the end of a text with one character at most.
fn push_amount(text: &mut ArrayString<48>, cents: u128)
    requires room { array_string_len text.old ≤ 1 }
    ensures { text.new.bytes ≡ text.old.bytes ++ amount_text cents }
{
    text.push_str(Buffer::new().format(cents / 100));
    push_ascii(text, b'.');
    push_digit(text, cents / 10 % 10);
    push_digit(text, cents % 10);
}

fn amount_of(cents: i128) -> ArrayString<48>
    ensures { result.bytes ≡ signed_text cents }
{
    let mut text = ArrayString::new();
    if cents < 0 {
        push_ascii(&mut text, b'-');
    }
    push_amount(&mut text, cents.unsigned_abs());
    text
}

// ---- lines

fn put_figures<S: Sink>(place: u32, figures: &Figures, sink: &mut S) -> Result<(), WriteFault>
    ensures { Puts (S.state sink.old) (S.state sink.new) (figures_text place figures.now) result }
{
    let mut digits = Buffer::new();
    let out = amount_of(figures.out);
    let into = amount_of(figures.into);
    let queued_out = amount_of(figures.queued_out);
    let queued_in = amount_of(figures.queued_in);
    let position = amount_of(figures.position);
    let projected = amount_of(figures.projected);
    let fields: [&[u8]; 8] = [
        b"V",
        digits.format(place).as_bytes(),
        out.as_bytes(),
        into.as_bytes(),
        queued_out.as_bytes(),
        queued_in.as_bytes(),
        position.as_bytes(),
        projected.as_bytes(),
    ];
    put_fields(sink, &fields)
}

// Whether the figures after the line at a place are asked for.
fn is_asked(request: &Request, place: u32) -> bool
    ensures { result ≡ (nat_le request.now.first place && nat_le place request.now.last) }
{
    request.first <= place && place <= request.last
}

// Writes them, where they are.
fn put_at<S: Sink>(
    view: &LiquidityView,
    setting: &Setting,
    journal: &Journal,
    request: &Request,
    place: u32,
    sink: &mut S,
) -> Result<(), WriteFault>
    requires stands { StandsFor setting.now.day (oldest journal.now.history place) view.now }
    requires name { view.now.name ≡ request.now.name }
    ensures { Puts (S.state sink.old) (S.state sink.new)
        (text_at setting.now.day request.now journal.now.history place) result }
{
    if is_asked(request, place) {
        put_figures(place, &view.figures(), sink)
    } else {
        Ok(())
    }
}

fn put_lines<S: Sink>(
    view: &mut LiquidityView,
    setting: &Setting,
    journal: &Journal,
    request: &Request,
    sink: &mut S,
) -> Result<(), WriteFault>
    requires legal { IsLegal setting.now.day journal.now.history }
    requires first { StandsFor setting.now.day [] view.old }
    requires name { view.old.name ≡ request.now.name }
    ensures { Puts (S.state sink.old) (S.state sink.new)
        (flat_map (text_at setting.now.day request.now journal.now.history)
        (places journal.now.history)) result }
{
    for before in 0..journal.len() {
        view.take(setting, journal, before + 1);
        put_at(view, setting, journal, request, before + 1, sink)?;
    }
    Ok(())
}

/// Writes the figures over a journal for each place that is asked for, and how many lines it has, with a view that stands for no
/// lines.
#[tactic(auto, unfolding(crate::specs::Viewed::view_text))]
pub fn put_view<S: Sink>(
    view: &mut LiquidityView,
    setting: &Setting,
    journal: &Journal,
    request: &Request,
    sink: &mut S,
) -> Result<(), WriteFault>
    requires legal { IsLegal setting.now.day journal.now.history }
    requires first { StandsFor setting.now.day [] view.old }
    requires name { view.old.name ≡ request.now.name }
    ensures { Puts (S.state sink.old) (S.state sink.new)
        (view_text setting.now.day request.now journal.now.history) result }
{
    put_lines(view, setting, journal, request, sink)?;
    put_ok(journal.len(), sink)
}
