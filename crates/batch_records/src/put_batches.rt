//! Writing the record of a batch.

ghost use Rattle.std.specs.Prelude.{◌≡◌, ◌≤◌, ◌<◌, ◌+◌, ◌++◌, ◌∷◌, [], codes, decimal, length, true};
ghost use Rattle.outside_io.specs.Calls.{Puts};
ghost use Rattle.outside_io.specs.TextLine.{text_line};
ghost use Rattle.batch_records.specs.DayTexts.{body_record, procedure_word, time_field, time_fields, time_or_empty};
ghost use Rattle.batch_records.specs.Versions.{from_label, has_labels, till_label};
ghost use Rattle.cash_amounts.specs.AmountText.{amount_text};
ghost use Rattle.period_calendar.specs.MomentTexts.{time_text};
ghost use Rattle.batch_records.specs.Sound.{is_time_or_none};
ghost use Rattle.period_calendar.specs.declared.time.TheConstants.{MIDNIGHT};

use crate::day::{Body, MessageRecord};
use crate::versions::has_labels;
use arrayvec::ArrayString;
use cash_amounts::{Cents, Procedure, put_cents};
use itoa::Buffer;
use outside_io::{Sink, WriteFault, put_fields};
use period_calendar::put_time;

// The letter of a procedure.
pub fn procedure_word<'a>(procedure: Procedure) -> &'a [u8]
    ensures { result.now ≡ procedure_word procedure }
{
    match procedure {
        Procedure::A => b"A",
        Procedure::B => b"B",
        Procedure::C => b"C",
        Procedure::D => b"D",
        Procedure::E => b"E",
    }
}

// A time, empty where there is none.
fn time_or_empty(time: Option<u32>) -> ArrayString<8>
    requires { is_time_or_none time ≡ true }
    ensures { result.bytes ≡ time_or_empty time }
{
    match time {
        Some(time) => put_time(time),
        None => ArrayString::new(),
    }
}

// Writes a batch of version 1.
fn put_first_batch<S: Sink>(
    message: &MessageRecord,
    procedure: Procedure,
    info: Option<u32>,
    till: Option<u32>,
    count: u32,
    sum: Cents,
    sink: &mut S,
) -> Result<(), WriteFault>
    requires info { is_time_or_none info ≡ true }
    requires till { is_time_or_none till ≡ true }
    ensures { Puts (S.state sink.old) (S.state sink.new)
        (text_line (codes "BAT" ∷ message.now.sender ∷ message.now.id ∷ procedure_word procedure
        ∷ time_or_empty info ∷ time_or_empty till ∷ decimal count ∷ amount_text sum ∷ [])) result }
{
    let info = time_or_empty(info);
    let till = time_or_empty(till);
    let mut digits = Buffer::new();
    let sum = put_cents(sum);
    let fields: [&[u8]; 8] = [
        b"BAT",
        message.sender.as_bytes(),
        message.id.as_bytes(),
        procedure_word(procedure),
        info.as_bytes(),
        till.as_bytes(),
        digits.format(count).as_bytes(),
        sum.as_bytes(),
    ];
    put_fields(sink, &fields)
}

// A time of a batch after its label.
fn labelled_time(label: &str, time: u32) -> ArrayString<13>
    requires label { length label.now ≤ 5 }
    requires time { time ≤ MIDNIGHT }
    ensures { result.bytes ≡ label.now ++ time_text time }
{
    let mut text = ArrayString::new();
    text.push_str(label);
    text.push_str(put_time(time).as_str());
    text
}

// Writes a batch with labels that states no time.
fn put_timeless<S: Sink>(
    message: &MessageRecord,
    procedure: Procedure,
    count: u32,
    sum: Cents,
    sink: &mut S,
) -> Result<(), WriteFault>
    ensures { Puts (S.state sink.old) (S.state sink.new)
        (text_line (codes "BAT" ∷ message.now.sender ∷ message.now.id ∷ procedure_word procedure
        ∷ decimal count ∷ amount_text sum ∷ [])) result }
{
    let mut digits = Buffer::new();
    let sum = put_cents(sum);
    let fields: [&[u8]; 6] = [
        b"BAT",
        message.sender.as_bytes(),
        message.id.as_bytes(),
        procedure_word(procedure),
        digits.format(count).as_bytes(),
        sum.as_bytes(),
    ];
    put_fields(sink, &fields)
}

// Writes a batch with labels that states one time.
fn put_one_time<'a, S: Sink>(
    message: &'a MessageRecord,
    procedure: Procedure,
    count: u32,
    sum: Cents,
    time: &'a [u8],
    sink: &mut S,
) -> Result<(), WriteFault>
    ensures { Puts (S.state sink.old) (S.state sink.new)
        (text_line (codes "BAT" ∷ message.now.sender ∷ message.now.id ∷ procedure_word procedure
        ∷ decimal count ∷ amount_text sum ∷ time.now ∷ [])) result }
{
    let mut digits = Buffer::new();
    let sum = put_cents(sum);
    let fields: [&[u8]; 7] = [
        b"BAT",
        message.sender.as_bytes(),
        message.id.as_bytes(),
        procedure_word(procedure),
        digits.format(count).as_bytes(),
        sum.as_bytes(),
        time,
    ];
    put_fields(sink, &fields)
}

// Writes a batch with labels that states two times.
fn put_two_times<'a, S: Sink>(
    message: &'a MessageRecord,
    procedure: Procedure,
    count: u32,
    sum: Cents,
    time: &'a [u8],
    later: &'a [u8],
    sink: &mut S,
) -> Result<(), WriteFault>
    ensures { Puts (S.state sink.old) (S.state sink.new)
        (text_line (codes "BAT" ∷ message.now.sender ∷ message.now.id ∷ procedure_word procedure
        ∷ decimal count ∷ amount_text sum ∷ time.now ∷ later.now ∷ [])) result }
{
    let mut digits = Buffer::new();
    let sum = put_cents(sum);
    let fields: [&[u8]; 8] = [
        b"BAT",
        message.sender.as_bytes(),
        message.id.as_bytes(),
        procedure_word(procedure),
        digits.format(count).as_bytes(),
        sum.as_bytes(),
        time,
        later,
    ];
    put_fields(sink, &fields)
}

// Writes a batch with labels that states all three times.
fn put_all_times<'a, S: Sink>(
    message: &'a MessageRecord,
    procedure: Procedure,
    count: u32,
    sum: Cents,
    info: &'a [u8],
    from: &'a [u8],
    till: &'a [u8],
    sink: &mut S,
) -> Result<(), WriteFault>
    ensures { Puts (S.state sink.old) (S.state sink.new)
        (text_line (codes "BAT" ∷ message.now.sender ∷ message.now.id ∷ procedure_word procedure
        ∷ decimal count ∷ amount_text sum ∷ info.now ∷ from.now ∷ till.now ∷ [])) result }
{
    let mut digits = Buffer::new();
    let sum = put_cents(sum);
    let fields: [&[u8]; 9] = [
        b"BAT",
        message.sender.as_bytes(),
        message.id.as_bytes(),
        procedure_word(procedure),
        digits.format(count).as_bytes(),
        sum.as_bytes(),
        info,
        from,
        till,
    ];
    put_fields(sink, &fields)
}

// Writes a batch with labels that states this time, and perhaps an end after it.
fn put_till_behind<'a, S: Sink>(
    message: &'a MessageRecord,
    procedure: Procedure,
    count: u32,
    sum: Cents,
    time: &'a [u8],
    till: Option<u32>,
    sink: &mut S,
) -> Result<(), WriteFault>
    requires { is_time_or_none till ≡ true }
    ensures { Puts (S.state sink.old) (S.state sink.new)
        (text_line (codes "BAT" ∷ message.now.sender ∷ message.now.id ∷ procedure_word procedure
        ∷ decimal count ∷ amount_text sum ∷ time.now ∷ time_field till_label till)) result }
{
    match till {
        Some(t) => {
            let till = labelled_time("till=", t);
            put_two_times(message, procedure, count, sum, time, till.as_bytes(), sink)
        }
        None => put_one_time(message, procedure, count, sum, time, sink),
    }
}

// Writes a batch with labels that states an information end and an earliest time.
fn put_till_behind_both<'a, S: Sink>(
    message: &'a MessageRecord,
    procedure: Procedure,
    count: u32,
    sum: Cents,
    info: &'a [u8],
    from: &'a [u8],
    till: Option<u32>,
    sink: &mut S,
) -> Result<(), WriteFault>
    requires { is_time_or_none till ≡ true }
    ensures { Puts (S.state sink.old) (S.state sink.new)
        (text_line (codes "BAT" ∷ message.now.sender ∷ message.now.id ∷ procedure_word procedure
        ∷ decimal count ∷ amount_text sum ∷ info.now ∷ from.now
        ∷ time_field till_label till)) result }
{
    match till {
        Some(t) => {
            let till = labelled_time("till=", t);
            put_all_times(
                message,
                procedure,
                count,
                sum,
                info,
                from,
                till.as_bytes(),
                sink,
            )
        }
        None => put_two_times(message, procedure, count, sum, info, from, sink),
    }
}

// Writes a batch with labels that states an information end.
fn put_behind_info<'a, S: Sink>(
    message: &'a MessageRecord,
    procedure: Procedure,
    count: u32,
    sum: Cents,
    info: &'a [u8],
    from: Option<u32>,
    till: Option<u32>,
    sink: &mut S,
) -> Result<(), WriteFault>
    requires from { is_time_or_none from ≡ true }
    requires till { is_time_or_none till ≡ true }
    ensures { Puts (S.state sink.old) (S.state sink.new)
        (text_line (codes "BAT" ∷ message.now.sender ∷ message.now.id ∷ procedure_word procedure
        ∷ decimal count ∷ amount_text sum ∷ info.now
        ∷ (time_field from_label from ++ time_field till_label till))) result }
{
    match from {
        Some(f) => {
            let from = labelled_time("from=", f);
            put_till_behind_both(
                message,
                procedure,
                count,
                sum,
                info,
                from.as_bytes(),
                till,
                sink,
            )
        }
        None => put_till_behind(message, procedure, count, sum, info, till, sink),
    }
}

// Writes a batch with labels that states no information end.
fn put_without_info<S: Sink>(
    message: &MessageRecord,
    procedure: Procedure,
    count: u32,
    sum: Cents,
    from: Option<u32>,
    till: Option<u32>,
    sink: &mut S,
) -> Result<(), WriteFault>
    requires from { is_time_or_none from ≡ true }
    requires till { is_time_or_none till ≡ true }
    ensures { Puts (S.state sink.old) (S.state sink.new)
        (text_line (codes "BAT" ∷ message.now.sender ∷ message.now.id ∷ procedure_word procedure
        ∷ decimal count ∷ amount_text sum
        ∷ (time_field from_label from ++ time_field till_label till))) result }
{
    match from {
        Some(f) => {
            let from = labelled_time("from=", f);
            put_till_behind(message, procedure, count, sum, from.as_bytes(), till, sink)
        }
        None => match till {
            Some(t) => {
                let till = labelled_time("till=", t);
                put_one_time(message, procedure, count, sum, till.as_bytes(), sink)
            }
            None => put_timeless(message, procedure, count, sum, sink),
        },
    }
}

// Writes a batch with labels.
fn put_second_batch<S: Sink>(
    message: &MessageRecord,
    procedure: Procedure,
    info: Option<u32>,
    from: Option<u32>,
    till: Option<u32>,
    count: u32,
    sum: Cents,
    sink: &mut S,
) -> Result<(), WriteFault>
    requires info { is_time_or_none info ≡ true }
    requires from { is_time_or_none from ≡ true }
    requires till { is_time_or_none till ≡ true }
    ensures { Puts (S.state sink.old) (S.state sink.new)
        (text_line (codes "BAT" ∷ message.now.sender ∷ message.now.id ∷ procedure_word procedure
        ∷ decimal count ∷ amount_text sum ∷ time_fields info from till)) result }
{
    match info {
        Some(i) => {
            let info = labelled_time("info=", i);
            put_behind_info(
                message,
                procedure,
                count,
                sum,
                info.as_bytes(),
                from,
                till,
                sink,
            )
        }
        None => put_without_info(message, procedure, count, sum, from, till, sink),
    }
}

// Writes the record of a batch that a message states, in the form of the version.
#[tactic(auto, unfolding(crate::specs::DayTexts::batch_fields))]
pub fn put_batch<S: Sink>(
    version: u8,
    message: &MessageRecord,
    procedure: Procedure,
    info: Option<u32>,
    from: Option<u32>,
    till: Option<u32>,
    count: u32,
    sum: Cents,
    sink: &mut S,
) -> Result<(), WriteFault>
    requires info { is_time_or_none info ≡ true }
    requires from { is_time_or_none from ≡ true }
    requires till { is_time_or_none till ≡ true }
    ensures { Puts (S.state sink.old) (S.state sink.new)
        (text_line (body_record version message.now.sender message.now.id
        (Body.Batch procedure info from till count sum []))) result }
{
    if has_labels(version) {
        put_second_batch(message, procedure, info, from, till, count, sum, sink)
    } else {
        put_first_batch(message, procedure, info, till, count, sum, sink)
    }
}
