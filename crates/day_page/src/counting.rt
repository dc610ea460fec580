//! The text of a day in figures.
ghost use Rattle.std.specs.Prelude.{◌≡◌, ◌++◌};
ghost use Rattle.std.specs.List.{flat_map};
ghost use Rattle.commit_journal.specs.Histories.{oldest};
ghost use Rattle.outside_io.specs.Calls.{Puts};
ghost use Rattle.day_page.specs.CountTexts.{all_outcomes, count_cells, count_row, count_rows, count_table, counts_text, outcome_cell, outcome_cells, outcome_head, outcome_row, outcome_rows, outcome_table, refusal_cell, refusal_part, refusal_text, refusals, section_end, table_end};

use crate::classes::{
    Class, Outcome, class_word, code_count, left_count, outcome_cents, outcome_count, sent_count,
};
use crate::markup::{amount, put_if, put_pieces};
use crate::past::Past;
use crate::words::Request;
use commit_journal::Code;
use itoa::Buffer;
use outside_io::{Sink, WriteFault, put_all};

// ---- messages by class and code

#[tactic(auto, unfolding(crate::specs::CountTexts::refusal_text))]
fn put_refusal<S: Sink>(code: Code, count: usize, sink: &mut S) -> Result<(), WriteFault>
    ensures { Puts (S.state sink.old) (S.state sink.new) (refusal_text code count) result }
{
    let mut digits = Buffer::new();
    let pieces: [&[u8]; 4] = [
        code.text(),
        b"&nbsp;",
        digits.format(count).as_bytes(),
        b" ",
    ];
    put_if(sink, 0 < count, &pieces)
}

#[tactic(auto, unfolding(crate::specs::CountTexts::refusal_part))]
fn put_refusal_part<S: Sink>(
    past: &Past,
    request: &Request,
    class: Class,
    code: Code,
    sink: &mut S,
) -> Result<(), WriteFault>
    ensures { Puts (S.state sink.old) (S.state sink.new)
        (refusal_part past.now.setting.now.day request.now
        (oldest past.now.journal.now.history past.now.place) class code) result }
{
    put_refusal(code, code_count(past, request, class, code), sink)
}

fn put_refusals<S: Sink>(
    past: &Past,
    request: &Request,
    class: Class,
    codes: &[Code],
    sink: &mut S,
) -> Result<(), WriteFault>
    ensures { Puts (S.state sink.old) (S.state sink.new)
        (flat_map (refusal_part past.now.setting.now.day request.now
        (oldest past.now.journal.now.history past.now.place) class) codes.now) result }
{
    for code in codes {
        put_refusal_part(past, request, class, *code, sink)?;
    }
    Ok(())
}

fn put_all_refusals<S: Sink>(
    past: &Past,
    request: &Request,
    class: Class,
    sink: &mut S,
) -> Result<(), WriteFault>
    ensures { Puts (S.state sink.old) (S.state sink.new)
        (flat_map (refusal_part past.now.setting.now.day request.now
        (oldest past.now.journal.now.history past.now.place) class) refusals) result }
{
    let codes = [
        Code::Du,
        Code::Us,
        Code::Pr,
        Code::Ct,
        Code::Sm,
        Code::Nz,
        Code::En,
        Code::Ti,
        Code::Cy,
        Code::Ac,
        Code::Lk,
        Code::Nc,
        Code::Bt,
        Code::Ph,
        Code::Np,
    ];
    put_refusals(past, request, class, &codes, sink)
}

#[tactic(auto, unfolding(crate::specs::CountTexts::count_cells))]
fn put_count_cells<S: Sink>(
    past: &Past,
    request: &Request,
    class: Class,
    sink: &mut S,
) -> Result<(), WriteFault>
    ensures { Puts (S.state sink.old) (S.state sink.new)
        (count_cells past.now.setting.now.day request.now
        (oldest past.now.journal.now.history past.now.place) class) result }
{
    let mut sent = Buffer::new();
    let mut left = Buffer::new();
    let mut accepted = Buffer::new();
    let pieces: [&[u8]; 9] = [
        b"<tr><th scope='row'>",
        class_word(class),
        b"</th><td>",
        sent.format(sent_count(past.setting, request, class))
            .as_bytes(),
        b"</td><td>",
        left.format(left_count(past, request, class)).as_bytes(),
        b"</td><td>",
        accepted
            .format(code_count(past, request, class, Code::Ok))
            .as_bytes(),
        b"</td><td>",
    ];
    put_pieces(sink, &pieces)
}

#[tactic(auto, unfolding(crate::specs::CountTexts::refusal_cell))]
fn put_refusal_cell<S: Sink>(
    past: &Past,
    request: &Request,
    class: Class,
    sink: &mut S,
) -> Result<(), WriteFault>
    ensures { Puts (S.state sink.old) (S.state sink.new)
        (refusal_cell past.now.setting.now.day request.now
        (oldest past.now.journal.now.history past.now.place) class) result }
{
    put_all_refusals(past, request, class, sink)?;
    put_all(sink, b"</td></tr>\n")
}

#[tactic(auto, unfolding(crate::specs::CountTexts::count_row))]
fn put_count_row<S: Sink>(
    past: &Past,
    request: &Request,
    class: Class,
    sink: &mut S,
) -> Result<(), WriteFault>
    ensures { Puts (S.state sink.old) (S.state sink.new)
        (count_row past.now.setting.now.day request.now
        (oldest past.now.journal.now.history past.now.place) class) result }
{
    put_count_cells(past, request, class, sink)?;
    put_refusal_cell(past, request, class, sink)
}

fn put_rows_of<S: Sink>(
    past: &Past,
    request: &Request,
    classes: &[Class],
    sink: &mut S,
) -> Result<(), WriteFault>
    ensures { Puts (S.state sink.old) (S.state sink.new)
        (flat_map (count_row past.now.setting.now.day request.now
        (oldest past.now.journal.now.history past.now.place)) classes.now) result }
{
    for class in classes {
        put_count_row(past, request, *class, sink)?;
    }
    Ok(())
}

fn put_count_rows<S: Sink>(past: &Past, request: &Request, sink: &mut S) -> Result<(), WriteFault>
    ensures { Puts (S.state sink.old) (S.state sink.new)
        (count_rows past.now.setting.now.day request.now
        (oldest past.now.journal.now.history past.now.place)) result }
{
    let classes = [
        Class::Payment,
        Class::BatchA,
        Class::BatchB,
        Class::BatchC,
        Class::BatchD,
        Class::BatchE,
        Class::Transfer,
        Class::Objection,
        Class::Answer,
        Class::Cycle,
    ];
    put_rows_of(past, request, &classes, sink)
}

fn put_table_end<S: Sink>(sink: &mut S) -> Result<(), WriteFault>
    ensures { Puts (S.state sink.old) (S.state sink.new) table_end result }
{
    put_all(sink, b"</tbody></table></div>\n")
}

fn put_count_body<S: Sink>(past: &Past, request: &Request, sink: &mut S) -> Result<(), WriteFault>
    ensures { Puts (S.state sink.old) (S.state sink.new)
        (count_rows past.now.setting.now.day request.now
        (oldest past.now.journal.now.history past.now.place) ++ table_end) result }
{
    put_count_rows(past, request, sink)?;
    put_table_end(sink)
}

#[tactic(auto, unfolding(crate::specs::CountTexts::count_table))]
fn put_count_table<S: Sink>(past: &Past, request: &Request, sink: &mut S) -> Result<(), WriteFault>
    ensures { Puts (S.state sink.old) (S.state sink.new)
        (count_table past.now.setting.now.day request.now
        (oldest past.now.journal.now.history past.now.place)) result }
{
    put_all(
        sink,
        b"<div class='wide' tabindex='0' role='region' aria-label='Messages by kind and code'><table class='codes'><caption>Messages by kind and code</caption><thead><tr><th scope='col'>Kind</th><th scope='col'>Sent</th><th scope='col'>Not yet taken</th><th scope='col'>Accepted</th><th scope='col'>Rejected, by code</th></tr></thead><tbody>\n",
    )?;
    put_count_body(past, request, sink)
}

// ---- payments and batches by what became of them

#[tactic(auto, unfolding(crate::specs::CountTexts::outcome_cell))]
fn put_outcome_cell<S: Sink>(
    past: &Past,
    request: &Request,
    class: Class,
    outcome: Outcome,
    sink: &mut S,
) -> Result<(), WriteFault>
    ensures { Puts (S.state sink.old) (S.state sink.new)
        (outcome_cell past.now.setting.now.day request.now
        (oldest past.now.journal.now.history past.now.place) class outcome) result }
{
    let mut digits = Buffer::new();
    let sum = amount(outcome_cents(past, request, class, outcome));
    let pieces: [&[u8]; 5] = [
        b"<td>",
        digits
            .format(outcome_count(past, request, class, outcome))
            .as_bytes(),
        b"</td><td>",
        sum.as_bytes(),
        b"</td>",
    ];
    put_pieces(sink, &pieces)
}

fn put_outcomes<S: Sink>(
    past: &Past,
    request: &Request,
    class: Class,
    outcomes: &[Outcome],
    sink: &mut S,
) -> Result<(), WriteFault>
    ensures { Puts (S.state sink.old) (S.state sink.new)
        (flat_map (outcome_cell past.now.setting.now.day request.now
        (oldest past.now.journal.now.history past.now.place) class) outcomes.now) result }
{
    for outcome in outcomes {
        put_outcome_cell(past, request, class, *outcome, sink)?;
    }
    Ok(())
}

fn put_all_outcomes<S: Sink>(
    past: &Past,
    request: &Request,
    class: Class,
    sink: &mut S,
) -> Result<(), WriteFault>
    ensures { Puts (S.state sink.old) (S.state sink.new)
        (flat_map (outcome_cell past.now.setting.now.day request.now
        (oldest past.now.journal.now.history past.now.place) class) all_outcomes) result }
{
    let outcomes = [
        Outcome::Settled,
        Outcome::Revoked,
        Outcome::Closed,
        Outcome::Going,
    ];
    put_outcomes(past, request, class, &outcomes, sink)
}

#[tactic(auto, unfolding(crate::specs::CountTexts::outcome_cells))]
fn put_outcome_cells<S: Sink>(
    past: &Past,
    request: &Request,
    class: Class,
    sink: &mut S,
) -> Result<(), WriteFault>
    ensures { Puts (S.state sink.old) (S.state sink.new)
        (outcome_cells past.now.setting.now.day request.now
        (oldest past.now.journal.now.history past.now.place) class) result }
{
    put_all_outcomes(past, request, class, sink)?;
    put_all(sink, b"</tr>\n")
}

#[tactic(auto, unfolding(crate::specs::CountTexts::outcome_head))]
fn put_outcome_head<S: Sink>(class: Class, sink: &mut S) -> Result<(), WriteFault>
    ensures { Puts (S.state sink.old) (S.state sink.new) (outcome_head class) result }
{
    let pieces: [&[u8]; 3] = [b"<tr><th scope='row'>", class_word(class), b"</th>"];
    put_pieces(sink, &pieces)
}

#[tactic(auto, unfolding(crate::specs::CountTexts::outcome_row))]
fn put_outcome_row<S: Sink>(
    past: &Past,
    request: &Request,
    class: Class,
    sink: &mut S,
) -> Result<(), WriteFault>
    ensures { Puts (S.state sink.old) (S.state sink.new)
        (outcome_row past.now.setting.now.day request.now
        (oldest past.now.journal.now.history past.now.place) class) result }
{
    put_outcome_head(class, sink)?;
    put_outcome_cells(past, request, class, sink)
}

fn put_outcome_rows_of<S: Sink>(
    past: &Past,
    request: &Request,
    classes: &[Class],
    sink: &mut S,
) -> Result<(), WriteFault>
    ensures { Puts (S.state sink.old) (S.state sink.new)
        (flat_map (outcome_row past.now.setting.now.day request.now
        (oldest past.now.journal.now.history past.now.place)) classes.now) result }
{
    for class in classes {
        put_outcome_row(past, request, *class, sink)?;
    }
    Ok(())
}

fn put_outcome_rows<S: Sink>(past: &Past, request: &Request, sink: &mut S) -> Result<(), WriteFault>
    ensures { Puts (S.state sink.old) (S.state sink.new)
        (outcome_rows past.now.setting.now.day request.now
        (oldest past.now.journal.now.history past.now.place)) result }
{
    let classes = [
        Class::Payment,
        Class::BatchA,
        Class::BatchB,
        Class::BatchC,
        Class::BatchD,
        Class::BatchE,
    ];
    put_outcome_rows_of(past, request, &classes, sink)
}

fn put_outcome_body<S: Sink>(past: &Past, request: &Request, sink: &mut S) -> Result<(), WriteFault>
    ensures { Puts (S.state sink.old) (S.state sink.new)
        (outcome_rows past.now.setting.now.day request.now
        (oldest past.now.journal.now.history past.now.place) ++ table_end) result }
{
    put_outcome_rows(past, request, sink)?;
    put_table_end(sink)
}

#[tactic(auto, unfolding(crate::specs::CountTexts::outcome_table))]
fn put_outcome_table<S: Sink>(
    past: &Past,
    request: &Request,
    sink: &mut S,
) -> Result<(), WriteFault>
    ensures { Puts (S.state sink.old) (S.state sink.new)
        (outcome_table past.now.setting.now.day request.now
        (oldest past.now.journal.now.history past.now.place)) result }
{
    put_all(
        sink,
        b"<div class='wide' tabindex='0' role='region' aria-label='What became of payments and batches'><table><caption>Payments and batches by what became of them. The sum of what is settled is what was booked: of a batch of D without the entries that were rejected, of E without those that were revoked. The other sums are as stated; of a closed batch of C or E some entries may be booked</caption><thead><tr><th scope='col'>Kind</th><th scope='col'>Settled</th><th scope='col'>Sum settled</th><th scope='col'>Revoked</th><th scope='col'>Sum revoked</th><th scope='col'>Closed</th><th scope='col'>Sum closed</th><th scope='col'>Still open</th><th scope='col'>Sum open</th></tr></thead><tbody>\n",
    )?;
    put_outcome_body(past, request, sink)
}

// ---- both

fn put_last_table<S: Sink>(past: &Past, request: &Request, sink: &mut S) -> Result<(), WriteFault>
    ensures { Puts (S.state sink.old) (S.state sink.new)
        (outcome_table past.now.setting.now.day request.now
        (oldest past.now.journal.now.history past.now.place) ++ section_end) result }
{
    put_outcome_table(past, request, sink)?;
    put_all(sink, b"</section>\n")
}

fn put_tables<S: Sink>(past: &Past, request: &Request, sink: &mut S) -> Result<(), WriteFault>
    ensures { Puts (S.state sink.old) (S.state sink.new)
        (count_table past.now.setting.now.day request.now
        (oldest past.now.journal.now.history past.now.place)
        ++ (outcome_table past.now.setting.now.day request.now
        (oldest past.now.journal.now.history past.now.place) ++ section_end)) result }
{
    put_count_table(past, request, sink)?;
    put_last_table(past, request, sink)
}

/// Writes the day in figures.
#[tactic(auto, unfolding(crate::specs::CountTexts::counts_text))]
pub fn put_counts<S: Sink>(past: &Past, request: &Request, sink: &mut S) -> Result<(), WriteFault>
    ensures { Puts (S.state sink.old) (S.state sink.new)
        (counts_text past.now.setting.now.day request.now
        (oldest past.now.journal.now.history past.now.place)) result }
{
    put_all(
        sink,
        b"<section id='figures'><h2>The day in figures</h2>\n<p>Of the whole day all messages, of a party those that it sent.</p>\n",
    )?;
    put_tables(past, request, sink)
}
