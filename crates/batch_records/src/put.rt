//! Writing a day.

ghost use Rattle.std.specs.Prelude.{◌≡◌, ◌≤◌, ◌<◌, ◌+◌, ◌++◌, [], length, true};
ghost use Rattle.std.specs.List.{flat_map, list_all, slice_range};
ghost use Rattle.outside_io.specs.Calls.{Puts};
ghost use Rattle.outside_io.specs.TextLine.{text_line};
ghost use Rattle.arrayvec.specs.ArrayVec.{array_vec_len};
ghost use Rattle.batch_records.specs.DayTexts.{account_record, account_text, answer_word, body_record, cycle_word, day_record, day_text, end_record, entry_record, entry_text, kind_word, letter_if, link_text, message_text, moment_records, name_of_account, priority_word, procedure_letters, procedure_or_empty, procedure_word, reserve_record, reserve_text, stop_record, stop_text, system_record, system_text, version_records, version_word};
ghost use Rattle.batch_records.specs.Flat.{body_with_entries, with_entries};
ghost use Rattle.batch_records.specs.Versions.{begins_with_ver, is_third};
ghost use Rattle.batch_records.specs.Meets.{MeetsRules, has_times, is_time};
ghost use Rattle.batch_records.specs.Sound.{entries_in, rounds_rise};
ghost use Rattle.period_calendar.specs.declared.time.TheConstants.{MIDNIGHT};

use crate::day::{Body, Day, Entry, MessageRecord, RecordBody, Reserve};
use crate::put_batches::{procedure_word, put_batch};
use crate::versions::{begins_with_ver, is_third};
use arrayvec::ArrayVec;
use cash_amounts::{AccountKind, AccountRecord, Cents, Name, Procedure, SystemRecord, put_cents};
use outside_io::{Sink, WriteFault, put_fields};
use period_calendar::{BusinessDate, put_time};

fn kind_word<'a>(kind: AccountKind) -> &'a [u8]
    ensures { result.now ≡ kind_word kind }
{
    match kind {
        AccountKind::Dca => b"DCA",
        AccountKind::Sub => b"SUB",
        AccountKind::Tech => b"TEC",
        AccountKind::Fund => b"FND",
    }
}

fn priority_word<'a>(high: bool) -> &'a [u8]
    ensures { result.now ≡ priority_word high }
{
    if high { b"H" } else { b"N" }
}

fn answer_word<'a>(yes: bool) -> &'a [u8]
    ensures { result.now ≡ answer_word yes }
{
    if yes { b"Y" } else { b"N" }
}

fn cycle_word<'a>(start: bool) -> &'a [u8]
    ensures { result.now ≡ cycle_word start }
{
    if start { b"START" } else { b"END" }
}

// Puts a letter at the end of a text that has room for it, where it is listed.
fn push_letter(text: &mut ArrayVec<u8, 5>, listed: bool, letter: u8)
    requires { array_vec_len text.old < 5 }
    ensures items { text.new.items ≡ text.old.items ++ letter_if listed letter }
    ensures len { array_vec_len text.new ≤ array_vec_len text.old + 1 }
{
    if listed {
        text.push(letter);
    }
}

// The letters of those of A to E that are listed.
#[tactic(auto, unfolding(crate::specs::DayTexts::procedure_letters))]
fn procedure_letters(listed: [bool; 5]) -> ArrayVec<u8, 5>
    ensures { result.items ≡ procedure_letters listed }
{
    let mut text = ArrayVec::new();
    push_letter(&mut text, listed[0], b'A');
    push_letter(&mut text, listed[1], b'B');
    push_letter(&mut text, listed[2], b'C');
    push_letter(&mut text, listed[3], b'D');
    push_letter(&mut text, listed[4], b'E');
    text
}

fn name_or_empty(name: &Option<Name>) -> &[u8]
    ensures { result.now ≡ link_text AccountKind.Sub name.now None }
{
    match name {
        Some(name) => name.as_bytes(),
        None => b"",
    }
}

fn procedure_or_empty<'a>(procedure: Option<Procedure>) -> &'a [u8]
    ensures { result.now ≡ procedure_or_empty procedure }
{
    match procedure {
        Some(procedure) => procedure_word(procedure),
        None => b"",
    }
}

// The system of a sub-account, the procedure of a technical account, and else nothing.
fn link_text(account: &AccountRecord) -> &[u8]
    ensures { result.now ≡ link_text account.now.kind account.now.system account.now.procedure }
{
    match account.kind {
        AccountKind::Sub => name_or_empty(&account.system),
        AccountKind::Tech => procedure_or_empty(account.procedure),
        _ => b"",
    }
}

// The word of a version that VER states.
fn version_word(version: u8) -> &'static [u8]
    ensures { result.now ≡ version_word version }
{
    if is_third(version) { b"3" } else { b"2" }
}

// Writes VER, in a day of version 2 or 3.
fn put_version<S: Sink>(version: u8, sink: &mut S) -> Result<(), WriteFault>
    ensures { Puts (S.state sink.old) (S.state sink.new)
        (flat_map text_line (version_records version)) result }
{
    if begins_with_ver(version) {
        let fields: [&[u8]; 2] = [b"VER", version_word(version)];
        put_fields(sink, &fields)
    } else {
        Ok(())
    }
}

fn put_date<S: Sink>(date: BusinessDate, sink: &mut S) -> Result<(), WriteFault>
    ensures { Puts (S.state sink.old) (S.state sink.new) (text_line (day_record date)) result }
{
    let text = date.put();
    let fields: [&[u8]; 2] = [b"DAY", text.as_bytes()];
    put_fields(sink, &fields)
}

fn put_system<S: Sink>(system: &SystemRecord, sink: &mut S) -> Result<(), WriteFault>
    ensures { Puts (S.state sink.old) (S.state sink.new) (text_line (system_record system.now))
        result }
{
    let letters = procedure_letters(system.procedures);
    let fields: [&[u8]; 3] = [b"AS", system.name.as_bytes(), letters.as_slice()];
    put_fields(sink, &fields)
}

fn put_account<S: Sink>(account: &AccountRecord, sink: &mut S) -> Result<(), WriteFault>
    ensures { Puts (S.state sink.old) (S.state sink.new) (text_line (account_record account.now))
        result }
{
    let opening = put_cents(account.opening);
    let fields: [&[u8]; 6] = [
        b"ACC",
        account.name.as_bytes(),
        kind_word(account.kind),
        account.owner.as_bytes(),
        link_text(account),
        opening.as_bytes(),
    ];
    put_fields(sink, &fields)
}

// The name of the account of a number, empty where there is none.
fn name_of_account(accounts: &[AccountRecord], a: u32) -> &[u8]
    ensures { result.now ≡ name_of_account accounts.now a }
{
    if a == 0 {
        return b"";
    }
    match accounts.get(a as usize - 1) {
        Some(account) => account.name.as_bytes(),
        None => b"",
    }
}

fn put_reserve<'a, S: Sink>(
    accounts: &'a [AccountRecord],
    reserve: &'a Reserve,
    sink: &mut S,
) -> Result<(), WriteFault>
    ensures { Puts (S.state sink.old) (S.state sink.new)
        (text_line (reserve_record accounts.now reserve.now)) result }
{
    let urgent = put_cents(reserve.urgent);
    let high = put_cents(reserve.high);
    let fields: [&[u8]; 4] = [
        b"RES",
        name_of_account(accounts, reserve.account),
        urgent.as_bytes(),
        high.as_bytes(),
    ];
    put_fields(sink, &fields)
}

fn put_stop<S: Sink>(stop: u32, sink: &mut S) -> Result<(), WriteFault>
    requires { stop ≤ MIDNIGHT }
    ensures { Puts (S.state sink.old) (S.state sink.new) (text_line (stop_record stop)) result }
{
    let time = put_time(stop);
    let fields: [&[u8]; 2] = [b"TIM", time.as_bytes()];
    put_fields(sink, &fields)
}

fn put_entry<S: Sink>(entry: &Entry, sink: &mut S) -> Result<(), WriteFault>
    ensures { Puts (S.state sink.old) (S.state sink.new) (text_line (entry_record entry.now))
        result }
{
    let amount = put_cents(entry.amount);
    let fields: [&[u8]; 4] = [
        b"ENT",
        entry.debit.as_bytes(),
        entry.credit.as_bytes(),
        amount.as_bytes(),
    ];
    put_fields(sink, &fields)
}

fn put_systems<S: Sink>(systems: &[SystemRecord], sink: &mut S) -> Result<(), WriteFault>
    ensures { Puts (S.state sink.old) (S.state sink.new) (flat_map system_text systems.now) result }
{
    for system in systems {
        put_system(system, sink)?;
    }
    Ok(())
}

fn put_accounts<S: Sink>(accounts: &[AccountRecord], sink: &mut S) -> Result<(), WriteFault>
    ensures { Puts (S.state sink.old) (S.state sink.new) (flat_map account_text accounts.now)
        result }
{
    for account in accounts {
        put_account(account, sink)?;
    }
    Ok(())
}

fn put_reserves<S: Sink>(
    accounts: &[AccountRecord],
    reserves: &[Reserve],
    sink: &mut S,
) -> Result<(), WriteFault>
    ensures { Puts (S.state sink.old) (S.state sink.new)
        (flat_map (reserve_text accounts.now) reserves.now) result }
{
    for reserve in reserves {
        put_reserve(accounts, reserve, sink)?;
    }
    Ok(())
}

fn put_stops<S: Sink>(stops: &[u32], sink: &mut S) -> Result<(), WriteFault>
    requires { list_all is_time stops.now ≡ true }
    ensures { Puts (S.state sink.old) (S.state sink.new) (flat_map stop_text stops.now) result }
{
    for stop in stops {
        put_stop(*stop, sink)?;
    }
    Ok(())
}

fn put_entries<S: Sink>(entries: &[Entry], sink: &mut S) -> Result<(), WriteFault>
    ensures { Puts (S.state sink.old) (S.state sink.new) (flat_map entry_text entries.now) result }
{
    for entry in entries {
        put_entry(entry, sink)?;
    }
    Ok(())
}

// Writes the record of a payment that a message states.
fn put_payment<'a, S: Sink>(
    message: &'a MessageRecord,
    high: bool,
    debit: &'a Name,
    credit: &'a Name,
    amount: Cents,
    sink: &mut S,
) -> Result<(), WriteFault>
    ensures { Puts (S.state sink.old) (S.state sink.new)
        (text_line (body_record 1 message.now.sender message.now.id
        (Body.Pay high debit.now credit.now amount))) result }
{
    let amount = put_cents(amount);
    let fields: [&[u8]; 7] = [
        b"PAY",
        message.sender.as_bytes(),
        message.id.as_bytes(),
        priority_word(high),
        debit.as_bytes(),
        credit.as_bytes(),
        amount.as_bytes(),
    ];
    put_fields(sink, &fields)
}

// Writes the record of a liquidity transfer that a message states.
fn put_transfer<'a, S: Sink>(
    message: &'a MessageRecord,
    debit: &'a Name,
    credit: &'a Name,
    amount: Cents,
    sink: &mut S,
) -> Result<(), WriteFault>
    ensures { Puts (S.state sink.old) (S.state sink.new)
        (text_line (body_record 1 message.now.sender message.now.id
        (Body.Liquidity debit.now credit.now amount))) result }
{
    let amount = put_cents(amount);
    let fields: [&[u8]; 6] = [
        b"LIQ",
        message.sender.as_bytes(),
        message.id.as_bytes(),
        debit.as_bytes(),
        credit.as_bytes(),
        amount.as_bytes(),
    ];
    put_fields(sink, &fields)
}

// Writes the record of a message, without its entries.
fn put_body<S: Sink>(version: u8, message: &MessageRecord, sink: &mut S) -> Result<(), WriteFault>
    requires { has_times (body_with_entries message.now.body []) ≡ true }
    ensures { Puts (S.state sink.old) (S.state sink.new)
        (text_line (body_record version message.now.sender message.now.id
        (body_with_entries message.now.body []))) result }
{
    let sender = message.sender.as_bytes();
    let id = message.id.as_bytes();
    match &message.body {
        RecordBody::Batch {
            procedure,
            info,
            from,
            till,
            count,
            sum,
        } => put_batch(
            version, message, *procedure, *info, *from, *till, *count, *sum, sink,
        ),
        RecordBody::Pay {
            high,
            debit,
            credit,
            amount,
        } => put_payment(message, *high, debit, credit, *amount, sink),
        RecordBody::Liquidity {
            debit,
            credit,
            amount,
        } => put_transfer(message, debit, credit, *amount, sink),
        RecordBody::Object { system, batch } => {
            let fields: [&[u8]; 5] = [b"OBJ", sender, id, system.as_bytes(), batch.as_bytes()];
            put_fields(sink, &fields)
        }
        RecordBody::Confirm { batch, yes } => {
            let fields: [&[u8]; 5] = [b"CNF", sender, id, batch.as_bytes(), answer_word(*yes)];
            put_fields(sink, &fields)
        }
        RecordBody::Cycle { start } => {
            let fields: [&[u8]; 4] = [b"CYC", sender, id, cycle_word(*start)];
            put_fields(sink, &fields)
        }
    }
}

// Writes a message, and directly after it its entries.
fn put_message<'a, S: Sink>(
    version: u8,
    message: &'a MessageRecord,
    entries: &'a [Entry],
    sink: &mut S,
) -> Result<(), WriteFault>
    requires times { has_times (body_with_entries message.now.body []) ≡ true }
    requires entries { entries_in (body_with_entries message.now.body entries.now) ≡ entries.now }
    ensures { Puts (S.state sink.old) (S.state sink.new)
        (message_text version (with_entries message.now entries.now)) result }
{
    put_body(version, message, sink)?;
    put_entries(entries, sink)
}

// Writes a message with its entries after these stops.
fn put_moment<'a, S: Sink>(
    version: u8,
    stops: &'a [u32],
    message: &'a MessageRecord,
    entries: &'a [Entry],
    sink: &mut S,
) -> Result<(), WriteFault>
    requires stops { list_all is_time stops.now ≡ true }
    requires times { has_times (body_with_entries message.now.body []) ≡ true }
    requires entries { entries_in (body_with_entries message.now.body entries.now) ≡ entries.now }
    ensures { Puts (S.state sink.old) (S.state sink.new)
        (flat_map stop_text stops.now ++ message_text version (with_entries message.now entries.now))
        result }
{
    put_stops(stops, sink)?;
    put_message(version, message, entries, sink)
}

// The stops from one index on up to another.
fn stops_between(stops: &[u32], passed: usize, round: usize) -> &[u32]
    requires first { passed ≤ round }
    requires last { round ≤ length stops.now }
    ensures { result.now ≡ slice_range stops.now passed round }
{
    &stops[passed..round]
}

// Writes the messages and stops by round.
fn put_moments<S: Sink>(
    version: u8,
    stops: &[u32],
    day: &Day,
    sink: &mut S,
) -> Result<(), WriteFault>
    requires stops { list_all is_time stops.now ≡ true }
    requires ends { list_all (λ m. has_times m.body) day.now.messages ≡ true }
    requires rounds { rounds_rise (length stops.now) 0 day.now.messages ≡ true }
    ensures { Puts (S.state sink.old) (S.state sink.new)
        (flat_map text_line (moment_records version stops.now 0 day.now.messages)) result }
{
    let mut passed = 0;
    for i in 0..day.message_count() {
        let message = day.message(i);
        let round = message.round as usize;
        let entries = day.entries(i);
        let part = stops_between(stops, passed, round);
        put_moment(version, part, message, entries, sink)?;
        passed = round;
    }
    put_stops(&stops[passed..], sink)
}

fn put_end<S: Sink>(sink: &mut S) -> Result<(), WriteFault>
    ensures { Puts (S.state sink.old) (S.state sink.new) (text_line end_record) result }
{
    let fields: [&[u8]; 1] = [b"END"];
    put_fields(sink, &fields)
}

// Writes what stands in front of the systems.
fn put_head<S: Sink>(day: &Day, sink: &mut S) -> Result<(), WriteFault>
    ensures { Puts (S.state sink.old) (S.state sink.new)
        (flat_map text_line (version_records day.now.version)
        ++ text_line (day_record day.now.date)) result }
{
    put_version(day.version(), sink)?;
    put_date(day.date(), sink)
}

// Writes what stands in front of the accounts.
fn put_front<S: Sink>(day: &Day, sink: &mut S) -> Result<(), WriteFault>
    ensures { Puts (S.state sink.old) (S.state sink.new)
        ((flat_map text_line (version_records day.now.version)
        ++ text_line (day_record day.now.date)) ++ flat_map system_text day.now.systems) result }
{
    put_head(day, sink)?;
    put_systems(day.systems(), sink)
}

// Writes what stands in front of what the accounts keep.
fn put_setup<S: Sink>(day: &Day, sink: &mut S) -> Result<(), WriteFault>
    ensures { Puts (S.state sink.old) (S.state sink.new)
        ((flat_map text_line (version_records day.now.version)
        ++ text_line (day_record day.now.date)) ++ flat_map system_text day.now.systems
        ++ flat_map account_text day.now.accounts) result }
{
    put_front(day, sink)?;
    put_accounts(day.accounts(), sink)
}

// Writes what stands in front of the messages.
fn put_kept<S: Sink>(day: &Day, sink: &mut S) -> Result<(), WriteFault>
    ensures { Puts (S.state sink.old) (S.state sink.new)
        (((flat_map text_line (version_records day.now.version)
        ++ text_line (day_record day.now.date)) ++ flat_map system_text day.now.systems
        ++ flat_map account_text day.now.accounts)
        ++ flat_map (reserve_text day.now.accounts) day.now.reserves) result }
{
    put_setup(day, sink)?;
    put_reserves(day.accounts(), day.reserves(), sink)
}

// Writes what stands after what the accounts keep.
fn put_rest<S: Sink>(day: &Day, sink: &mut S) -> Result<(), WriteFault>
    requires { MeetsRules day.now }
    ensures { Puts (S.state sink.old) (S.state sink.new)
        (flat_map text_line (moment_records day.now.version day.now.stops 0 day.now.messages)
        ++ text_line end_record) result }
{
    put_moments(day.version(), day.stops(), day, sink)?;
    put_end(sink)
}

/// Writes the file of a day that meets the rules, in the form of its version: VER where that is 2 or 3, DAY, all systems, all
/// accounts, all that they keep, then messages with their entries and stops by round, and END, each ended by LF. It takes no memory. At an error a
/// front of the file was written, and the sink's count of faults has risen.
pub fn put_day<S: Sink>(day: &Day, sink: &mut S) -> Result<(), WriteFault>
    requires { MeetsRules day.now }
    ensures { Puts (S.state sink.old) (S.state sink.new) (day_text day.now) result }
{
    put_kept(day, sink)?;
    put_rest(day, sink)
}
