//! The entries of a batch of E that an accepted objection revokes, told one after another.
ghost use Rattle.std.specs.Prelude.{◌≡◌, ◌||◌, true, nat_le, nat_lt, IfSome, if◌then◌else◌};
ghost use Rattle.std.specs.List.{flat_map};
ghost use Rattle.outside_io.specs.Calls.{Puts};
ghost use Rattle.commit_journal.specs.Histories.{oldest};
ghost use Rattle.machine.specs.Records.Messages.{entry_numbers, is_e, sort_of};
ghost use Rattle.status_messages.specs.LineTexts.{entries_text, entry_revocation, text_unless};
ghost use Rattle.status_messages.specs.Revoking.{IsAgain, IsLine, TellsNoOther, rises_from};

use crate::noted::Noted;
use crate::status::TurnCode;
use crate::told::put_told;
use cash_amounts::MessageNumber;
use commit_journal::{Code, Head};
use outside_io::{Sink, WriteFault};
use rule_book::parties::{entry_of, party_keys};
use rule_book::parts::{entry_count, message};
use rule_book::sorts::is_e;

// That entry k is revoked, where the newest of these lines was the first to revoke it.
fn put_entry_revocation<S: Sink>(
    lines: &Noted,
    b: u32,
    k: u32,
    sink: &mut S,
) -> Result<(), WriteFault>
    ensures { Puts (S.state sink.old) (S.state sink.new)
        (entry_revocation lines.now.setting.now.day
        (oldest lines.now.journal.now.history lines.now.place) lines.now.place b k) result }
{
    if lines.is_revoked_here(b, k) {
        let day = &lines.setting.day;
        put_told(day, lines.place, TurnCode::Rvkd, b, k, Code::Ok, sink)
    } else {
        Ok(())
    }
}

// Goes along all entries.
fn put_all_entries<S: Sink>(lines: &Noted, b: u32, sink: &mut S) -> Result<(), WriteFault>
    ensures { Puts (S.state sink.old) (S.state sink.new)
        (flat_map (entry_revocation lines.now.setting.now.day
        (oldest lines.now.journal.now.history lines.now.place) lines.now.place b)
        (entry_numbers lines.now.setting.now.day b)) result }
{
    for before in 0..entry_count(lines.setting, b) {
        put_entry_revocation(lines, b, before + 1, sink)?;
    }
    Ok(())
}

// ---- the entries of the one who objects

// Whether the entries that the keys name rise.
fn rise(keys: &[u64]) -> bool
    ensures { result ≡ rises_from 0 keys.now }
{
    let mut last = 0;
    for key in keys {
        let k = entry_of(*key);
        if k < last {
            return false;
        }
        last = k;
    }
    true
}

// Whether message n repeats an objection to the batch that was accepted before it.
fn is_again(lines: &Noted, b: u32, n: u32) -> bool
    ensures { result ≡ true → IsAgain lines.now.setting.now.day
        (oldest lines.now.journal.now.history lines.now.place) n }
{
    match lines.facts.repeated(lines.setting, b, n) {
        Some(m) => m != n,
        None => false,
    }
}

fn keys_of_sender<'a>(lines: &'a Noted, b: u32, head: Head) -> Option<&'a [u64]>
    requires e { is_e (sort_of lines.now.setting.now.day b) ≡ true }
    requires line { IsLine lines.now.journal.now.history lines.now.place head }
    ensures { IfSome result (λ keys. TellsNoOther lines.now.setting.now.day
        (oldest lines.now.journal.now.history lines.now.place) lines.now.place b keys.now) }
{
    match message(&lines.setting.day, head.msg) {
        Some(message) => party_keys(lines.setting, b, &message.sender),
        None => None,
    }
}

// Keys that name all entries of the batch that the line of this head, at the place, can revoke: none, where it repeats an
// accepted objection.
fn keys_of_line<'a>(lines: &'a Noted, b: u32, head: Head) -> Option<&'a [u64]>
    requires e { is_e (sort_of lines.now.setting.now.day b) ≡ true }
    requires line { IsLine lines.now.journal.now.history lines.now.place head }
    ensures { IfSome result (λ keys. TellsNoOther lines.now.setting.now.day
        (oldest lines.now.journal.now.history lines.now.place) lines.now.place b keys.now) }
{
    if is_again(lines, b, head.msg) {
        return Some(&[]);
    }
    keys_of_sender(lines, b, head)
}

fn keys_of_newest<'a>(lines: &'a Noted, b: u32) -> Option<&'a [u64]>
    requires { is_e (sort_of lines.now.setting.now.day b) ≡ true }
    ensures { IfSome result (λ keys. TellsNoOther lines.now.setting.now.day
        (oldest lines.now.journal.now.history lines.now.place) lines.now.place b keys.now) }
{
    let place = lines.place;
    if place == 0 {
        return None;
    }
    if place > lines.journal.len() {
        return None;
    }
    let (head, _) = lines.journal.line(place);
    keys_of_line(lines, b, head)
}

// The keys, where they are fewer than the entries, and the entries rise that they name.
fn few_keys<'a>(lines: &'a Noted, b: u32) -> Option<&'a [u64]>
    requires { is_e (sort_of lines.now.setting.now.day b) ≡ true }
    ensures rises { IfSome result (λ keys. rises_from 0 keys.now ≡ true) }
    ensures named { IfSome result (λ keys. TellsNoOther lines.now.setting.now.day
        (oldest lines.now.journal.now.history lines.now.place) lines.now.place b keys.now) }
{
    let Some(keys) = keys_of_newest(lines, b) else {
        return None;
    };
    if keys.len() >= entry_count(lines.setting, b) as usize {
        return None;
    }
    if rise(keys) { Some(keys) } else { None }
}

// Whether entry k is passed over, where those up to another one are told.
fn is_passed_over(told: u32, k: u32, count: u32) -> bool
    ensures { result ≡ (nat_le k told || nat_lt count k) }
{
    k <= told || count < k
}

fn told_then(passed_over: bool, told: u32, k: u32) -> u32
    ensures { result ≡ (if passed_over then told else k) }
{
    if passed_over { told } else { k }
}

fn put_unless<S: Sink>(
    passed_over: bool,
    lines: &Noted,
    b: u32,
    k: u32,
    sink: &mut S,
) -> Result<(), WriteFault>
    ensures { Puts (S.state sink.old) (S.state sink.new) (text_unless passed_over
        (entry_revocation lines.now.setting.now.day
        (oldest lines.now.journal.now.history lines.now.place) lines.now.place b k)) result }
{
    if passed_over {
        Ok(())
    } else {
        put_entry_revocation(lines, b, k, sink)
    }
}

// Goes along the entries that the keys name, as no other is told.
fn put_listed<S: Sink>(lines: &Noted, b: u32, keys: &[u64], sink: &mut S) -> Result<(), WriteFault>
    requires rises { rises_from 0 keys.now ≡ true }
    requires named { TellsNoOther lines.now.setting.now.day
        (oldest lines.now.journal.now.history lines.now.place) lines.now.place b keys.now }
    ensures { Puts (S.state sink.old) (S.state sink.new)
        (flat_map (entry_revocation lines.now.setting.now.day
        (oldest lines.now.journal.now.history lines.now.place) lines.now.place b)
        (entry_numbers lines.now.setting.now.day b)) result }
{
    let count = entry_count(lines.setting, b);
    let mut told = 0;
    for key in keys {
        let k = entry_of(*key);
        let passed_over = is_passed_over(told, k, count);
        put_unless(passed_over, lines, b, k, sink)?;
        told = told_then(passed_over, told, k);
    }
    Ok(())
}

// ---- all of them

fn put_entries<S: Sink>(lines: &Noted, b: u32, sink: &mut S) -> Result<(), WriteFault>
    requires { is_e (sort_of lines.now.setting.now.day b) ≡ true }
    ensures { Puts (S.state sink.old) (S.state sink.new)
        (flat_map (entry_revocation lines.now.setting.now.day
        (oldest lines.now.journal.now.history lines.now.place) lines.now.place b)
        (entry_numbers lines.now.setting.now.day b)) result }
{
    match few_keys(lines, b) {
        Some(keys) => put_listed(lines, b, keys, sink),
        None => put_all_entries(lines, b, sink),
    }
}

// Which entries of an E batch the newest of these lines revokes.
pub fn put_entry_revocations<S: Sink>(
    lines: &Noted,
    b: MessageNumber,
    sink: &mut S,
) -> Result<(), WriteFault>
    ensures { Puts (S.state sink.old) (S.state sink.new)
        (entries_text lines.now.setting.now.day
        (oldest lines.now.journal.now.history lines.now.place) lines.now.place b) result }
{
    if is_e(lines.setting, b) {
        put_entries(lines, b, sink)
    } else {
        Ok(())
    }
}
