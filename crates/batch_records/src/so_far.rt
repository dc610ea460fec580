//! What the records before a record come to, and what is wrong with that record.

ghost use Rattle.std.specs.Prelude.{◌≡◌, ◌||◌, ◌≤◌, ◌<◌, ◌+◌, ◌^◌, [], IfErr, IfOk, OnOk, Ok, Err, None, Some, find, get_or, if◌then◌else◌, is_some, length, nat_eq, nat_lt, not, true, false};
ghost use Rattle.std.specs.List.{list_any};
ghost use Rattle.cash_amounts.specs.declared.cents.TheConstants.{MAX_CENTS};
ghost use Rattle.cash_amounts.specs.declared.limits.TheConstants.{MAX_ACCOUNTS, MAX_ENTRIES_OF_DAY, MAX_SYSTEMS};
ghost use Rattle.period_calendar.specs.Times.{time_of_text};
ghost use Rattle.batch_records.specs.Amounts.{amount_in};
ghost use Rattle.batch_records.specs.Flat.{with_entries};
ghost use Rattle.batch_records.specs.Codes.{codes_in_order, first_code, has_bad_setup, has_bad_time, is_kept_already, is_next_stop, is_out_of_place, is_past_limit, is_role_taken, is_twice, is_unfit, last_entries};
ghost use Rattle.batch_records.specs.CodesByKind.{applies_to};
ghost use Rattle.batch_records.specs.Made.{day_in, last_stop, so_far_of};
ghost use Rattle.batch_records.specs.Versions.{from_text, info_text, is_no_time, till_text};
ghost use Rattle.batch_records.specs.Step.{FaultIs, IsAccount, IsEntry, IsInStep, IsReserve, IsSystem, after, after_kind, with_message};
ghost use Rattle.batch_records.specs.Tallies.{IsSmall, is_behind_setup, is_setup_over, tally_of};
ghost use Rattle.batch_records.specs.declared.kinds.RecordKind.TheVariants as record_kinds;

use crate::day::{Day, DayCode, DayFault, DayRoom, MessageRecord, Reserve};
use crate::kinds::{
    RecordKind, account_kind_in, amount_in, field, has_bad_amount, has_bad_date, has_bad_id,
    has_bad_name, has_bad_number, has_closing_date, has_other_fields, has_other_word, is_message,
    kind_named,
};
use crate::lists::{Messages, Stops};
use crate::register::Register;
use crate::setup::{has_fund, has_technical, is_listed, is_system_name, lists};
use crate::setup_lists::{HeldReserves, HeldSystems};
use crate::stated::{
    account_from, answer_from, batch_from, cycle_from, date_in, entry_from, objection_from,
    payment_from, reserve_from, stop_from, system_from, transfer_from,
};
use crate::tally::Tally;
use crate::versions::{
    begins_with_ver, from_text, info_text, is_no_time, most_entries, most_entries_of_day,
    most_messages, till_text,
};
use crate::words::{technical_named, version_named};
use cash_amounts::{AccountKind, MAX_ACCOUNTS, MAX_CENTS, MAX_SYSTEMS, Memory, Procedure};
use period_calendar::{BusinessDate, MIDNIGHT, read_time};
use record_rows::Row;
use std::alloc::Global;

/// What the records so far come to, with room for as large a setup as there can be.
#[derive(Drop)]
pub struct SoFar {
    /// The version of their day: the one that VER stated, and else 1.
    pub version: u8,
    /// The date that DAY states.
    pub date: Option<BusinessDate>,
    pub accounts: Register,
    pub systems: HeldSystems,
    pub reserves: HeldReserves,
    pub stops: Stops,
    pub messages: Messages,
    /// The sum of the openings, in cents.
    pub opened: u64,
    /// There was DAY.
    pub started: bool,
    /// There was a record after which neither a system nor an account nor what one keeps may stand.
    pub begun: bool,
    /// There was END.
    pub ended: bool,
    /// The last records are a batch and its entries.
    pub in_batch: bool,
    /// How many entries there were.
    pub entries: u32,
}

// The codes of a record in the order in which they are told.
const CODES: [DayCode; 13] = [
    DayCode::Fields,
    DayCode::Kind,
    DayCode::Place,
    DayCode::Date,
    DayCode::Closed,
    DayCode::Name,
    DayCode::Id,
    DayCode::Number,
    DayCode::Amount,
    DayCode::Time,
    DayCode::Twice,
    DayCode::Setup,
    DayCode::Limit,
];

impl SoFar {
    /// No records. `Memory` says that there wasn't enough of it for the greatest setup.
    #[tactic(auto, unfolding(crate::specs::Made::so_far_of, crate::specs::Made::accounts_of, crate::specs::Made::systems_of, crate::specs::Made::reserves_from, crate::specs::Made::stops_of, crate::specs::Made::messages_from, crate::specs::Made::version_of))]
    pub fn with_room(alloc: Global) -> Result<SoFar, Memory>
        ensures none { IfOk result (λ so_far. so_far ≡ so_far_of []) }
        ensures step { IfOk result IsInStep }
    {
        let accounts = Register::with_room(alloc)?;
        let systems = HeldSystems::with_room(alloc)?;
        let reserves = HeldReserves::with_room(alloc)?;
        Ok(SoFar {
            version: 1,
            date: None,
            accounts,
            systems,
            reserves,
            stops: Stops::new(alloc),
            messages: Messages::new(alloc),
            opened: 0,
            started: false,
            begun: false,
            ended: false,
            in_batch: false,
            entries: 0,
        })
    }

    #[tactic(auto, unfolding(crate::specs::Codes::is_out_of_place))]
    fn is_out_of_place(&self, kind: RecordKind) -> bool
        ensures { result ≡ is_out_of_place kind self.now }
    {
        match kind {
            RecordKind::Ver => self.started || begins_with_ver(self.version),
            RecordKind::Day => self.started,
            RecordKind::As | RecordKind::Acc | RecordKind::Res => {
                !self.started || self.ended || self.begun
            }
            RecordKind::Ent => !self.started || self.ended || !self.in_batch,
            _ => !self.started || self.ended,
        }
    }

    // Whether a time that a batch states is none.
    fn states_no_time(&self, row: &Row) -> bool
        ensures { result ≡ (is_no_time (info_text self.now.version row.now)
            || is_no_time (from_text self.now.version row.now)
            || is_no_time (till_text self.now.version row.now)) }
    {
        is_no_time(info_text(self.version, row))
            || is_no_time(from_text(self.version, row))
            || is_no_time(till_text(self.version, row))
    }

    #[tactic(auto, unfolding(crate::specs::Codes::has_bad_time))]
    fn has_bad_time(&self, kind: RecordKind, row: &Row) -> bool
        ensures { result ≡ has_bad_time kind self.now row.now }
    {
        match kind {
            RecordKind::Bat => self.states_no_time(row),
            RecordKind::Tim => {
                let last = last_stop(self.stops.as_slice());
                !is_next_stop(last, read_time(field(row, 1)))
            }
            _ => false,
        }
    }

    // Whether an earlier account has the place of this one in the setup.
    #[tactic(auto, unfolding(crate::specs::Codes::is_role_taken))]
    fn is_role_taken(&self, kind: AccountKind, row: &Row) -> bool
        ensures { result ≡ is_role_taken kind self.now row.now }
    {
        let accounts = self.accounts.as_slice();
        match kind {
            AccountKind::Tech => {
                has_technical(accounts, field(row, 3), technical_named(field(row, 4)))
            }
            AccountKind::Fund => has_fund(accounts, field(row, 3)),
            _ => false,
        }
    }

    // Whether an account of this kind doesn't fit the setup.
    #[tactic(auto, unfolding(crate::specs::Codes::is_unfit))]
    fn is_unfit(&self, kind: AccountKind, row: &Row) -> bool
        ensures { result ≡ is_unfit kind self.now row.now }
    {
        let owner = field(row, 3);
        let link = field(row, 4);
        let systems = self.systems.as_slice();
        match kind {
            AccountKind::Dca => !link.is_empty() || is_system_name(systems, owner),
            AccountKind::Sub => {
                !self.accounts.owns_dca(owner)
                    || !lists(systems, link, Procedure::C)
                    || amount_in(field(row, 5)) != 0
            }
            AccountKind::Tech => {
                !is_listed(systems, owner, technical_named(link)) || amount_in(field(row, 5)) != 0
            }
            AccountKind::Fund => !is_system_name(systems, owner) || !link.is_empty(),
        }
    }

    // Whether the account of this name keeps amounts already.
    #[tactic(auto, unfolding(crate::specs::Codes::is_kept_already))]
    fn is_kept_already(&self, name: &[u8]) -> bool
        ensures { result ≡ is_kept_already self.now name.now }
    {
        match self.accounts.number(name) {
            Some(a) => keeps_already(self.reserves.as_slice(), a),
            None => false,
        }
    }

    #[tactic(auto, unfolding(crate::specs::Codes::is_twice))]
    fn is_twice(&self, kind: RecordKind, row: &Row) -> bool
        ensures { result ≡ is_twice kind self.now row.now }
    {
        match kind {
            RecordKind::As => is_system_name(self.systems.as_slice(), field(row, 1)),
            RecordKind::Acc => {
                self.accounts.has_account(field(row, 1))
                    || self.is_role_taken(account_kind_in(row), row)
            }
            RecordKind::Res => self.is_kept_already(field(row, 1)),
            _ => false,
        }
    }

    #[tactic(auto, unfolding(crate::specs::Codes::has_bad_setup))]
    fn has_bad_setup(&self, kind: RecordKind, row: &Row) -> bool
        ensures { result ≡ has_bad_setup kind self.now row.now }
    {
        match kind {
            RecordKind::As => self.accounts.owns_dca(field(row, 1)),
            RecordKind::Acc => self.is_unfit(account_kind_in(row), row),
            RecordKind::Res => !self.accounts.has_dca(field(row, 1)),
            _ => false,
        }
    }

    #[tactic(auto, unfolding(crate::specs::Codes::is_past_limit))]
    fn is_past_limit(&self, kind: RecordKind, row: &Row) -> bool
        ensures { result ≡ is_past_limit kind self.now row.now }
    {
        match kind {
            RecordKind::As => MAX_SYSTEMS <= self.systems.as_slice().len(),
            RecordKind::Acc => {
                MAX_ACCOUNTS <= self.accounts.as_slice().len()
                    || passes(self.opened, amount_in(field(row, 5)))
            }
            RecordKind::Res => passes(amount_in(field(row, 2)), amount_in(field(row, 3))),
            RecordKind::Ent => {
                most_entries(self.version) <= last_entries(&self.messages)
                    || most_entries_of_day(self.version) <= self.entries as usize
            }
            _ => { is_message(kind) && most_messages(self.version) <= self.messages.len() }
        }
    }

    // Whether a code applies to a record of this kind after these.
    fn applies_to(&self, kind: RecordKind, code: DayCode, row: &Row) -> bool
        ensures { result ≡ applies_to kind code self.now row.now }
    {
        match code {
            DayCode::Fields => has_other_fields(self.version, kind, row),
            DayCode::Kind => has_other_word(self.version, kind, row),
            DayCode::Place => self.is_out_of_place(kind),
            DayCode::Date => has_bad_date(kind, row),
            DayCode::Closed => has_closing_date(kind, row),
            DayCode::Name => has_bad_name(kind, row),
            DayCode::Id => has_bad_id(kind, row),
            DayCode::Number => has_bad_number(self.version, kind, row),
            DayCode::Amount => has_bad_amount(self.version, kind, row),
            DayCode::Time => self.has_bad_time(kind, row),
            DayCode::Twice => self.is_twice(kind, row),
            DayCode::Setup => self.has_bad_setup(kind, row),
            DayCode::Limit => self.is_past_limit(kind, row),
            // CUT is no record's.
            DayCode::Cut => false,
        }
    }

    // The first code that applies to a record of this kind after these.
    fn first_code_of(&self, kind: RecordKind, row: &Row) -> Option<DayCode>
        ensures { result
            ≡ find (λ code. applies_to kind code self.now row.now) codes_in_order }
    {
        CODES
            .iter()
            .copied()
            .find(|code| self.applies_to(kind, *code, row))
    }

    // The first code that applies to a record after these. Its kind is found out once.
    #[tactic(auto, using(crate::proofs::CodeFacts::code_without_kind, crate::proofs::CodeFacts::code_of_kind))]
    fn first_code(&self, row: &Row) -> Option<DayCode>
        ensures { result ≡ first_code self.now row.now }
    {
        match kind_named(field(row, 0)) {
            Some(kind) => self.first_code_of(kind, row),
            None => Some(DayCode::Kind),
        }
    }

    // How many stops there were.
    fn stops_before(&self) -> u32
        requires { length self.now.stops < 2 ^ 32 }
        ensures { result ≡ length self.now.stops }
    {
        self.stops.as_slice().len() as u32
    }

    // Adds a record that is fine.
    fn add(&mut self, row: &Row) -> Result<(), Memory>
        requires fine { first_code self.old row.now ≡ None }
        requires step { IsInStep self.old }
        ensures { OnOk result (self.new ≡ after self.old row.now) }
    {
        if self.add_to_setup(row) {
            return Ok(());
        }
        self.add_late(row)
    }

    // Adds a record that is fine, unless the setup is over by it; then all stays, and it tells so.
    #[tactic(auto, unfolding(crate::specs::Step::after_kind))]
    fn add_to_setup(&mut self, row: &Row) -> bool
        requires fine { first_code self.old row.now ≡ None }
        requires step { IsInStep self.old }
        ensures added { result ≡ true → self.new ≡ after self.old row.now }
        ensures stays { result ≡ false → self.new ≡ self.old }
        ensures over { result ≡ not (is_setup_over row.now) }
        ensures none { (self.new.messages ≡ self.old.messages) × (self.new.stops ≡ self.old.stops) }
    {
        match kind_named(field(row, 0)) {
            Some(RecordKind::Ver) => {
                self.set_version(row);
                true
            }
            Some(RecordKind::Day) => {
                self.set_date(row);
                true
            }
            Some(RecordKind::As) => {
                self.add_system(row);
                true
            }
            Some(RecordKind::Acc) => {
                self.add_account(row);
                true
            }
            Some(RecordKind::Res) => {
                self.add_reserve(row);
                true
            }
            Some(_) => false,
            None => true,
        }
    }

    // Adds a record that is fine, and by which the setup is over.
    #[tactic(auto, unfolding(crate::specs::Step::after_kind))]
    fn add_late(&mut self, row: &Row) -> Result<(), Memory>
        requires fine { first_code self.old row.now ≡ None }
        requires step { IsInStep self.old }
        requires late { is_setup_over row.now ≡ true }
        ensures { OnOk result (self.new ≡ after self.old row.now) }
    {
        let round = self.stops_before();
        match kind_named(field(row, 0)) {
            Some(RecordKind::Bat) => {
                self.add_message(batch_from(self.version, round, row), true)
            }
            Some(RecordKind::Ent) => self.add_entry(row),
            Some(RecordKind::Pay) => self.add_message(payment_from(round, row), false),
            Some(RecordKind::Liq) => self.add_message(transfer_from(round, row), false),
            Some(RecordKind::Obj) => self.add_message(objection_from(round, row), false),
            Some(RecordKind::Cnf) => self.add_message(answer_from(round, row), false),
            Some(RecordKind::Cyc) => self.add_message(cycle_from(round, row), false),
            Some(RecordKind::Tim) => self.add_stop(row),
            Some(RecordKind::End) => {
                self.ended = true;
                self.in_batch = false;
                Ok(())
            }
            Some(_) => unreachable!(),
            None => unreachable!(),
        }
    }

    #[tactic(auto, unfolding(crate::specs::Step::after_kind))]
    fn set_version(&mut self, row: &Row)
        ensures { self.new ≡ after_kind record_kinds.Ver self.old row.now }
    {
        self.version = version_named(field(row, 1));
        self.in_batch = false;
    }

    #[tactic(auto, unfolding(crate::specs::Step::after_kind))]
    fn set_date(&mut self, row: &Row)
        ensures { self.new ≡ after_kind record_kinds.Day self.old row.now }
    {
        self.date = date_in(row);
        self.started = true;
        self.in_batch = false;
    }

    #[tactic(auto, unfolding(crate::specs::Step::after_kind))]
    fn add_system(&mut self, row: &Row)
        requires texts { IsSystem row.now }
        requires few { length self.old.systems < MAX_SYSTEMS }
        ensures { self.new ≡ after_kind record_kinds.As self.old row.now }
    {
        self.systems.push(system_from(row));
        self.in_batch = false;
    }

    #[tactic(auto, unfolding(crate::specs::Step::after_kind))]
    fn add_account(&mut self, row: &Row)
        requires texts { IsAccount row.now }
        requires few { length self.old.accounts < MAX_ACCOUNTS }
        requires fits { self.old.opened + amount_in (get_or row.now 5 []) ≤ MAX_CENTS }
        ensures { self.new ≡ after_kind record_kinds.Acc self.old row.now }
    {
        let opening = amount_in(field(row, 5));
        self.accounts.push(account_from(row));
        self.opened += opening;
        self.in_batch = false;
    }

    #[tactic(auto, unfolding(crate::specs::Step::after_kind))]
    fn add_reserve(&mut self, row: &Row)
        requires amounts { IsReserve row.now }
        requires accounts { length self.old.accounts < 2 ^ 32 }
        requires few { length self.old.reserves < MAX_ACCOUNTS }
        ensures { self.new ≡ after_kind record_kinds.Res self.old row.now }
    {
        let reserve = reserve_from(&self.accounts, row);
        self.reserves.push(reserve);
        self.in_batch = false;
    }

    #[tactic(auto, unfolding(crate::specs::Step::after_kind))]
    fn add_stop(&mut self, row: &Row) -> Result<(), Memory>
        requires { is_some (time_of_text (get_or row.now 1 [])) ≡ true }
        ensures { OnOk result (self.new
            ≡ after_kind record_kinds.Tim self.old row.now) }
    {
        self.stops.push(stop_from(row))?;
        self.begun = true;
        self.in_batch = false;
        Ok(())
    }

    // Adds a message, a batch or another.
    fn add_message(&mut self, message: MessageRecord, batch: bool) -> Result<(), Memory>
        ensures { OnOk result (self.new ≡ with_message (with_entries message []) batch self.old) }
    {
        self.messages.push(message)?;
        self.begun = true;
        self.in_batch = batch;
        Ok(())
    }

    #[tactic(auto, unfolding(crate::specs::Step::after_kind))]
    fn add_entry(&mut self, row: &Row) -> Result<(), Memory>
        requires texts { IsEntry row.now }
        requires few { self.old.entries < MAX_ENTRIES_OF_DAY }
        ensures { OnOk result (self.new
            ≡ after_kind record_kinds.Ent self.old row.now) }
    {
        self.messages.push_entry(entry_from(row))?;
        self.entries += 1;
        Ok(())
    }

    /// Takes a record, or says what is wrong with it.
    pub fn take(&mut self, row: &Row, number: u32) -> Result<(), DayFault>
        requires { IsInStep self.old }
        ensures ok { OnOk result ((first_code self.old row.now ≡ None)
            × (self.new ≡ after self.old row.now)) }
        ensures err { IfErr result (λ e. FaultIs e number
            (first_code self.old row.now)) }
    {
        if let Some(code) = self.first_code(row) {
            return Err(DayFault::Record { number, code });
        }
        match self.add(row) {
            Ok(()) => Ok(()),
            Err(memory) => Err(DayFault::Memory(memory)),
        }
    }

    /// Takes a record of the setup, or says what is wrong with it. True where it is taken. False where it is fine, and the setup is
    /// over by it: it is a message, a stop or END. Then, and at a code, all stays. Takes no memory.
    pub fn take_in_room(&mut self, row: &Row) -> Result<bool, DayCode>
        requires { IsInStep self.old }
        ensures fine { OnOk result (first_code self.old row.now ≡ None) }
        ensures code { IfErr result (λ code. (first_code self.old row.now ≡ Some code)
            × (self.new ≡ self.old)) }
        ensures taken { IfOk result (λ taken. taken ≡ true → self.new ≡ after self.old row.now) }
        ensures over { IfOk result (λ taken. taken ≡ false → (self.new ≡ self.old)
            × (self.old.started ≡ true) × (is_behind_setup self.old row.now ≡ true)) }
        ensures step { IsInStep self.new }
        ensures none { (self.new.messages ≡ self.old.messages) × (self.new.stops ≡ self.old.stops) }
    {
        match self.first_code(row) {
            Some(code) => Err(code),
            None => Ok(self.add_to_setup(row)),
        }
    }

    /// The day, where its records have ended.
    pub fn finish(self, number: u32) -> Result<Day, DayFault>
        requires { IsInStep self }
        ensures { result ≡ (if self.ended then Ok (day_in self)
            else Err (DayFault.Record number DayCode.Cut)) }
    {
        if !self.ended {
            return Err(DayFault::Record {
                number,
                code: DayCode::Cut,
            });
        }
        Ok(Day::of(
            self.version,
            self.date.unwrap(),
            self.accounts.into_list(),
            self.systems.into_list(),
            self.reserves.into_list(),
            self.stops,
            self.messages,
        ))
    }

    /// The day under way, whose setup is over, with room for its messages and stops; and the numbers by which its records go on.
    /// Takes no memory.
    #[tactic(auto, unfolding(crate::specs::Tallies::tally_of))]
    pub fn open(self, room: DayRoom) -> (Day, Tally)
        requires step { IsInStep self }
        requires started { self.started ≡ true }
        requires messages { self.messages ≡ [] }
        requires stops { self.stops ≡ [] }
        ensures day { result.0 ≡ record (day_in self) { room = room } }
        ensures tally { result.1 ≡ tally_of self }
        ensures small { IsSmall result.1 }
    {
        let tally = Tally {
            version: self.version,
            ended: self.ended,
            in_batch: self.in_batch,
            last_stop: 0,
            stops: 0,
            messages: 0,
            entries: self.entries,
            last_entries: 0,
        };
        let day = Day::in_room(
            self.version,
            self.date.unwrap(),
            self.accounts.into_list(),
            self.systems.into_list(),
            self.reserves.into_list(),
            room,
        );
        (day, tally)
    }
}

// The last of some stops, midnight where there is none.
fn last_stop(stops: &[u32]) -> u32
    ensures { result ≡ last_stop stops.now }
{
    stops.last().copied().unwrap_or(0)
}

// Whether the account of a number keeps amounts already.
fn keeps_already(reserves: &[Reserve], a: usize) -> bool
    ensures { result ≡ list_any (λ x. nat_eq x.account a) reserves.now }
{
    reserves.iter().any(|reserve| reserve.account as usize == a)
}

// How many entries the last of some messages has.
fn last_entries(messages: &Messages) -> usize
    ensures { result ≡ last_entries messages.now }
{
    messages.entries(messages.len().saturating_sub(1)).len()
}

// Whether there is a time, above the stop before it and below the end of the day.
pub(crate) fn is_next_stop(last: u32, time: Option<u32>) -> bool
    ensures { result ≡ is_next_stop last time }
{
    match time {
        Some(t) => last < t && t < MIDNIGHT,
        None => false,
    }
}

// Whether a sum passes the largest amount.
fn passes(a: u64, b: u64) -> bool
    requires { b ≤ MAX_CENTS }
    ensures { result ≡ nat_lt MAX_CENTS (a + b) }
{
    MAX_CENTS - b < a
}
