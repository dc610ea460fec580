//! The lines of a journal up to a place, and what a walk asks of them.
ghost use Rattle.std.specs.Prelude.{◌≡◌, ◌≤◌, ◌&&◌, length};
ghost use Rattle.commit_journal.specs.Histories.{oldest};
ghost use Rattle.machine.specs.Laws.{is_order};
ghost use Rattle.machine.specs.Records.Messages.{is_object, sort_of};
ghost use Rattle.machine.specs.Stages.Phases.{phase};
ghost use Rattle.day_facts.specs.Facts.{StandsFor};
ghost use Rattle.day_facts.specs.Props.{StandsFor-prop};
ghost use Rattle.status_messages.specs.LineTexts.{is_acceptance, is_revoked_by, is_settled_in, is_whole_revoked, objected_as, objected_batch};
ghost use Rattle.status_messages.specs.Statuses.{is_revoked, is_settled};

use batch_records::RecordBody;
use cash_amounts::{EntryNumber, LinePlace, MessageNumber, Procedure};
use commit_journal::{Code, Head, Journal, Kind};
use day_facts::{DayFacts, batch_named};
use rule_book::parts::message;
use rule_book::sorts::{is_batch, is_pay, procedure_of_batch};
use rule_book::{Phase, Setting};

/// The lines of a journal up to a place, with facts that stand for them.
#[derive(Drop)]
pub struct Noted<'a> {
    pub setting: &'a Setting,
    pub journal: &'a Journal,
    pub facts: &'a DayFacts,
    pub place: u32,

    ghost stands: { StandsFor setting.now.day (oldest journal.now.history place)
        facts.now } by { StandsFor-prop _ _ _ },
}

/// The lines up to a place, for which the facts stand.
pub fn up_to<'a>(
    setting: &'a Setting,
    journal: &'a Journal,
    facts: &'a DayFacts,
    place: LinePlace,
) -> Noted<'a>
    requires stands { StandsFor setting.now.day (oldest journal.now.history place) facts.now }
    ensures setting { result.setting.now ≡ setting.now }
    ensures journal { result.journal.now ≡ journal.now }
    ensures place { result.place ≡ place }
{
    Noted {
        setting,
        journal,
        facts,
        place,
    }
}

/// Whether the line accepts its message.
pub fn is_acceptance(head: Head) -> bool
    ensures { result ≡ is_acceptance head }
{
    matches!(head.kind, Kind::In) && matches!(head.code, Code::Ok)
}

// A payment or a batch.
fn is_order(setting: &Setting, n: u32) -> bool
    ensures { result ≡ is_order (sort_of setting.now.day n) }
{
    is_pay(setting, n) || is_batch(setting, n)
}

fn is_object(setting: &Setting, n: u32) -> bool
    ensures { result ≡ is_object (sort_of setting.now.day n) }
{
    match message(&setting.day, n) {
        Some(message) => match message.body {
            RecordBody::Object { .. } => true,
            _ => false,
        },
        None => false,
    }
}

fn is_settled(phase: Phase) -> bool
    ensures { result ≡ is_settled phase }
{
    matches!(phase, Phase::Settled)
}

fn is_revoked(phase: Phase) -> bool
    ensures { result ≡ is_revoked phase }
{
    matches!(phase, Phase::Revoked)
}

impl Noted<'_> {
    fn phase(&self, n: u32) -> Phase
        ensures { result ≡ phase self.now.setting.now.day
            (oldest self.now.journal.now.history self.now.place) n }
    {
        self.facts.phase(self.setting, n)
    }

    /// Whether message n is a payment or a batch that is settled.
    pub fn is_settled(&self, n: MessageNumber) -> bool
        ensures { result ≡ is_settled_in self.now.setting.now.day
            (oldest self.now.journal.now.history self.now.place) n }
    {
        is_order(self.setting, n) && is_settled(self.phase(n))
    }

    /// Whether the line at the place was the first to revoke entry k of batch b.
    pub fn is_revoked_here(&self, b: MessageNumber, k: EntryNumber) -> bool
        ensures { result ≡ is_revoked_by self.now.setting.now.day
            (oldest self.now.journal.now.history self.now.place) self.now.place b k }
    {
        match self.facts.revoked(self.setting, b, k) {
            Some(place) => self.place == place,
            None => false,
        }
    }

    /// Whether an objection to batch b, which is accepted, leaves nothing of it.
    pub fn is_whole_revoked(&self, b: MessageNumber) -> bool
        ensures { result ≡ is_whole_revoked (sort_of self.now.setting.now.day b)
            self.now.setting.now.day (oldest self.now.journal.now.history self.now.place) b }
    {
        match procedure_of_batch(self.setting, b) {
            Some(Procedure::A) | Some(Procedure::B) => true,
            Some(Procedure::E) => is_revoked(self.phase(b)),
            _ => false,
        }
    }

    fn objected_by(&self, n: u32) -> u32
        ensures { result ≡ objected_as (sort_of self.now.setting.now.day n) self.now.setting.now.day
            n }
    {
        if !is_object(self.setting, n) {
            return 0;
        }
        match batch_named(self.setting, n) {
            Some(b) => b,
            None => 0,
        }
    }

    /// The batch to which a line accepts an objection, or 0.
    pub fn objected_batch(&self, head: Head) -> u32
        ensures { result ≡ objected_batch self.now.setting.now.day head }
    {
        if is_acceptance(head) {
            self.objected_by(head.msg)
        } else {
            0
        }
    }
}
