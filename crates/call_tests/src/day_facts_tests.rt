ghost use Rattle.std.specs.Prelude.{◌≡◌, Bool};
ghost use Rattle.machine.specs.Telling.History.{taken};
ghost use Rattle.machine.specs.Stages.Phases.{phase};
ghost use Rattle.machine.specs.Stages.Pending.{is_pending};
ghost use Rattle.day_facts.specs.Facts.{StandsFor};
ghost use Rattle.day_facts.specs.Props.{StandsFor-prop};

use batch_records::read_day;
use commit_journal::{Code, Head, Journal, Kind};
use day_facts::{DayFacts, batch_named};
use rule_book::{Item, Phase, Setting};
use std::alloc::Global;
use std::process::Abort;
use std::test::Fail;

// ---- a desk of references, which keeps as a fact that the facts are the journal's

#[derive(Drop)]
struct Desk<'a> {
    setting: &'a Setting,
    journal: &'a Journal,
    facts: &'a DayFacts,

    ghost stands: { StandsFor setting.now.day journal.now.history
        facts.now } by { StandsFor-prop _ _ _ },
}

impl Desk<'_> {
    fn taken(&self, n: u32) -> Option<u32>
        ensures { result ≡ taken self.now.journal.now.history n }
    {
        self.facts.taken(n)
    }

    fn phase(&self, n: u32) -> Phase
        ensures { result ≡ phase self.now.setting.now.day self.now.journal.now.history n }
    {
        self.facts.phase(self.setting, n)
    }

    fn is_pending(&self, item: Item) -> bool
        ensures { result ≡ is_pending self.now.setting.now.day self.now.journal.now.history item }
    {
        self.facts.is_pending(self.setting, item)
    }
}

// ---- worked days

const SETUP: &str =
    "DAY;2025-06-02\nAS;CH1;ABCDE\nACC;X1;DCA;BANKA;;40.00\nACC;Y1;DCA;BANKB;;100.00\nACC;Z1;DCA;BANKC;;0.00\nACC;TA;TEC;CH1;A;0.00\nACC;TC;TEC;CH1;C;0.00\nACC;SX;SUB;BANKA;CH1;0.00\nACC;GF;FND;CH1;;80.00\n";

fn setting_of(rt: &impl Abort, alloc: Global, messages: &str) -> Result<Setting, Fail> {
    let input = format!(in alloc; "{SETUP}{messages}END\n")?;
    let (day, _) = read_day(alloc, input.as_bytes()).ok().expect(rt, "a day");
    Ok(Setting::build(alloc, day).ok().expect(rt, "memory"))
}

// The facts of the first lines.
fn facts_of(rt: &impl Abort, alloc: Global, setting: &Setting, lines: &[Head]) -> DayFacts {
    let mut facts = DayFacts::with_room(alloc, setting)
        .ok()
        .expect(rt, "memory");
    for line in lines {
        facts.note(setting, *line);
    }
    facts
}

// What is told of a batch after some lines.
#[derive(Clone, Copy)]
struct Expected {
    count: usize,
    phase: Phase,
    debits: usize,
}

fn is_told(facts: &DayFacts, setting: &Setting, told: Expected) -> bool {
    facts.phase(setting, 1) == told.phase && facts.debits_left(1) == told.debits
}

// Whether a row is told after its lines.
fn row_is_told(
    rt: &impl Abort,
    alloc: Global,
    setting: &Setting,
    lines: &[Head],
    told: Expected,
) -> bool {
    let facts = facts_of(
        rt,
        alloc,
        setting,
        lines.get(..told.count).expect(rt, "lines"),
    );
    let is = is_told(&facts, setting, told);
    drop(facts);
    is
}

// The first row that isn't told.
fn first_wrong(
    rt: &impl Abort,
    alloc: Global,
    setting: &Setting,
    lines: &[Head],
    table: &[Expected],
) -> Option<usize> {
    for told in table {
        if !row_is_told(rt, alloc, setting, lines, *told) {
            return Some(told.count);
        }
    }
    None
}

const WITH_FUND: [Head; 8] = [
    Head {
        kind: Kind::In,
        msg: 1,
        entry: 0,
        code: Code::Ok,
    },
    Head {
        kind: Kind::Book,
        msg: 1,
        entry: 1,
        code: Code::Ok,
    },
    Head {
        kind: Kind::Time,
        msg: 0,
        entry: 39600,
        code: Code::Ok,
    },
    Head {
        kind: Kind::Ask,
        msg: 1,
        entry: 0,
        code: Code::Ok,
    },
    Head {
        kind: Kind::Time,
        msg: 0,
        entry: 43200,
        code: Code::Ok,
    },
    Head {
        kind: Kind::In,
        msg: 2,
        entry: 0,
        code: Code::Ok,
    },
    Head {
        kind: Kind::Cover,
        msg: 1,
        entry: 0,
        code: Code::Ok,
    },
    Head {
        kind: Kind::Book,
        msg: 1,
        entry: 3,
        code: Code::Ok,
    },
];

// After how many lines: the phase of the batch, and the debits left.
const TOLD_WITH_FUND: [Expected; 8] = [
    Expected {
        count: 0,
        phase: Phase::Untaken,
        debits: 2,
    },
    Expected {
        count: 1,
        phase: Phase::Open,
        debits: 2,
    },
    Expected {
        count: 2,
        phase: Phase::Open,
        debits: 1,
    },
    Expected {
        count: 3,
        phase: Phase::Overdue,
        debits: 1,
    },
    Expected {
        count: 4,
        phase: Phase::Asking,
        debits: 1,
    },
    Expected {
        count: 6,
        phase: Phase::Answered,
        debits: 1,
    },
    Expected {
        count: 7,
        phase: Phase::Covered,
        debits: 1,
    },
    Expected {
        count: 8,
        phase: Phase::Settled,
        debits: 1,
    },
];

// A batch of A with a fund: its first debit is booked, the second isn't covered, and the fund pays for it.
#[test]
fn batch_with_fund(rt: HostRuntime) -> Result<(), Fail> {
    let alloc = rt.alloc();
    let setting = setting_of(
        &rt,
        alloc,
        "BAT;CH1;B1;A;;11:00:00;3;200.00\nENT;X1;TA;40.00\nENT;Y1;TA;60.00\nENT;TA;Z1;100.00\nTIM;12:00:00\nCNF;CH1;C1;B1;Y\n",
    )?;
    let wrong = first_wrong(&rt, alloc, &setting, &WITH_FUND, &TOLD_WITH_FUND);
    drop(setting);
    assert_eq!(rt; wrong, None);
    Ok(())
}

const WITH_OBJECTIONS: [Head; 5] = [
    Head {
        kind: Kind::In,
        msg: 1,
        entry: 0,
        code: Code::Ok,
    },
    Head {
        kind: Kind::Time,
        msg: 0,
        entry: 35999,
        code: Code::Ok,
    },
    Head {
        kind: Kind::In,
        msg: 2,
        entry: 0,
        code: Code::Ok,
    },
    Head {
        kind: Kind::Time,
        msg: 0,
        entry: 36000,
        code: Code::Ok,
    },
    Head {
        kind: Kind::In,
        msg: 3,
        entry: 0,
        code: Code::Ph,
    },
];

fn is_revoked_in_part(facts: &DayFacts, setting: &Setting) -> bool {
    facts.revoked(setting, 1, 1) == Some(3)
        && facts.revoked(setting, 1, 2).is_none()
        && facts.is_pending(setting, Item { msg: 1, entry: 2 })
}

fn is_rejected(facts: &DayFacts, setting: &Setting) -> bool {
    batch_named(setting, 3) == Some(1) && facts.code(3) == Some(Code::Ph) && facts.round() == 2
}

// A bank objects to its entry of a batch of E, and another comes too late.
#[test]
fn batch_with_objections(rt: HostRuntime) -> Result<(), Fail> {
    let alloc = rt.alloc();
    let setting = setting_of(
        &rt,
        alloc,
        "BAT;CH1;B1;E;10:00:00;11:00:00;2;30.00\nENT;X1;Y1;10.00\nENT;Y1;Z1;20.00\nTIM;09:59:59\nOBJ;BANKA;O1;CH1;B1\nTIM;10:00:00\nOBJ;BANKC;O2;CH1;B1\n",
    )?;
    let facts = facts_of(&rt, alloc, &setting, &WITH_OBJECTIONS);
    let revoked_in_part = is_revoked_in_part(&facts, &setting);
    let rejected = is_rejected(&facts, &setting);
    drop(facts);
    drop(setting);
    assert!(rt; revoked_in_part);
    assert!(rt; rejected);
    Ok(())
}
