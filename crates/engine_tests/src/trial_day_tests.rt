ghost use Rattle.std.specs.Prelude.{◌≡◌, [], Some};
ghost use Rattle.trial_day.specs.Trial.{generated};

use account_book::Holdings;
use batch_records::{Day, put_day};
use cash_amounts::Cents;
use commit_journal::Journal;
use outside_io::MemSink;
use rule_book::Setting;
use std::alloc::{AllocError, Global};
use std::process::Abort;
use std::test::Fail;
use trial_day::{generate, put_summary};

// The day of seed 1 with a batch of A, one of B and one of E. The first twelve draws of seed 1, in turns of a debit, a credit and an amount,
// are 16838, 5758, 10113; 17515, 31051, 5627; 23010, 7419, 16212; 4086, 2749, 12767. The entries of M1 show them: an account is the rest of
// its draw by 16, and 1, and an amount that by 10000, and 1, in cents.
const THREE_BATCHES: &[u8] =
    b"DAY;2025-06-02\nAS;CH1;ABE\nAS;CH2;ABE\nAS;CH3;ABE\nAS;CH4;ABE\nAS;CH5;ABE\nAS;CH6;ABE\nAS;CH7;ABE\nAS;CH8;ABE\nACC;DCA01;DCA;BANK01;;1000000000.00\nACC;DCA02;DCA;BANK02;;1000000000.00\nACC;DCA03;DCA;BANK03;;1000000000.00\nACC;DCA04;DCA;BANK04;;1000000000.00\nACC;DCA05;DCA;BANK05;;1000000000.00\nACC;DCA06;DCA;BANK06;;1000000000.00\nACC;DCA07;DCA;BANK07;;1000000000.00\nACC;DCA08;DCA;BANK08;;1000000000.00\nACC;DCA09;DCA;BANK09;;1000000000.00\nACC;DCA10;DCA;BANK10;;1000000000.00\nACC;DCA11;DCA;BANK11;;1000000000.00\nACC;DCA12;DCA;BANK12;;1000000000.00\nACC;DCA13;DCA;BANK13;;1000000000.00\nACC;DCA14;DCA;BANK14;;1000000000.00\nACC;DCA15;DCA;BANK15;;1000000000.00\nACC;DCA16;DCA;BANK16;;1000000000.00\nACC;TA1;TEC;CH1;A;0.00\nACC;TB1;TEC;CH1;B;0.00\nACC;TA2;TEC;CH2;A;0.00\nACC;TB2;TEC;CH2;B;0.00\nACC;TA3;TEC;CH3;A;0.00\nACC;TB3;TEC;CH3;B;0.00\nACC;TA4;TEC;CH4;A;0.00\nACC;TB4;TEC;CH4;B;0.00\nACC;TA5;TEC;CH5;A;0.00\nACC;TB5;TEC;CH5;B;0.00\nACC;TA6;TEC;CH6;A;0.00\nACC;TB6;TEC;CH6;B;0.00\nACC;TA7;TEC;CH7;A;0.00\nACC;TB7;TEC;CH7;B;0.00\nACC;TA8;TEC;CH8;A;0.00\nACC;TB8;TEC;CH8;B;0.00\nBAT;CH1;M1;A;;;8;294.46\nENT;DCA07;TA1;1.14\nENT;DCA12;TA1;56.28\nENT;DCA03;TA1;62.13\nENT;DCA07;TA1;27.68\nENT;TA1;DCA15;1.14\nENT;TA1;DCA12;56.28\nENT;TA1;DCA12;62.13\nENT;TA1;DCA14;27.68\nBAT;CH2;M2;B;;;8;213.78\nENT;DCA13;TB2;22.26\nENT;DCA08;TB2;11.84\nENT;DCA02;TB2;69.67\nENT;DCA03;TB2;3.12\nENT;TB2;DCA13;22.26\nENT;TB2;DCA02;11.84\nENT;TB2;DCA15;69.67\nENT;TB2;DCA16;3.12\nBAT;CH3;M3;E;;;4;302.32\nENT;DCA08;DCA02;70.32\nENT;DCA10;DCA02;57.37\nENT;DCA13;DCA03;83.95\nENT;DCA07;DCA03;90.68\nEND\n";

// Whether a day has this text.
fn is_written(alloc: Global, day: &Day, text: &[u8]) -> Result<bool, AllocError>
    requires { day.now ≡ generated 1 3 }
{
    let mut sink = MemSink::over(vec![in alloc; 0u8; 4000]?, Vec::new(alloc));
    let all = put_day(day, &mut sink) == Ok(());
    Ok(all && sink.written() == text)
}

// Whether it is that of the day of seed 1 with three batches.
fn is_first_day(rt: &impl Abort, alloc: Global, text: &[u8]) -> Result<bool, AllocError> {
    let day = match generate(alloc, 1, 3) {
        Ok(day) => day,
        Err(_) => panic!(rt; "memory"),
    };
    let written = is_written(alloc, &day, text);
    drop(day);
    written
}

#[test]
fn days_are_generated(rt: HostRuntime) -> Result<(), Fail> {
    assert!(rt; is_first_day(&rt, rt.alloc(), THREE_BATCHES)?);
    Ok(())
}

// The summary of a day of which nothing is settled yet.
const NOTHING_SETTLED: &[u8] =
    b"TRIAL;3;0;0\nB;DCA01;1000000000.00\nB;DCA02;1000000000.00\nB;DCA03;1000000000.00\nB;DCA04;1000000000.00\nB;DCA05;1000000000.00\nB;DCA06;1000000000.00\nB;DCA07;1000000000.00\nB;DCA08;1000000000.00\nB;DCA09;1000000000.00\nB;DCA10;1000000000.00\nB;DCA11;1000000000.00\nB;DCA12;1000000000.00\nB;DCA13;1000000000.00\nB;DCA14;1000000000.00\nB;DCA15;1000000000.00\nB;DCA16;1000000000.00\n";

// What each account opens with, whichever it is.
struct Openings;

impl Holdings for Openings {
    ghost holdings = { λ _ a. Some 100000000000 };

    fn has(&self, _a: u32) -> bool {
        true
    }

    fn balance(&self, _a: u32) -> Cents {
        Cents::of(100_000_000_000).unwrap()
    }
}

// Whether a sink with this much room gets as much of it as there is room for.
fn is_put(
    alloc: Global,
    setting: &Setting,
    journal: &Journal,
    room: usize,
) -> Result<bool, AllocError>
    requires day { setting.now.day ≡ generated 1 3 }
    requires no_lines { journal.now.history ≡ [] }
{
    let mut sink = MemSink::over(vec![in alloc; 0u8; room]?, Vec::new(alloc));
    let all = put_summary(setting, journal, &Openings, &mut sink).is_ok();
    let least = room.min(NOTHING_SETTLED.len());
    let front = sink.written().len() == least && NOTHING_SETTLED.starts_with(sink.written());
    Ok(front && all == (least == NOTHING_SETTLED.len()))
}

fn are_put(alloc: Global, setting: &Setting, journal: &Journal) -> Result<bool, AllocError>
    requires day { setting.now.day ≡ generated 1 3 }
    requires no_lines { journal.now.history ≡ [] }
{
    for room in [0, 1, 11, 12, 20, 363, 364, 500] {
        if !is_put(alloc, setting, journal, room)? {
            return Ok(false);
        }
    }
    Ok(true)
}

// The same of the day of seed 1 with three batches, of which nothing is settled.
fn first_are_put(rt: &impl Abort, alloc: Global) -> Result<bool, AllocError> {
    let day = match generate(alloc, 1, 3) {
        Ok(day) => day,
        Err(_) => panic!(rt; "memory"),
    };
    let setting = match Setting::build(alloc, day) {
        Ok(setting) => setting,
        Err(_) => panic!(rt; "memory"),
    };
    let journal = match Journal::with_room(alloc, 0, 0) {
        Ok(journal) => journal,
        Err(_) => panic!(rt; "memory"),
    };
    let put = are_put(alloc, &setting, &journal);
    drop(journal);
    drop(setting);
    put
}

#[test]
fn summaries_are_written(rt: HostRuntime) -> Result<(), Fail> {
    assert!(rt; first_are_put(&rt, rt.alloc())?);
    Ok(())
}
