use cash_amounts::Words;
use outside_io::{CleanSource, Gate, MemSink};
use rtgs_engine::{rtgs, worker_count};
use std::alloc::Global;
use std::process::Abort;
use std::sync::Wait;
use std::sync::atomic::{AtomicU64, Ordering};
use std::test::Fail;
use std::thread::Threads;

// Eight senders with two payments each, all covered: messages 1 to 8 and 9 to 16. The two accounts of a sender are of one group, and
// those of two senders never are, so no worker waits for a lock of another lane's.
const EIGHT_SENDERS: &str =
    "DAY;2025-06-02\nACC;X1;DCA;BANK1;;2.00\nACC;X2;DCA;BANK2;;2.00\nACC;X3;DCA;BANK3;;2.00\nACC;X4;DCA;BANK4;;2.00\nACC;X5;DCA;BANK5;;2.00\nACC;X6;DCA;BANK6;;2.00\nACC;X7;DCA;BANK7;;2.00\nACC;X8;DCA;BANK8;;2.00\nACC;Y1;DCA;BANK1;;0.00\nACC;Y2;DCA;BANK2;;0.00\nACC;Y3;DCA;BANK3;;0.00\nACC;Y4;DCA;BANK4;;0.00\nACC;Y5;DCA;BANK5;;0.00\nACC;Y6;DCA;BANK6;;0.00\nACC;Y7;DCA;BANK7;;0.00\nACC;Y8;DCA;BANK8;;0.00\nPAY;BANK1;P1;N;X1;Y1;1.00\nPAY;BANK2;P2;N;X2;Y2;1.00\nPAY;BANK3;P3;N;X3;Y3;1.00\nPAY;BANK4;P4;N;X4;Y4;1.00\nPAY;BANK5;P5;N;X5;Y5;1.00\nPAY;BANK6;P6;N;X6;Y6;1.00\nPAY;BANK7;P7;N;X7;Y7;1.00\nPAY;BANK8;P8;N;X8;Y8;1.00\nPAY;BANK1;Q1;N;X1;Y1;1.00\nPAY;BANK2;Q2;N;X2;Y2;1.00\nPAY;BANK3;Q3;N;X3;Y3;1.00\nPAY;BANK4;Q4;N;X4;Y4;1.00\nPAY;BANK5;Q5;N;X5;Y5;1.00\nPAY;BANK6;Q6;N;X6;Y6;1.00\nPAY;BANK7;Q7;N;X7;Y7;1.00\nPAY;BANK8;Q8;N;X8;Y8;1.00\nEND\n";

// How often a worker looks whether it may pass, before it passes anyway: so no test hangs.
const TURNS: u32 = 1_000_000_000;

fn words_of(rt: &impl Abort, alloc: Global, list: &[&str]) -> Words {
    let mut words = Words::new(alloc);
    for word in list {
        words.push(word).ok().expect(rt, "memory");
    }
    words
}

// Commands, and how many workers each asks for.
const WORKERS: [(&[&str], u32); 3] = [
    (&["settle"], 4),
    (&["replay"], 0),
    (&["trial", "0000000001", "--workers=8", "1"], 8),
];

fn asks_for(rt: &impl Abort, alloc: Global, list: &[&str], count: u32) -> bool {
    worker_count(&words_of(rt, alloc, list)) == Some(count)
}

#[test]
fn commands_ask_for_workers(rt: HostRuntime) {
    for (list, count) in WORKERS {
        assert!(rt; asks_for(&rt, rt.alloc(), list, count), "{list:?}");
    }
}

// Runs words over an input at a gate, and gives what was written; nothing where another status came than 0.
fn written_at<R: Threads + Wait + Abort + Sync, G: Gate + Sync>(
    rt: &R,
    alloc: Global,
    list: &[&str],
    gate: &G,
) -> Result<Vec<u8>, Fail> {
    let words = words_of(rt, alloc, list);
    let mut source = CleanSource::over(EIGHT_SENDERS.as_bytes().to_vec(alloc)?);
    let mut sink = MemSink::over(vec![in alloc; 0u8; 8192]?, Vec::new(alloc));
    let status = rtgs(rt, alloc, &words, &mut source, &mut sink, gate);
    if status != 0 {
        return Ok(Vec::new(alloc));
    }
    Ok(sink.written().to_vec(alloc)?)
}

// Holds the workers of all lanes but one, until that one has called so often.
#[derive(Drop)]
struct OneFirst {
    lane: u32,
    calls: u64,
    called: AtomicU64,
}

impl OneFirst {
    fn wait(&self) {
        for _ in 0..TURNS {
            if self.called.load(Ordering::SeqCst) >= self.calls {
                return;
            }
        }
    }
}

impl Gate for OneFirst {
    fn hold(&self, lane: u32) {
        if lane == self.lane {
            self.called.fetch_add(1, Ordering::SeqCst);
        } else {
            self.wait();
        }
    }
}

// Whether the worker of a lane books while the others are held. It steps its messages, so many, and then their items; when it calls
// for the second item, the line of the first is made. None but its own messages are taken before that line.
fn books_alone<R: Threads + Wait + Abort + Sync>(
    rt: &R,
    alloc: Global,
    list: &[&str],
    lane: u32,
    own: u32,
) -> Result<bool, Fail> {
    let gate = OneFirst {
        lane,
        calls: u64::from(own).saturating_add(2),
        called: AtomicU64::new(0),
    };
    let text = written_at(rt, alloc, list, &gate)?;
    let place = own.saturating_add(1);
    let first = lane.saturating_add(1);
    let line = format!(in alloc; "J;{place};BOOK;{first};0;OK;1")?;
    let made = text.split(|byte| *byte == b'\n').nth(own as usize);
    Ok(made == Some(line.as_bytes()) && text.ends_with(b"\nOK;34\n"))
}

// Words by which the day is settled, by how many workers, and how many messages each of these has.
const SETTLED: [(&[&str], u32, u32); 3] = [
    (&["settle", "--workers", "2"], 2, 8),
    (&["settle"], 4, 4),
    (&["settle", "--workers=8"], 8, 2),
];

#[test]
fn each_worker_books(rt: HostRuntime) -> Result<(), Fail> {
    for (list, workers, own) in SETTLED {
        for lane in 0..workers {
            assert!(rt;
                books_alone(&rt, rt.alloc(), list, lane, own)?,
                "{list:?}, lane {lane}"
            );
        }
    }
    Ok(())
}

// Counts the calls, and holds the first of each lane until so many lanes have called.
#[derive(Drop)]
struct Meeting {
    workers: usize,
    lanes: [AtomicU64; 8],
    calls: AtomicU64,
    met: AtomicU64,
}

impl Meeting {
    fn of(workers: usize) -> Meeting {
        Meeting {
            workers,
            lanes: [
                AtomicU64::new(0),
                AtomicU64::new(0),
                AtomicU64::new(0),
                AtomicU64::new(0),
                AtomicU64::new(0),
                AtomicU64::new(0),
                AtomicU64::new(0),
                AtomicU64::new(0),
            ],
            calls: AtomicU64::new(0),
            met: AtomicU64::new(0),
        }
    }

    // How many lanes have called.
    fn came(&self) -> usize {
        self.lanes
            .iter()
            .filter(|calls| calls.load(Ordering::SeqCst) > 0)
            .count()
    }

    // A turn looks at eight lanes, so there are fewer.
    fn all_come(&self) -> bool {
        for _ in 0..TURNS / 10 {
            if self.came() >= self.workers {
                return true;
            }
        }
        false
    }
}

impl Gate for Meeting {
    fn hold(&self, lane: u32) {
        self.calls.fetch_add(1, Ordering::SeqCst);
        if self.lanes[lane as usize % 8].fetch_add(1, Ordering::SeqCst) > 0 {
            return;
        }
        if self.all_come() {
            self.met.fetch_add(1, Ordering::SeqCst);
        }
    }
}

// Whether so many workers are at work at once and no others are, and they call at least so often.
fn meet<R: Threads + Wait + Abort + Sync>(
    rt: &R,
    alloc: Global,
    list: &[&str],
    workers: usize,
    calls: u64,
) -> Result<bool, Fail> {
    let gate = Meeting::of(workers);
    let text = written_at(rt, alloc, list, &gate)?;
    let met = gate.met.load(Ordering::SeqCst);
    Ok(
        !text.is_empty()
            && gate.came() == workers
            && met == workers as u64
            && gate.calls.load(Ordering::SeqCst) >= calls,
    )
}

// Words, by how many workers they are answered, and how often these call at least. Each message is stepped and, unless an earlier
// step has booked it, each item: of the day the 16 payments and these once more, and of the trial, in which each of eight systems
// sends a batch, 8 messages and 23 items, 12 debits of A, 3 batches of B and 8 entries of E.
const AT_ONCE: [(&[&str], usize, u64); 8] = [
    (&["settle", "--workers=1"], 1, 32),
    (&["settle", "--workers", "2"], 2, 32),
    (&["settle"], 4, 32),
    (&["settle", "--workers", "8"], 8, 32),
    (&["trial", "1", "8", "--workers=1"], 1, 31),
    (&["trial", "1", "8", "--workers", "2"], 2, 31),
    (&["trial", "1", "8"], 4, 31),
    (&["trial", "1", "--workers=8", "8"], 8, 31),
];

#[test]
fn workers_at_once(rt: HostRuntime) -> Result<(), Fail> {
    for (list, workers, calls) in AT_ONCE {
        assert!(rt; meet(&rt, rt.alloc(), list, workers, calls)?, "{list:?}");
    }
    Ok(())
}
