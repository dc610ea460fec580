ghost use Rattle.batch_records.specs.Meets.{MeetsRules};

use batch_records::{Day, put_day, read_day};
use outside_io::{MemSink, WriteFault};
use std::alloc::{AllocError, Global};
use std::process::Abort;
use std::test::Fail;

// A day with each kind of record, its setup not in the order of writing.
const EACH_KIND: &[u8] =
    b"DAY;2025-06-02\nACC;X1;DCA;BANKA;;100.00\nAS;CH1;ABCDE\nACC;GF;FND;CH1;;5.00\nACC;Y1;DCA;BANKB;;0.00\nAS;CH2;E\nACC;SX;SUB;BANKA;CH1;0.00\nACC;TA;TEC;CH1;A;0.00\nACC;TD;TEC;CH1;D;0.00\nPAY;BANKA;P1;H;X1;Y1;60.00\nTIM;07:00:00\nBAT;CH1;B1;E;08:00:00;09:30:00;2;1.50\nENT;X1;Y1;1.00\nENT;Y1;X1;0.50\nBAT;CH1;B2;C;;;0;0.00\nTIM;08:00:00\nTIM;12:34:56\nLIQ;BANKA;L1;X1;SX;10.00\nOBJ;BANKB;O1;CH1;B1\nCNF;CH1;c-1;B1;Y\nCNF;CH1;C2;B1;N\nCYC;CH1;Y1;START\nCYC;CH1;Y2;END\nPAY;BANKA;P2;N;X1;Y1;0.01\nTIM;23:59:59\nEND\n";

const EACH_KIND_WRITTEN: &[u8] =
    b"DAY;2025-06-02\nAS;CH1;ABCDE\nAS;CH2;E\nACC;X1;DCA;BANKA;;100.00\nACC;GF;FND;CH1;;5.00\nACC;Y1;DCA;BANKB;;0.00\nACC;SX;SUB;BANKA;CH1;0.00\nACC;TA;TEC;CH1;A;0.00\nACC;TD;TEC;CH1;D;0.00\nPAY;BANKA;P1;H;X1;Y1;60.00\nTIM;07:00:00\nBAT;CH1;B1;E;08:00:00;09:30:00;2;1.50\nENT;X1;Y1;1.00\nENT;Y1;X1;0.50\nBAT;CH1;B2;C;;;0;0.00\nTIM;08:00:00\nTIM;12:34:56\nLIQ;BANKA;L1;X1;SX;10.00\nOBJ;BANKB;O1;CH1;B1\nCNF;CH1;c-1;B1;Y\nCNF;CH1;C2;B1;N\nCYC;CH1;Y1;START\nCYC;CH1;Y2;END\nPAY;BANKA;P2;N;X1;Y1;0.01\nTIM;23:59:59\nEND\n";

// Whether a sink with this much room gets this text of a day, and no fault.
fn puts(alloc: Global, day: &Day, room: usize, text: &[u8]) -> Result<bool, AllocError>
    requires { MeetsRules day.now }
{
    let mut sink = MemSink::over(vec![in alloc; 0u8; room]?, Vec::new(alloc));
    let all = put_day(day, &mut sink) == Ok(());
    Ok(all && sink.written() == text)
}

// Whether a sink with room for ten bytes gets a front of it, and a fault.
fn puts_front(alloc: Global, day: &Day, text: &[u8]) -> Result<bool, AllocError>
    requires { MeetsRules day.now }
{
    let mut sink = MemSink::over(vec![in alloc; 0u8; 10]?, Vec::new(alloc));
    let full = put_day(day, &mut sink) == Err(WriteFault);
    Ok(full && sink.written().len() == 10 && text.starts_with(sink.written()))
}

// Days as they are read, and as they are written.
const DAYS: [(&[u8], &[u8]); 3] = [
    (EACH_KIND, EACH_KIND_WRITTEN),
    // Other line ends, empty lines and quotes.
    (
        b"\"DAY\";2024-02-29\r\n\r\n\"AS\";\"CH1\";AC\rACC;X1;DCA;BANKA;\"\";10000000000000000.00\n\nEND\r\n",
        b"DAY;2024-02-29\nAS;CH1;AC\nACC;X1;DCA;BANKA;;10000000000000000.00\nEND\n",
    ),
    // Version 2: a batch without ends, with one of them and with both.
    (
        b"VER;2\nDAY;2025-06-02\nAS;CH1;AE\nBAT;CH1;B1;A;0;0.00\nBAT;CH1;B2;A;3;200.00;till=11:00:00\nENT;X1;TA;40.00\nTIM;09:00:00\nBAT;CH1;B3;E;9999999;10000000000000000.00;info=00:00:00\nENT;X1;Y1;0.01\nENT;Y1;X1;99999999999.99\nBAT;CH1;B4;E;1;1.00;info=10:00:00;till=24:00:00\nEND\n",
        b"VER;2\nDAY;2025-06-02\nAS;CH1;AE\nBAT;CH1;B1;A;0;0.00\nBAT;CH1;B2;A;3;200.00;till=11:00:00\nENT;X1;TA;40.00\nTIM;09:00:00\nBAT;CH1;B3;E;9999999;10000000000000000.00;info=00:00:00\nENT;X1;Y1;0.01\nENT;Y1;X1;99999999999.99\nBAT;CH1;B4;E;1;1.00;info=10:00:00;till=24:00:00\nEND\n",
    ),
];

// Whether the day of an input is written as this text, and a front of it where there is no room.
fn is_written(
    rt: &impl Abort,
    alloc: Global,
    input: &[u8],
    text: &[u8],
) -> Result<bool, AllocError> {
    let (day, len) = read_day(alloc, input).ok().expect(rt, "a day");
    let whole = puts(alloc, &day, text.len(), text);
    let front = puts_front(alloc, &day, text);
    drop(day);
    Ok(len == input.len() && whole? && front?)
}

// Whether the text is read as a day that is written as it is.
fn is_read_back(rt: &impl Abort, alloc: Global, text: &[u8]) -> Result<bool, AllocError> {
    let (again, all) = read_day(alloc, text).ok().expect(rt, "a day again");
    let whole = puts(alloc, &again, text.len(), text);
    drop(again);
    Ok(all == text.len() && whole?)
}

#[test]
fn days_are_written_and_read_back(rt: HostRuntime) -> Result<(), Fail> {
    let alloc = rt.alloc();
    for (input, text) in DAYS {
        assert!(rt; is_written(&rt, alloc, input, text)?);
        assert!(rt; is_read_back(&rt, alloc, text)?);
    }
    Ok(())
}
