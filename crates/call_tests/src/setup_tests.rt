ghost use Rattle.batch_records.specs.Step.{IsInStep};

use batch_records::{DayCode, SoFar};
use record_rows::InputReader;
use std::process::Abort;

// What is said of a record of a setup, which is a line of this text.
fn said(so_far: &mut SoFar, text: &[u8]) -> Result<bool, DayCode>
    requires { IsInStep so_far.old }
    ensures { IsInStep so_far.new }
{
    let mut reader = InputReader::new();
    for b in text {
        if reader.whole() < 1_000_000 {
            reader.feed(*b);
        }
    }
    so_far.take_in_room(reader.row())
}

// Whether a record is taken.
fn takes(so_far: &mut SoFar, text: &[u8]) -> bool
    requires { IsInStep so_far.old }
    ensures { IsInStep so_far.new }
{
    matches!(said(so_far, text), Ok(true))
}

// Whether the setup is over by a record.
fn ends(so_far: &mut SoFar, text: &[u8]) -> bool
    requires { IsInStep so_far.old }
    ensures { IsInStep so_far.new }
{
    matches!(said(so_far, text), Ok(false))
}

// Whether a record is refused with a code.
fn refuses(so_far: &mut SoFar, text: &[u8], code: DayCode) -> bool
    requires { IsInStep so_far.old }
    ensures { IsInStep so_far.new }
{
    match said(so_far, text) {
        Ok(_) => false,
        Err(told) => told == code,
    }
}

// Whether the records of a first half of a setup are told as they should be.
fn begins(so_far: &mut SoFar) -> bool
    requires { IsInStep so_far.old }
    ensures { IsInStep so_far.new }
{
    let early = refuses(so_far, b"AS;CH1;A\n", DayCode::Place);
    let version = takes(so_far, b"VER;2\n");
    let end = refuses(so_far, b"END\n", DayCode::Place);
    let day = takes(so_far, b"DAY;2025-06-02\n");
    let system = takes(so_far, b"AS;CH1;A\n");
    let again = refuses(so_far, b"AS;CH1;B\n", DayCode::Twice);
    let account = takes(so_far, b"ACC;X1;DCA;BANKA;;1.00\n");
    let twice = refuses(so_far, b"ACC;X1;DCA;BANKB;;1.00\n", DayCode::Twice);
    early && version && end && day && system && again && account && twice
}

// The same of a second half.
fn goes_on(so_far: &mut SoFar) -> bool
    requires { IsInStep so_far.old }
    ensures { IsInStep so_far.new }
{
    let bank = refuses(so_far, b"AS;BANKA;A\n", DayCode::Setup);
    let message = ends(so_far, b"PAY;BANKA;P1;N;X1;X1;1.00\n");
    let technical = takes(so_far, b"ACC;TA;TEC;CH1;A;0.00\n");
    let reserve = takes(so_far, b"RES;X1;0.50;0.25\n");
    let again = refuses(so_far, b"RES;X1;0.50;0.25\n", DayCode::Twice);
    let other = refuses(so_far, b"RES;TA;0.50;0.25\n", DayCode::Setup);
    let end = ends(so_far, b"END\n");
    let unknown = refuses(so_far, b"FOO\n", DayCode::Kind);
    bank && message && technical && reserve && again && other && end && unknown
}

#[test]
fn setups_are_taken_in_room(rt: HostRuntime) {
    let mut so_far = match SoFar::with_room(rt.alloc()) {
        Ok(so_far) => so_far,
        Err(_) => panic!(rt; "memory"),
    };
    let begun = begins(&mut so_far);
    let gone_on = goes_on(&mut so_far);
    drop(so_far);
    assert!(rt; begun);
    assert!(rt; gone_on);
}
