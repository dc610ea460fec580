use batch_records::read_day;
use rule_book::Setting;
use rule_book::batches::{debtor, debtor_number, gross};
use rule_book::parts::sent_before;
use std::alloc::Global;
use std::process::Abort;

// X1 is account 1, Y1 2, Z1 3, and the technical accounts are 4 and 5. Messages 1 and 2 are batches of B, 3 one of A, and 4 a
// payment. NOBODY is no account's name.
const DAY: &str =
    "DAY;2025-06-02\nAS;CH;AB\nACC;X1;DCA;BANKX;;100.00\nACC;Y1;DCA;BANKY;;100.00\nACC;Z1;DCA;BANKZ;;0.00\nACC;TA;TEC;CH;A;0.00\nACC;TB;TEC;CH;B;0.00\nBAT;CH;B1;B;;;5;35.00\nENT;X1;TB;10.00\nENT;Y1;TB;5.00\nENT;X1;TB;2.50\nENT;TB;X1;7.00\nENT;TB;Z1;10.50\nBAT;CH;B2;B;;;3;3.01\nENT;NOBODY;TB;1.00\nENT;Y1;TB;2.00\nENT;Y1;TB;0.01\nBAT;CH;A1;A;;;3;14.00\nENT;X1;TA;3.00\nENT;X1;TA;4.00\nENT;TA;Y1;7.00\nPAY;BANKX;P1;N;X1;Y1;1.00\nEND\n";

// What the debit entries of a message take from an account, in cents. What a batch pays out isn't among it, and number 0 is that
// of a name that is no account's.
const TAKEN: [(u32, u32, u128); 16] = [
    (1, 1, 1250),
    (1, 2, 500),
    (1, 3, 0),
    (1, 5, 0),
    (1, 0, 0),
    (1, 6, 0),
    (2, 0, 100),
    (2, 1, 0),
    (2, 2, 201),
    (2, 3, 0),
    (3, 1, 700),
    (3, 2, 0),
    (3, 4, 0),
    (4, 1, 0),
    (0, 1, 0),
    (5, 1, 0),
];

fn setting_of(rt: &impl Abort, alloc: Global) -> Setting {
    let (day, _) = read_day(alloc, DAY.as_bytes()).ok().expect(rt, "a day");
    Setting::build(alloc, day).ok().expect(rt, "memory")
}

// Which accounts the batches of B debit, one after another: a number, a batch, and the account that is entered under the number, where
// it is one of the batch.
const DEBTORS: [(u32, u32, Option<u32>); 7] = [
    (0, 1, Some(1)),
    (1, 1, Some(2)),
    (2, 1, None),
    (2, 2, Some(0)),
    (3, 2, Some(2)),
    (3, 3, None),
    (4, 2, None),
];

// The last message of its sender before each message.
const BEFORE: [(u32, Option<u32>); 4] = [(1, None), (2, Some(1)), (3, Some(2)), (4, None)];

fn first_wrong_debtor(setting: &Setting) -> Option<usize> {
    for (row, (i, n, account)) in DEBTORS.iter().enumerate() {
        if debtor(setting, *n, *i) != *account {
            return Some(row);
        }
    }
    None
}

fn first_wrong_before(setting: &Setting) -> Option<usize> {
    for (row, (n, before)) in BEFORE.iter().enumerate() {
        if told_before(setting, *n) != *before {
            return Some(row);
        }
    }
    None
}

fn told_before(setting: &Setting, n: u32) -> Option<u32> {
    if n == 0 || setting.day.message_count() < n as usize {
        return None;
    }
    sent_before(setting, n)
}

fn first_wrong(setting: &Setting) -> Option<usize> {
    for (i, (n, a, sum)) in TAKEN.iter().enumerate() {
        if gross(setting, *n, *a) != *sum {
            return Some(i);
        }
    }
    None
}

#[test]
fn all_that_a_batch_takes_from_an_account(rt: HostRuntime) {
    let alloc = rt.alloc();
    let setting = setting_of(&rt, alloc);
    let wrong = first_wrong(&setting);
    drop(setting);
    assert_eq!(rt; wrong, None);
}

#[test]
fn debtors_of_a_batch_stand_together(rt: HostRuntime) {
    let alloc = rt.alloc();
    let setting = setting_of(&rt, alloc);
    let wrong = first_wrong_debtor(&setting);
    let number = debtor_number(&setting, 2, 2);
    let none = debtor_number(&setting, 1, 3);
    drop(setting);
    assert_eq!(rt; wrong, None);
    assert_eq!(rt; number, Some(3));
    assert_eq!(rt; none, None);
}

#[test]
fn last_message_of_a_sender_before_another(rt: HostRuntime) {
    let alloc = rt.alloc();
    let setting = setting_of(&rt, alloc);
    let wrong = first_wrong_before(&setting);
    drop(setting);
    assert_eq!(rt; wrong, None);
}
