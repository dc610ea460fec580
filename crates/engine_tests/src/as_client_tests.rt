ghost use Rattle.std.specs.Prelude.{◌≡◌};

use as_client::{BatchFault, Position, Trade, batch_of, net};
use batch_records::{Body, Entry};
use cash_amounts::{Cents, Name, Procedure};
use std::process::Abort;

fn name(rt: &impl Abort, text: &[u8]) -> Name {
    Name::read(text).expect(rt, "a name")
}

fn trade(rt: &impl Abort, payer: &[u8], payee: &[u8], cents: u64) -> Trade
    ensures { result.amount ≡ cents }
{
    Trade {
        payer: name(rt, payer),
        payee: name(rt, payee),
        amount: Cents::of(cents).expect(rt, "an amount"),
    }
}

fn position(rt: &impl Abort, account: &[u8], sum: i64) -> Position
    ensures { result.sum ≡ sum }
{
    Position {
        account: name(rt, account),
        sum,
    }
}

// Accounts, and what each gains, in cents.
const NETTED: [(&[u8], i64); 3] = [(b"X1", -3000), (b"Y1", -2000), (b"Z1", 5000)];

fn is_position(position: &Position, account: &[u8], sum: i64) -> bool {
    position.account.as_bytes() == account && position.sum == sum
}

fn are_netted(positions: &[Position]) -> bool {
    if positions.len() != NETTED.len() {
        return false;
    }
    for (position, (account, sum)) in positions.iter().zip(NETTED) {
        if !is_position(position, account, sum) {
            return false;
        }
    }
    true
}

#[test]
fn nets(rt: HostRuntime) {
    let trades = [
        trade(&rt, b"X1", b"Y1", 3000),
        trade(&rt, b"Y1", b"Z1", 5000),
    ];
    let positions = net(rt.alloc(), &trades).ok().expect(&rt, "memory");
    let netted = are_netted(&positions);
    drop(positions);
    assert!(rt; netted);
}

fn is_entry(entry: &Entry, debit: &[u8], credit: &[u8], cents: u64) -> bool {
    entry.debit.as_bytes() == debit
        && entry.credit.as_bytes() == credit
        && entry.amount.get() == cents
}

fn are_entries(entries: &[Entry]) -> bool {
    entries.len() == 2
        && is_entry(&entries[0], b"Y1", b"TA", 3000)
        && is_entry(&entries[1], b"TA", b"X1", 3000)
}

// Whether it is the batch of two positions.
fn is_of_two(body: &Body) -> bool {
    match body {
        Body::Batch {
            info,
            till,
            count,
            sum,
            entries,
            ..
        } => {
            *info == Some(30_000)
                && *till == Some(40_000)
                && *count == 2
                && sum.get() == 6000
                && are_entries(entries.as_slice())
        }
        _ => false,
    }
}

#[test]
fn batches(rt: HostRuntime) {
    let technical = name(&rt, b"TA");
    let positions = [position(&rt, b"X1", 3000), position(&rt, b"Y1", -3000)];
    let batch = batch_of(
        rt.alloc(),
        &positions,
        &technical,
        Procedure::A,
        Some(30_000),
        Some(40_000),
    );
    let body = batch.ok().expect(&rt, "memory");
    let right = is_of_two(&body);
    drop(body);
    assert!(rt; right);
}

#[test]
fn unequal_positions_make_no_batch(rt: HostRuntime) {
    let technical = name(&rt, b"TA");
    let unequal = [position(&rt, b"X1", -3000), position(&rt, b"Y1", 2000)];
    match batch_of(rt.alloc(), &unequal, &technical, Procedure::B, None, None) {
        Err(BatchFault::Sum { sum }) => assert_eq!(rt; sum, -1000),
        _ => panic!(rt; "the sum"),
    }
}
