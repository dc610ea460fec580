//! The net positions of trades.
ghost use Rattle.std.specs.Prelude.{◌≡◌, ◌+◌, ◌<◌, ◌≤◌, ℕ, List, [], ◌∷◌, ◌++◌, filter, map, slice_get, sum_by, IfOk, OnOk, if◌then◌else◌};
ghost use Rattle.cash_amounts.specs.declared.cents.TheConstants.{MAX_CENTS};
ghost use Rattle.cash_amounts.specs.Tests.{same_name};
ghost use Rattle.indexmap.specs.IndexMap.{index_map_len, keys};
ghost use Rattle.as_client.specs.Netting.{amount_of_trade, is_open, net};
ghost use Rattle.as_client.specs.Turnovers.{AreTurnovers, HasRoom, IsSmall, left, position_in, turnover_in, with_more, with_name, with_trade};

use crate::trade::{Position, Trade};
use cash_amounts::{Memory, Name};
use indexmap::IndexMap;
use refused_memory::{insert_last, push};
use std::alloc::Global;

// What an account has received and what it has paid, in cents.
#[derive(Clone, Copy)]
struct Turnover {
    received: u64,
    paid: u64,
}

// What an account of no trade has.
const NOTHING: Turnover = Turnover {
    received: 0,
    paid: 0,
};

// Adds to what an account has received and paid. An account that is new goes last.
fn add(
    turnovers: &mut IndexMap<Name, Turnover>,
    account: &Name,
    received: u64,
    paid: u64,
) -> Result<(), Memory>
    requires received { (turnover_in turnovers.old account.now).received + received ≤ MAX_CENTS }
    requires paid { (turnover_in turnovers.old account.now).paid + paid ≤ MAX_CENTS }
    ensures names { OnOk result (keys turnovers.new ≡ with_name (keys turnovers.old) account.now) }
    ensures added { OnOk result ((other : List ℕ)
        → turnover_in turnovers.new other
        ≡ (if same_name account.now other then with_more (turnover_in turnovers.old account.now)
        received paid else turnover_in turnovers.old other)) }
{
    let before = turnovers.get(account).copied().unwrap_or(NOTHING);
    let after = Turnover {
        received: before.received + received,
        paid: before.paid + paid,
    };
    insert_last(turnovers, account.copy(), after)?;
    Ok(())
}

// Adds a trade, to its payer first.
fn add_trade(turnovers: &mut IndexMap<Name, Turnover>, trade: &Trade) -> Result<(), Memory>
    requires { (account : List ℕ) → HasRoom (turnover_in turnovers.old account) trade.now.amount }
    ensures names { OnOk result (keys turnovers.new
        ≡ with_name (with_name (keys turnovers.old) trade.now.payer) trade.now.payee) }
    ensures added { OnOk result ((account : List ℕ) → turnover_in turnovers.new account
        ≡ with_trade trade.now account (turnover_in turnovers.old account)) }
{
    let amount = trade.amount.get();
    add(turnovers, &trade.payer, 0, amount)?;
    add(turnovers, &trade.payee, amount, 0)?;
    Ok(())
}

// What the accounts of the trades have received and paid, by first mention.
fn turnovers(alloc: Global, trades: &[Trade]) -> Result<IndexMap<Name, Turnover>, Memory>
    requires { sum_by amount_of_trade trades.now ≤ MAX_CENTS }
    ensures { IfOk result (λ turnovers. AreTurnovers trades.now turnovers) }
{
    let mut turnovers = IndexMap::new(alloc);
    for trade in trades {
        add_trade(&mut turnovers, trade)?;
    }
    Ok(turnovers)
}

// What is left of a turnover, in cents.
fn left(turnover: Turnover) -> i64
    requires { IsSmall turnover }
    ensures { result ≡ left turnover }
{
    turnover.received as i64 - turnover.paid as i64
}

// The position of the account at a place.
fn position_at(turnovers: &IndexMap<Name, Turnover>, i: usize) -> Position
    requires within { i < index_map_len turnovers.now }
    requires small { (account : List ℕ) → IsSmall (turnover_in turnovers.now account) }
    ensures { slice_get (map (position_in turnovers.now) (keys turnovers.now)) i ≡ Some result }
{
    let (account, turnover) = turnovers.get_index(i).unwrap();
    Position {
        account: account.copy(),
        sum: left(*turnover),
    }
}

// Puts a position at the end, unless it is zero.
fn push_open(positions: &mut Vec<Position>, position: Position) -> Result<(), Memory>
    ensures { OnOk result (positions.new.items
        ≡ positions.old.items ++ filter is_open (position ∷ [])) }
{
    if position.sum != 0 {
        push(positions, position)?;
    }
    Ok(())
}

// The positions that aren't zero.
fn open_positions(
    alloc: Global,
    turnovers: &IndexMap<Name, Turnover>,
) -> Result<Vec<Position>, Memory>
    requires { (account : List ℕ) → IsSmall (turnover_in turnovers.now account) }
    ensures { IfOk result (λ positions. positions.items
        ≡ filter is_open (map (position_in turnovers.now) (keys turnovers.now))) }
{
    let mut positions = Vec::new(alloc);
    for i in 0..turnovers.len() {
        push_open(&mut positions, position_at(turnovers, i))?;
    }
    Ok(positions)
}

/// What each account of the trades has received less what it has paid, where that isn't zero. The accounts stand in the
/// order in which the trades name them first, the payer of a trade before its payee. `Memory` says that there wasn't
/// enough of it. Trades whose amounts sum to more than `MAX_CENTS` can't be given.
#[tactic(auto, using(crate::proofs::TurnoverFacts::net_is, crate::proofs::TurnoverFacts::small_turnovers))]
pub fn net(alloc: Global, trades: &[Trade]) -> Result<Vec<Position>, Memory>
    requires { sum_by amount_of_trade trades.now ≤ MAX_CENTS }
    ensures { IfOk result (λ positions. positions.items ≡ net trades.now) }
{
    let turnovers = turnovers(alloc, trades)?;
    let positions = open_positions(alloc, &turnovers)?;
    Ok(positions)
}
