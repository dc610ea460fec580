//! Sweeps: at midnight a sub-account hands over what it holds.
ghost use Rattle.std.specs.Prelude.{◌≡◌, ◌≤◌, true, [], unwrap_or};
ghost use Rattle.rule_book.specs.Answering.{has_accounts, IsAnswer};
ghost use Rattle.machine.specs.Making.Lines.{may_sweep, sweep_move};
ghost use Rattle.machine.specs.Making.Reasons.{why_not_sweep};
ghost use Rattle.machine.specs.Records.Setup.{first_dca, is_sub_account, owner};

use commit_journal::{Code, Head, Kind, Move, MoveList, Want};
use period_calendar::MIDNIGHT;
use rule_book::lines::head;
use rule_book::parts::{first_dca, is_sub_account, owner_of};
use rule_book::{Desk, Setting, Why};

// Where the money of a sub-account goes; 0 where its owner has no dedicated cash account, which no sound day has.
fn target(setting: &Setting, a: u32) -> u32
    requires sub { is_sub_account setting.now.day a ≡ true }
    ensures { result ≡ unwrap_or (first_dca setting.now.day (owner setting.now.day a)) 0 }
{
    match owner_of(setting, a) {
        Some(owner) => first_dca(setting, owner).unwrap_or(0),
        None => 0,
    }
}

fn sweep_move<D: Desk>(desk: &D, a: u32) -> Move
    requires sub { is_sub_account (D.day desk.now) a ≡ true }
    requires held { D.held desk.now a ≡ true }
    ensures { result ≡ sweep_move (D.day desk.now) (D.past desk.now) a }
{
    Move {
        debit: a,
        credit: target(desk.setting(), a),
        amount: desk.balance(a),
    }
}

#[tactic(auto, unfolding(machine::specs::Making::Reasons::why_not_sweep))]
fn why_not_swept<D: Desk>(desk: &D, a: u32) -> Option<Why>
    requires { has_accounts (D.held desk.now) (D.day desk.now) (Want.Sweep a) ≡ true }
    ensures { result ≡ why_not_sweep (D.day desk.now) (D.past desk.now) a }
{
    if let Some(place) = desk.ended() {
        return Some(Why::Over { place });
    }
    if !is_sub_account(desk.setting(), a) {
        return Some(Why::NoSuch);
    }
    let clock = desk.clock();
    if clock != MIDNIGHT {
        return Some(Why::Clock { clock });
    }
    if desk.balance(a).get() == 0 {
        return Some(Why::Empty);
    }
    None
}

/// Answers that account a be swept: its whole balance goes to its owner's first dedicated cash account. Or why not, the first of
/// these: `Over`, the day has ended; `NoSuch`, it is no sub-account; `Clock`, it isn't midnight; `Empty`. With a reason `moves`
/// is as before.
pub(crate) fn sweep<D: Desk>(desk: &D, a: u32, moves: &mut MoveList) -> Result<Head, Why>
    requires held { has_accounts (D.held desk.now) (D.day desk.now) (Want.Sweep a) ≡ true }
    requires empty { moves.old.moves ≡ [] }
    requires room { 1 ≤ moves.old.room }
    ensures { IsAnswer (D.day desk.now) (D.past desk.now) (Want.Sweep a) moves.old moves.new
        result }
{
    match why_not_swept(desk, a) {
        Some(why) => Err(why),
        None => {
            moves.push(sweep_move(desk, a));
            Ok(head(Kind::Sweep, 0, a, Code::Ok))
        }
    }
}

/// Whether account a has to be swept, unless the day is over.
pub(crate) fn may_sweep<D: Desk>(desk: &D, a: u32) -> bool
    requires { has_accounts (D.held desk.now) (D.day desk.now) (Want.Sweep a) ≡ true }
    ensures { result ≡ may_sweep (D.day desk.now) (D.past desk.now) a }
{
    if !is_sub_account(desk.setting(), a) {
        return false;
    }
    desk.clock() == MIDNIGHT && 0 < desk.balance(a).get()
}
