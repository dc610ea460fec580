//! Laws of the row of items, each as the contract of a function without a body of its own.
ghost use Rattle.std.specs.Prelude.{ℕ, ◌≡◌, ◌<◌, ◌≤◌, ◌+◌, ◌*◌, ◌∷◌, Bool, true, false, not, ◌&&◌, ◌||◌, Option, Some, None, is_some, nat_lt, length};
ghost use Rattle.std.specs.List.{list_any};
ghost use Rattle.batch_records.specs.DayRecord.{Day};
ghost use Rattle.batch_records.specs.Sound.{is_sound};
ghost use Rattle.commit_journal.specs.Line.{Line, History};
ghost use Rattle.machine.specs.Records.Setup.{account_numbers};
ghost use Rattle.machine.specs.Records.Messages.{entries};
ghost use Rattle.machine.specs.Stages.Pending.{item};
ghost use Rattle.machine.specs.Telling.History.{is_ended};
ghost use Rattle.machine.specs.Making.Lines.{is_ready, is_ready_item, line_of, item_want, may_sweep};
ghost use Rattle.machine.specs.Legal.{IsLegal};
ghost use Rattle.machine.specs.Orders.Bounds.{entries_of_all, left, line_limit};
ghost use Rattle.machine.specs.Orders.Order.{append, scan, quiet, one_scan};
ghost use Rattle.scan_laws.specs.Next.{HasOneBy, IsNext, Represents, next_of};
ghost use Rattle.scan_laws.specs.Candidates.{FindsAnew, HasCandidates, IsFirstRound, ready_on};
ghost use Rattle.scan_laws.specs.Numbers.{IsItem, is_earlier, item_count, item_number, item_of};
ghost use Rattle.scan_laws.specs.Runs.{flat_step, has_line, line_at, next_ready, quiet_from, settle_from, steps_left, scan_from, want_at};

/// Each number below the count is that of one item of the day, each item of the day has one, and they rise by message and entry.
pub fn items_are_numbered()
    ensures item { (day : Day) (i : ℕ) → i < item_count day
        → IsItem day (item_of day i).msg (item_of day i).entry }
    ensures back { (day : Day) (i : ℕ) → i < item_count day
        → item_number day (item_of day i).msg (item_of day i).entry ≡ i }
    ensures within { (day : Day) (n k : ℕ) → IsItem day n k → item_number day n k < item_count day }
    ensures there { (day : Day) (n k : ℕ) → IsItem day n k
        → item_of day (item_number day n k) ≡ item n k }
    ensures order { (day : Day) (n k m j : ℕ) → IsItem day n k → IsItem day m j
        → nat_lt (item_number day n k) (item_number day m j) ≡ is_earlier n k m j }
{}

/// The first number is 0, each entry's is one more than the one before it, and a message's first one is after the message before it. There
/// are as many as messages and entries, and of a sound day fewer than the limit of lines.
pub fn numbers_are_sums()
    ensures first { (day : Day) → item_number day 1 0 ≡ 0 }
    ensures entry { (day : Day) (n k : ℕ) → item_number day n k ≡ item_number day n 0 + k }
    ensures message { (day : Day) (n : ℕ) → 1 ≤ n
        → item_number day (n + 1) 0 ≡ item_number day n 0 + (length (entries day n) + 1) }
    ensures last { (day : Day) → item_number day (length day.messages + 1) 0 ≡ item_count day }
    ensures all { (day : Day) → item_count day ≡ length day.messages + entries_of_all day }
    ensures few { (day : Day) → is_sound day ≡ true → item_count day < line_limit }
{}

/// Where members represent what is ready from p on, the next member is the next ready number, and where there is no member nothing is
/// ready. They do where each member is ready and each ready number has a member that does not come after it; they still do from the
/// next member on, and where none is left, from the beginning.
pub fn next_is_seen()
    ensures next { (members ready : ℕ → Bool) (p : ℕ) (o : Option ℕ) → Represents members ready p
        → IsNext members p o → IsNext ready p o }
    ensures empty { (members ready : ℕ → Bool) (p : ℕ) → Represents members ready p
        → ((n : ℕ) → members n ≡ false) → (n : ℕ) → ready n ≡ false }
    ensures from_ones { (members ready : ℕ → Bool) (p : ℕ)
        → ((x : ℕ) → members x ≡ true → ready x ≡ true)
        → ((x : ℕ) → ready x ≡ true → HasOneBy members p x) → Represents members ready p }
    ensures moved { (members ready : ℕ → Bool) (p x : ℕ) → Represents members ready p
        → IsNext members p (Some x) → Represents members ready x }
    ensures turned { (members ready : ℕ → Bool) (p : ℕ) → Represents members ready p
        → IsNext members p None → Represents members ready 0 }
    ensures one { (test : ℕ → Bool) (p : ℕ) (o q : Option ℕ) → IsNext test p o → IsNext test p q
        → o ≡ q }
    ensures computed { (test : ℕ → Bool) (p n : ℕ) → ((k : ℕ) → p + n ≤ k → test k ≡ false)
        → IsNext test p (next_of test p n) }
{}

/// Members with a candidate of each account represent what is ready. A candidate is the next ready item of its account, or where there is
/// none from the place on, the first of all. It stays one over the line of the next ready item, where that doesn't stand on the account and
/// the same items on it are ready after the line; so only the accounts that a line touches have their candidates found anew. At the turn to
/// the beginning all stay.
pub fn candidates_are_kept()
    ensures represent { (members ready : ℕ → Bool) (stands : ℕ → ℕ → Bool) (p : ℕ)
        (candidate : ℕ → Option ℕ) → HasCandidates members ready stands p candidate
        → Represents members ready p }
    ensures next { (test : ℕ → Bool) (p y : ℕ) → IsNext test p (Some y)
        → IsFirstRound test p (Some y) }
    ensures round { (test : ℕ → Bool) (p : ℕ) (o : Option ℕ) → IsNext test p None → IsNext test 0 o
        → IsFirstRound test p o }
    ensures kept { (ready later : ℕ → Bool) (stands : ℕ → ℕ → Bool) (p x a : ℕ) (o : Option ℕ)
        → IsNext ready p (Some x) → stands a x ≡ false
        → ((k : ℕ) → stands a k ≡ true → later k ≡ ready k)
        → IsFirstRound (ready_on ready stands a) p o
        → IsFirstRound (ready_on later stands a) (x + 1) o }
    ensures first { (ready later : ℕ → Bool) (stands : ℕ → ℕ → Bool)
        (candidate newer : ℕ → Option ℕ) (touched : ℕ → Bool) (p x : ℕ) → IsNext ready p (Some x)
        → ((a : ℕ) → IsFirstRound (ready_on ready stands a) p (candidate a))
        → FindsAnew ready later stands candidate newer touched x → (a : ℕ)
        → IsFirstRound (ready_on later stands a) (x + 1) (newer a) }
    ensures turned { (members ready : ℕ → Bool) (stands : ℕ → ℕ → Bool) (p : ℕ)
        (candidate : ℕ → Option ℕ) → IsNext members p None
        → HasCandidates members ready stands p candidate
        → HasCandidates members ready stands 0 candidate }
{}

/// An item has a line exactly where it is ready and the End line doesn't stand; no number from the count on has one.
pub fn lines_of_items()
    ensures ready { (day : Day) (J : History) (i : ℕ)
        → has_line day J i
        ≡ (not (is_ended J) && is_ready_item day J (item_of day i).msg (item_of day i).entry) }
    ensures within { (day : Day) (J : History) (i : ℕ) → has_line day J i ≡ true
        → i < item_count day }
    ensures step { (day : Day) (J : History) (n k : ℕ) → IsItem day n k
        → flat_step day J (item_number day n k) ≡ append day J (item_want day J n k) }
    ensures item { (day : Day) (J : History) (n k : ℕ) → IsItem day n k
        → line_at day J (item_number day n k) ≡ line_of day J (item_want day J n k) }
{}

/// A scan of the machine goes once over the row of items.
pub fn scans_are_flat()
    ensures one_scan { (day : Day) (J : History)
        → scan day J ≡ one_scan (flat_step day) J (item_count day) }
    ensures whole { (day : Day) (J : History) → scan day J ≡ scan_from day J 0 }
    ensures done { (day : Day) (J : History) (p : ℕ) → item_count day ≤ p → scan_from day J p ≡ J }
{}

/// A stretch of which no item has a line is passed over, and an item that has one adds it.
pub fn idle_stretches()
    ensures over { (day : Day) (J : History) (p q : ℕ) → p ≤ q
        → ((i : ℕ) → p ≤ i → i < q → has_line day J i ≡ false)
        → scan_from day J p ≡ scan_from day J q }
    ensures line { (day : Day) (J : History) (q : ℕ) (l : Line) → line_at day J q ≡ Some l
        → scan_from day J q ≡ scan_from day (l ∷ J) (q + 1) }
{}

/// The next ready item is the least from the place on that has a line, and is what any members show that represent these. By it
/// it is told whether anything is ready at all, as time asks before it passes.
pub fn ready_is_seen()
    ensures next { (day : Day) (J : History) (p : ℕ)
        → IsNext (has_line day J) p (next_ready day J p) }
    ensures same { (day : Day) (J : History) (p : ℕ) (o : Option ℕ) → IsNext (has_line day J) p o
        → next_ready day J p ≡ o }
    ensures within { (day : Day) (J : History) (p x : ℕ) → next_ready day J p ≡ Some x
        → (p ≤ x) × (x < item_count day) }
    ensures empty { (day : Day) (J : History) (members : ℕ → Bool) (p q : ℕ)
        → Represents members (has_line day J) p → ((n : ℕ) → members n ≡ false)
        → next_ready day J q ≡ None }
    ensures any { (day : Day) (J : History) → is_ended J ≡ false
        → is_ready day J
        ≡ (is_some (next_ready day J 0) || list_any (may_sweep day J) (account_numbers day)) }
    ensures seen { (day : Day) (J : History) (members : ℕ → Bool) (p : ℕ) (o : Option ℕ)
        → Represents members (has_line day J) p → IsNext members p o → next_ready day J p ≡ o }
{}

/// The run that goes from one item that has a line to the next is the scans: whole, with as much fuel as there are steps left, and step
/// by step, where the steps left fall.
pub fn settles_quietly()
    ensures run { (day : Day) (J : History) (fuel : ℕ) → is_sound day ≡ true → IsLegal day J
        → 2 * left day J ≤ fuel → settle_from day fuel J 0 ≡ quiet day J }
    ensures anywhere { (day : Day) (J : History) (p fuel : ℕ) → is_sound day ≡ true → IsLegal day J
        → steps_left day J p ≤ fuel → settle_from day fuel J p ≡ quiet_from day J p }
    ensures start { (day : Day) (J : History) → is_sound day ≡ true → IsLegal day J
        → quiet_from day J 0 ≡ quiet day J }
    ensures line { (day : Day) (J : History) (p x : ℕ) (l : Line) → next_ready day J p ≡ Some x
        → line_at day J x ≡ Some l → quiet_from day J p ≡ quiet_from day (l ∷ J) (x + 1) }
    ensures turn { (day : Day) (J : History) (p : ℕ) → is_sound day ≡ true → IsLegal day J
        → next_ready day J p ≡ None → quiet_from day J p ≡ quiet_from day J 0 }
    ensures end { (day : Day) (J : History) (p : ℕ) → next_ready day J 0 ≡ None
        → quiet_from day J p ≡ J }
    ensures legal { (day : Day) (J : History) (x : ℕ) (l : Line) → IsLegal day J
        → line_at day J x ≡ Some l → IsLegal day (l ∷ J) }
    ensures falls { (day : Day) (J : History) (p x : ℕ) (l : Line) → is_sound day ≡ true
        → IsLegal day J → line_at day J x ≡ Some l
        → steps_left day (l ∷ J) (x + 1) < steps_left day J p }
    ensures turn_falls { (day : Day) (J : History) (p : ℕ) → 1 ≤ p
        → steps_left day J 0 < steps_left day J p }
{}

/// One turn of a loop that visits the next item that has a line: what the scans make from after it is what they made, and the steps left
/// fall.
pub fn visits_go_on()
    ensures same { (day : Day) (J K : History) (p x : ℕ) → next_ready day J p ≡ Some x
        → K ≡ append day J (want_at day J x) → quiet_from day K (x + 1) ≡ quiet_from day J p }
    ensures falls { (day : Day) (J K : History) (p x : ℕ) → is_sound day ≡ true → IsLegal day J
        → next_ready day J p ≡ Some x → K ≡ append day J (want_at day J x)
        → steps_left day K (x + 1) < steps_left day J p }
{}
