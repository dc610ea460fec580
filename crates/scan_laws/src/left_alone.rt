//! Laws of what a line leaves as it was, each as the contract of a function without a body of its own.
ghost use Rattle.std.specs.Prelude.{ℕ, ◌≡◌, ◌∷◌, ◌+◌, ◌<◌, ◌≤◌, Bool, true, false, not, ◌&&◌, Option, Some, None, is_none, is_some, length, nat_le};
ghost use Rattle.std.specs.List.{list_any};
ghost use Rattle.period_calendar.specs.declared.time.TheConstants.{MIDNIGHT};
ghost use Rattle.batch_records.specs.DayRecord.{Day};
ghost use Rattle.batch_records.specs.declared.day.Entry.{Entry};
ghost use Rattle.commit_journal.specs.Line.{Line, History};
ghost use Rattle.machine.specs.Telling.History.{clock, is_accepted, is_end, is_ended, is_time};
ghost use Rattle.machine.specs.Telling.Balances.{balance};
ghost use Rattle.machine.specs.Stages.Phases.{phase};
ghost use Rattle.machine.specs.Stages.Pending.{item, is_pending, is_blocked, debit_accounts, standing, stands_on};
ghost use Rattle.machine.specs.Making.Lines.{is_ready_item, item_want, line_of};
ghost use Rattle.machine.specs.Records.Messages.{earliest, entries, info_end, is_b, is_batch, part, settlement_end, sort_of};
ghost use Rattle.machine.specs.Records.Reserves.{must_leave};
ghost use Rattle.machine.specs.Legal.{IsLegal};
ghost use Rattle.scan_laws.specs.Concerns.{concerns, is_about, is_due, SameFacts};
ghost use Rattle.scan_laws.specs.Items.{concerns_item, IsSameItem};
ghost use Rattle.scan_laws.specs.Queues.{HasSameQueue};
ghost use Rattle.scan_laws.specs.Touched.{moves_on, touches, waits_on};
ghost use Rattle.scan_laws.specs.Unchanged.{IsUnchanged};
ghost use Rattle.scan_laws.specs.Next.{IsNext};
ghost use Rattle.scan_laws.specs.Candidates.{IsFirstRound, ready_on};
ghost use Rattle.scan_laws.specs.Runs.{has_line, line_at};
ghost use Rattle.scan_laws.specs.Waits.{waits_at};
ghost use Rattle.scan_laws.specs.Views.{alone, ready_by, whole_by};

/// Of a message that a line isn't about the history tells the same before it and after it.
pub fn facts_are_kept()
    ensures facts { (day : Day) (J : History) (l : Line) (n : ℕ) → is_about day J l n ≡ false
        → SameFacts day (l ∷ J) J n }
    ensures phase { (day : Day) (K J : History) (n : ℕ) → SameFacts day K J n → clock K ≡ clock J
        → phase day K n ≡ phase day J n }
{}

/// Whether an item is ready is told by the phase of its message and the clock alone, or else by whether it is pending, and on the accounts on
/// which it stands by what stands before it and by the money.
pub fn readiness_is_seen()
    ensures seen { (day : Day) (J : History) (n k : ℕ)
        → is_ready_item day J n k
        ≡ ready_by day n k (alone day n k (phase day J n) (clock J)) (is_pending day J (item n k))
        (is_blocked day J (item n k)) (balance day J) }
{}

/// A message that a line doesn't concern is as it was: its facts, its phase, and which of its items are pending, and where they stand. So is an
/// item that a line doesn't concern, of a message that it may concern.
pub fn unconcerned_is_unchanged()
    ensures message { (day : Day) (J : History) (l : Line) (n : ℕ) → IsLegal day (l ∷ J)
        → concerns day J l n ≡ false → IsUnchanged day (l ∷ J) J n }
    ensures item { (day : Day) (J : History) (l : Line) (n k : ℕ) → IsLegal day (l ∷ J)
        → concerns_item day J l n k ≡ false → IsSameItem day (l ∷ J) J n k }
{}

/// An account that a line doesn't touch keeps its balance, and the same stands on it before an item that was pending. The item of a line
/// stands on no such account.
pub fn untouched_is_left_alone()
    ensures balance { (day : Day) (J : History) (l : Line) (a : ℕ) → moves_on a l.moves ≡ false
        → balance day (l ∷ J) a ≡ balance day J a }
    ensures blocked { (day : Day) (J : History) (l : Line) (n k a : ℕ) → IsLegal day (l ∷ J)
        → concerns_item day J l n k ≡ false → is_pending day J (item n k) ≡ true
        → touches day J l a ≡ false
        → is_blocked day (l ∷ J) (item n k) a ≡ is_blocked day J (item n k) a }
    ensures own { (day : Day) (J : History) (l : Line) (a n k : ℕ)
        → line_of day J (item_want day J n k) ≡ Some l → touches day J l a ≡ false → 1 ≤ n
        → n ≤ length day.messages → k ≤ length (entries day n)
        → stands_on day a (item n k) ≡ false }
{}

/// An item is ready after a line exactly where it was before it, if the line doesn't concern it and touches none of the accounts on which it
/// stands, or if it is ready or not by the phase alone. So the same items of an account are ready after a line that doesn't touch it.
pub fn readiness_stays()
    ensures item { (day : Day) (J : History) (l : Line) (n k : ℕ) → IsLegal day (l ∷ J)
        → concerns_item day J l n k ≡ false
        → list_any (touches day J l) (debit_accounts day (item n k)) ≡ false
        → is_ready_item day (l ∷ J) n k ≡ is_ready_item day J n k }
    ensures alone { (day : Day) (J : History) (l : Line) (n k : ℕ) → IsLegal day (l ∷ J)
        → concerns_item day J l n k ≡ false
        → is_some (alone day n k (phase day J n) (clock J)) ≡ true
        → is_ready_item day (l ∷ J) n k ≡ is_ready_item day J n k }
    ensures account { (day : Day) (J : History) (l : Line) (a n k : ℕ) → IsLegal day (l ∷ J)
        → touches day J l a ≡ false → 1 ≤ n → n ≤ length day.messages → k ≤ length (entries day n)
        → is_b (sort_of day n) ≡ false → stands_on day a (item n k) ≡ true
        → is_ready_item day (l ∷ J) n k ≡ is_ready_item day J n k }
    ensures on { (J : History) (l : Line) → is_end l.head.kind ≡ false
        → is_ended (l ∷ J) ≡ is_ended J }
{}

/// Of an account that a line doesn't touch the same items wait after it. One that waits is ready where nothing stands before it and the balance
/// has what it takes and must leave, and a pending B batch where that is so of all its debtor accounts. What is ready besides is so by the phase alone; so what is
/// ready waits on an account, is a B batch, or is ready by the phase alone.
pub fn waiting_is_seen()
    ensures same { (day : Day) (J : History) (l : Line) (a n k : ℕ) → IsLegal day (l ∷ J)
        → touches day J l a ≡ false → 1 ≤ n → n ≤ length day.messages → k ≤ length (entries day n)
        → waits_on day (l ∷ J) a n k ≡ waits_on day J a n k }
    ensures ready { (day : Day) (J : History) (a n k : ℕ) (e : Entry) → waits_on day J a n k ≡ true
        → part day n k ≡ Some e
        → is_ready_item day J n k
        ≡ (not (is_blocked day J (item n k) a)
        && nat_le (e.amount + must_leave day n a) (balance day J a)) }
    ensures whole { (day : Day) (J : History) (n : ℕ) → is_b (sort_of day n) ≡ true
        → is_pending day J (item n 0) ≡ true
        → is_ready_item day J n 0 ≡ whole_by day n (is_blocked day J (item n 0)) (balance day J) }
    ensures alone { (day : Day) (J : History) (n k : ℕ) (b : Bool)
        → alone day n k (phase day J n) (clock J) ≡ Some b → is_ready_item day J n k ≡ b }
    ensures neither { (day : Day) (J : History) (n k : ℕ) → is_pending day J (item n k) ≡ false
        → alone day n k (phase day J n) (clock J) ≡ None → is_ready_item day J n k ≡ false }
    ensures each { (day : Day) (J : History) (n k : ℕ) → is_ready_item day J n k ≡ true
        → is_b (sort_of day n) ≡ false → is_none (alone day n k (phase day J n) (clock J)) ≡ true
        → ((a : ℕ) → waits_on day J a n k ≡ false) → ⊥ }
{}

/// A Time line puts the clock on, to midnight at most, and past no end of an accepted message. So a phase changes at it only where the message
/// is accepted and the line's time is its information end, its earliest time, its settlement end or midnight.
pub fn time_meets_ends()
    ensures later { (day : Day) (J : History) (l : Line) → IsLegal day (l ∷ J)
        → is_time l.head.kind ≡ true → (clock J < l.head.entry) × (l.head.entry ≤ MIDNIGHT) }
    ensures info { (day : Day) (J : History) (l : Line) (n : ℕ) → IsLegal day (l ∷ J)
        → is_time l.head.kind ≡ true → is_accepted J n ≡ true → (e : ℕ) → info_end day n ≡ Some e
        → clock J < e → l.head.entry ≤ e }
    ensures earliest { (day : Day) (J : History) (l : Line) (n : ℕ) → IsLegal day (l ∷ J)
        → is_time l.head.kind ≡ true → is_accepted J n ≡ true → (e : ℕ) → earliest day n ≡ Some e
        → clock J < e → l.head.entry ≤ e }
    ensures end { (day : Day) (J : History) (l : Line) (n : ℕ) → IsLegal day (l ∷ J)
        → is_time l.head.kind ≡ true → is_accepted J n ≡ true → is_batch (sort_of day n) ≡ true
        → clock J < settlement_end day n → l.head.entry ≤ settlement_end day n }
    ensures phase { (day : Day) (J : History) (l : Line) (n : ℕ) → IsLegal day (l ∷ J)
        → is_time l.head.kind ≡ true → (is_accepted J n && is_due day l.head.entry n) ≡ false
        → phase day (l ∷ J) n ≡ phase day J n }
{}

/// Where an item stands doesn't change while it is pending, whatever the line. So on an account whose queue no item enters or leaves, and whose
/// money a line doesn't move, the same stands before each pending item, and what waits on it is ready as before.
pub fn queues_stay()
    ensures standing { (day : Day) (J : History) (l : Line) (n k : ℕ) → IsLegal day (l ∷ J)
        → is_pending day J (item n k) ≡ true
        → standing day (l ∷ J) (item n k) ≡ standing day J (item n k) }
    ensures blocked { (day : Day) (J : History) (l : Line) (a n k : ℕ) → IsLegal day (l ∷ J)
        → HasSameQueue day (l ∷ J) J a → is_pending day J (item n k) ≡ true
        → is_blocked day (l ∷ J) (item n k) a ≡ is_blocked day J (item n k) a }
    ensures waits { (day : Day) (J : History) (l : Line) (a n k : ℕ) → HasSameQueue day (l ∷ J) J a
        → 1 ≤ n → n ≤ length day.messages → k ≤ length (entries day n)
        → waits_on day (l ∷ J) a n k ≡ waits_on day J a n k }
    ensures ready { (day : Day) (J : History) (l : Line) (a n k : ℕ) → IsLegal day (l ∷ J)
        → HasSameQueue day (l ∷ J) J a → moves_on a l.moves ≡ false → 1 ≤ n
        → n ≤ length day.messages → k ≤ length (entries day n) → waits_on day J a n k ≡ true
        → is_ready_item day (l ∷ J) n k ≡ is_ready_item day J n k }
    ensures own { (day : Day) (J : History) (l : Line) (a n k : ℕ)
        → line_of day J (item_want day J n k) ≡ Some l → moves_on a l.moves ≡ false
        → waits_on day J a n k ≡ false }
    ensures item { (day : Day) (J : History) (l : Line) (n k : ℕ) → IsLegal day (l ∷ J)
        → is_pending day J (item n k) ≡ true → is_pending day (l ∷ J) (item n k) ≡ true
        → ((a : ℕ) → stands_on day a (item n k) ≡ true
        → HasSameQueue day (l ∷ J) J a × (moves_on a l.moves ≡ false))
        → is_ready_item day (l ∷ J) n k ≡ is_ready_item day J n k }
{}

/// So its candidate stays over the line of the next ready item: on an account whose queue no item enters or leaves and whose money the line
/// doesn't move, and on one that the line doesn't touch.
pub fn candidates_stay()
    ensures queue { (day : Day) (J : History) (l : Line) (x a : ℕ) → IsLegal day J
        → line_at day J x ≡ Some l → HasSameQueue day (l ∷ J) J a → moves_on a l.moves ≡ false
        → (p : ℕ) (o : Option ℕ) → IsNext (has_line day J) p (Some x)
        → IsFirstRound (ready_on (has_line day J) (waits_at day J) a) p o
        → IsFirstRound (ready_on (has_line day (l ∷ J)) (waits_at day (l ∷ J)) a) (x + 1) o }
    ensures touch { (day : Day) (J : History) (l : Line) (x a : ℕ) → IsLegal day J
        → line_at day J x ≡ Some l → touches day J l a ≡ false → (p : ℕ) (o : Option ℕ)
        → IsNext (has_line day J) p (Some x)
        → IsFirstRound (ready_on (has_line day J) (waits_at day J) a) p o
        → IsFirstRound (ready_on (has_line day (l ∷ J)) (waits_at day (l ∷ J)) a) (x + 1) o }
{}
