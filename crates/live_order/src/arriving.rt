//! Laws of the order of a day whose file comes in, each as the contract of a function without a body of its own.
ghost use Rattle.std.specs.Prelude.{ℕ, suc, ◌+◌, ◌≡◌, ◌≤◌, true, false, List, [], Some, None, is_some, length, slice_get};
ghost use Rattle.batch_records.specs.DayRecord.{Day};
ghost use Rattle.batch_records.specs.declared.day.Message.{Message};
ghost use Rattle.batch_records.specs.Sound.{is_sound};
ghost use Rattle.commit_journal.specs.declared.line.Want.{Want};
ghost use Rattle.commit_journal.specs.Line.{History};
ghost use Rattle.commit_journal.specs.Histories.{Begins};
ghost use Rattle.machine.specs.Telling.History.{clock, is_ended, taken};
ghost use Rattle.machine.specs.Legal.{IsLegal, is_complete};
ghost use Rattle.machine.specs.Making.Lines.{line_of};
ghost use Rattle.machine.specs.Orders.Order.{scan};
ghost use Rattle.machine.specs.OtherLaws.{is_work};
ghost use Rattle.live_order.specs.LiveOrder.{cut, Event, events, live, live_journal, live_step, Stop, stop_at, times_to};
ghost use Rattle.live_order.specs.Longer.{longer, GoesOn, SpeaksOf};

/// What is made at the events goes on by the rules and stays, and after the last of them the journal is complete.
pub fn live_is_legal()
    ensures part { (day : Day) (k : ℕ) (J : History) → IsLegal day J → IsLegal day (live day k J) }
    ensures goes_on { (day : Day) (k : ℕ) (J : History) → Begins J (live day k J) }
    ensures stays { (day : Day) (k more : ℕ) → Begins (live day k []) (live day (k + more) []) }
    ensures last { (day : Day) → live day (length (events day)) [] ≡ live_journal day }
    ensures whole { (day : Day) → is_sound day ≡ true → IsLegal day (live_journal day) }
    ensures complete { (day : Day) → is_sound day ≡ true → is_complete (live_journal day) ≡ true }
{}

/// What is made up to an event is made of what has come in by then alone: it is that of the sound day which ends there.
pub fn live_is_causal()
    ensures cut { (day : Day) → is_sound day ≡ true → (k : ℕ) → is_sound (cut day k) ≡ true }
    ensures front { (day : Day) → is_sound day ≡ true → (k : ℕ)
        → (ms : List Message) × (ss : List ℕ)
        × (longer (cut day k) ms ss ≡ day) × GoesOn (cut day k) ms ss }
    ensures all { (day : Day) → is_sound day ≡ true → cut day (length (events day)) ≡ day }
    ensures same { (day : Day) → is_sound day ≡ true → (k : ℕ)
        → live day k [] ≡ live (cut day k) k [] }
    ensures alike { (day other : Day) → is_sound day ≡ true → is_sound other ≡ true → (k : ℕ)
        → cut day k ≡ cut other k → live day k [] ≡ live other k [] }
    ensures next { (day : Day) → is_sound day ≡ true → (k : ℕ) (e : Event)
        → slice_get (events day) k ≡ Some e → live (cut day (suc k)) (suc k) []
        ≡ live_step (cut day (suc k)) (live (cut day k) k []) e }
{}

/// After each event what has come in is taken and, until the day is over, the clock stands at the last stop that has come in, or at 0. The
/// lines speak of messages that have come in alone, no scan adds a line, and nothing but In, Time and End can have one. At a stop nothing
/// is made but Time lines, and after each of them what is ready.
pub fn live_keeps_up()
    ensures taken { (day : Day) → is_sound day ≡ true → (k n : ℕ) → 1 ≤ n
        → n ≤ length (cut day k).messages → is_some (taken (live day k []) n) ≡ true }
    ensures clock { (day : Day) → is_sound day ≡ true → (k : ℕ)
        → is_ended (live day k []) ≡ false
        → clock (live day k []) ≡ stop_at day (length (cut day k).stops) }
    ensures speaks { (day : Day) → is_sound day ≡ true → (k : ℕ)
        → SpeaksOf (length (cut day k).messages) (live day k []) }
    ensures settled { (day : Day) → is_sound day ≡ true → (k : ℕ)
        → scan day (live day k []) ≡ live day k [] }
    ensures idle { (day : Day) → is_sound day ≡ true → (k : ℕ) (want : Want)
        → is_work want ≡ true → line_of day (live day k []) want ≡ None }
    ensures stops { (day : Day) → is_sound day ≡ true → (k r : ℕ)
        → slice_get (events day) k ≡ Some (Stop r)
        → live day (suc k) [] ≡ times_to day (stop_at day r) (live day k []) }
{}
