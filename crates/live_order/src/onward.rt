//! Laws of a day that goes on, each as the contract of a function without a body of its own.
ghost use Rattle.std.specs.Prelude.{ℕ, ◌≡◌, ◌≤◌, ◌↔◌, true, List, length, nat_le};
ghost use Rattle.std.specs.List.{list_all};
ghost use Rattle.batch_records.specs.Sound.{is_sound};
ghost use Rattle.batch_records.specs.DayRecord.{Day};
ghost use Rattle.batch_records.specs.declared.day.Message.{Message};
ghost use Rattle.commit_journal.specs.declared.line.Want.{Want};
ghost use Rattle.commit_journal.specs.Line.{History};
ghost use Rattle.machine.specs.declared.answers.Item.{Item};
ghost use Rattle.machine.specs.Telling.History.{clock};
ghost use Rattle.machine.specs.Telling.Facts.{accepted_batch, answer, revoked};
ghost use Rattle.machine.specs.Stages.Phases.{phase};
ghost use Rattle.machine.specs.Stages.Intake.{intake_code};
ghost use Rattle.machine.specs.Stages.Pending.{is_pending, standing};
ghost use Rattle.machine.specs.Stages.Blockers.{first_blocker};
ghost use Rattle.machine.specs.Making.Lines.{is_ready, line_of};
ghost use Rattle.machine.specs.Making.FirstReady.{first_ready};
ghost use Rattle.machine.specs.Making.Reasons.{why_of};
ghost use Rattle.machine.specs.Legal.{IsLegal};
ghost use Rattle.live_order.specs.LiveOrder.{stop_at};
ghost use Rattle.live_order.specs.Longer.{longer, GoesOn, IsWithin, PassesWithin, SpeaksOf};

/// A history that speaks of a day's messages alone tells of these the same with that day and with a longer one.
pub fn longer_day_tells_the_same()
    ensures batch { (day : Day) (ms : List Message) (ss : List ℕ) (J : History)
        → SpeaksOf (length day.messages) J → (system id : List ℕ)
        → accepted_batch (longer day ms ss) J system id ≡ accepted_batch day J system id }
    ensures answer { (day : Day) (ms : List Message) (ss : List ℕ) (J : History)
        → SpeaksOf (length day.messages) J → (n : ℕ) → n ≤ length day.messages
        → answer (longer day ms ss) J n ≡ answer day J n }
    ensures revoked { (day : Day) (ms : List Message) (ss : List ℕ) (J : History)
        → SpeaksOf (length day.messages) J → (n k : ℕ) → n ≤ length day.messages
        → revoked (longer day ms ss) J n k ≡ revoked day J n k }
    ensures phase { (day : Day) (ms : List Message) (ss : List ℕ) (J : History)
        → SpeaksOf (length day.messages) J → (n : ℕ) → n ≤ length day.messages
        → phase (longer day ms ss) J n ≡ phase day J n }
    ensures code { (day : Day) (ms : List Message) (ss : List ℕ) (J : History)
        → SpeaksOf (length day.messages) J → (n : ℕ) → n ≤ length day.messages
        → intake_code (longer day ms ss) J n ≡ intake_code day J n }
    ensures pending { (day : Day) (ms : List Message) (ss : List ℕ) (J : History)
        → SpeaksOf (length day.messages) J → (x : Item) → x.msg ≤ length day.messages
        → is_pending (longer day ms ss) J x ≡ is_pending day J x }
    ensures standing { (day : Day) (ms : List Message) (ss : List ℕ) (J : History) (x : Item)
        → x.msg ≤ length day.messages → standing (longer day ms ss) J x ≡ standing day J x }
    ensures blocker { (day : Day) (ms : List Message) (ss : List ℕ) (J : History)
        → SpeaksOf (length day.messages) J → (x : Item) (a : ℕ) → x.msg ≤ length day.messages
        → first_blocker (longer day ms ss) J x a ≡ first_blocker day J x a }
    ensures ready { (day : Day) (ms : List Message) (ss : List ℕ) (J : History)
        → SpeaksOf (length day.messages) J → is_ready (longer day ms ss) J ≡ is_ready day J }
    ensures first { (day : Day) (ms : List Message) (ss : List ℕ) (J : History)
        → SpeaksOf (length day.messages) J → first_ready (longer day ms ss) J ≡ first_ready day J }
{}

/// So a want that the day as far as it goes decides has the same line with a longer day, or none for the same reason, and legal is the same.
pub fn longer_day_keeps_lines()
    ensures line { (day : Day) (ms : List Message) (ss : List ℕ)
        → GoesOn day ms ss → (J : History) → SpeaksOf (length day.messages) J
        → (w : Want) → IsWithin day J w
        → line_of (longer day ms ss) J w ≡ line_of day J w }
    ensures reason { (day : Day) (ms : List Message) (ss : List ℕ)
        → GoesOn day ms ss → (J : History) → SpeaksOf (length day.messages) J
        → (w : Want) → IsWithin day J w
        → why_of (longer day ms ss) J w ≡ why_of day J w }
    ensures legal { (day : Day) (ms : List Message) (ss : List ℕ)
        → GoesOn day ms ss → (J : History) → SpeaksOf (length day.messages) J
        → PassesWithin day J → IsLegal (longer day ms ss) J ↔ IsLegal day J }
    ensures sound { (day : Day) (ms : List Message) (ss : List ℕ)
        → is_sound day ≡ true → is_sound (longer day ms ss) ≡ true
        → list_all (λ m. nat_le (length day.stops) m.round) ms ≡ true
        → GoesOn day ms ss }
    ensures still_legal { (day : Day) (ms : List Message) (ss : List ℕ)
        → GoesOn day ms ss → (J : History) → IsLegal day J
        → clock J ≤ stop_at day (length day.stops) → IsLegal (longer day ms ss) J }
    ensures passes { (day : Day) (J : History) → IsLegal day J
        → clock J ≤ stop_at day (length day.stops) → PassesWithin day J }
    ensures speaks { (day : Day) (J : History) → IsLegal day J → SpeaksOf (length day.messages) J }
{}
