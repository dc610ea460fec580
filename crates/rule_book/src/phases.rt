//! Tests of phases.
ghost use Rattle.std.specs.Prelude.{◌≡◌};
ghost use Rattle.machine.specs.Stages.Phases.{is_answered, is_asking, is_covered, is_information, is_open, is_overdue};

use machine::Phase;

/// Whether a message in this phase may be booked.
pub fn is_open(phase: Phase) -> bool
    ensures { result ≡ is_open phase }
{
    matches!(phase, Phase::Open)
}

/// Whether the guarantee fund has paid its unbooked debits, and its credits aren't all booked.
pub fn is_covered(phase: Phase) -> bool
    ensures { result ≡ is_covered phase }
{
    matches!(phase, Phase::Covered)
}

/// Whether its time is over.
pub fn is_overdue(phase: Phase) -> bool
    ensures { result ≡ is_overdue phase }
{
    matches!(phase, Phase::Overdue)
}

/// Whether its system was asked for the guarantee fund and has answered.
pub fn is_answered(phase: Phase) -> bool
    ensures { result ≡ is_answered phase }
{
    matches!(phase, Phase::Answered)
}

/// Whether its system was asked for the guarantee fund and hasn't answered.
pub fn is_asking(phase: Phase) -> bool
    ensures { result ≡ is_asking phase }
{
    matches!(phase, Phase::Asking)
}

/// Whether its information period lasts.
pub fn is_information(phase: Phase) -> bool
    ensures { result ≡ is_information phase }
{
    matches!(phase, Phase::Information)
}
