//! The batches of a day by their systems and identifications.
ghost use Rattle.std.specs.Prelude.{◌≡◌};
ghost use Rattle.rule_book.specs.BatchNames.{named};

use crate::setting::Setting;
use crate::sorts::is_batch_of;
use cash_amounts::{MsgId, Name};

/// The batch of a system and an identification. A batch that repeats an earlier message has no name.
pub fn find_batch(setting: &Setting, system: &Name, id: &MsgId) -> Option<u32>
    ensures { result ≡ named setting.now.day system.now id.now }
{
    match setting.found.repeats.first(system, id) {
        Some(n) => {
            if is_batch_of(&setting.day, n) {
                Some(n)
            } else {
                None
            }
        }
        None => None,
    }
}
