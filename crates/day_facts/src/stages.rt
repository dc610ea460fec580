//! How far its lines have brought each message.
ghost use Rattle.std.specs.Prelude.{◌≡◌, ◌<◌, [], IfOk};
ghost use Rattle.day_facts.specs.Listed.{pushed, with_items};
ghost use Rattle.day_facts.specs.Lists.{changed};
ghost use Rattle.day_facts.specs.Phasing.{stage_in};
ghost use Rattle.day_facts.specs.declared.stages.Stage.TheVariants as stages;

use cash_amounts::{Memory, MessageNumber};
use refused_memory::with_capacity;
use std::alloc::Global;
use std::marker::Model;

/// How far its lines have brought a message. The clock has no part in it.
#[derive(Clone, Copy)]
pub enum Stage {
    Untaken,
    Rejected,
    Settled,
    Closed,
    Revoked,
    Covered,
    Answered,
    Asking,
    // In its information period, waiting, open or overdue, as the clock tells.
    Going,
}

// Of each message its stage, a byte each.
#[derive(Drop)]
pub struct StageTable {
    items: Vec<Stage>,
}

impl Model for StageTable {
    ghost use Rattle.std.specs.Prelude.{◌-◌, vec_capacity, vec_len};
    ghost use Rattle.day_facts.specs.Listed.{Listed};
    ghost use Rattle.day_facts.specs.declared.stages.Stage.{Stage};

    ghost Value = { Listed Stage };

    ghost view = { λ table. record {
      items = table.items.items;
      room = vec_capacity table.items - vec_len table.items;
    } };
}

fn put_stage(items: &mut [Stage], n: u32, stage: Stage)
    ensures { items.new ≡ changed n (λ old. stage) items.old }
{
    if n == 0 || n as usize > items.len() {
        return;
    }
    items[n as usize - 1] = stage;
}

impl StageTable {
    // No messages, with room for so many.
    pub fn with_room(alloc: Global, most: u32) -> Result<StageTable, Memory>
        ensures { IfOk result (λ table. table ≡ record { items = []; room = most }) }
    {
        let items = with_capacity(alloc, most as usize)?;
        Ok(StageTable { items })
    }

    // Takes the next message, which isn't taken. Takes no memory.
    pub fn arrive(&mut self)
        requires { 0 < self.old.room }
        ensures { self.new ≡ pushed stages.Untaken self.old }
    {
        self.items.push_reserved(Stage::Untaken);
    }

    // Message n has this stage now.
    pub fn put(&mut self, n: MessageNumber, stage: Stage)
        ensures { self.new ≡ with_items (changed n (λ old. stage) self.old.items) self.old }
    {
        put_stage(self.items.as_mut_slice(), n, stage);
    }

    // That of message n.
    pub fn at(&self, n: MessageNumber) -> Stage
        ensures { result ≡ stage_in self.now.items n }
    {
        if n == 0 {
            return Stage::Untaken;
        }
        match self.items.get(n as usize - 1) {
            Some(stage) => *stage,
            None => Stage::Untaken,
        }
    }
}
