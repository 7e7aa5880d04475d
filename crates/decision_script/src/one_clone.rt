//! The decisions that reach one clone.
ghost use Rattle.std.specs.Prelude.{◌≡◌, IfOk, true};
ghost use Rattle.decision_script.specs.Alone.{alone_of, item_history, changed_clone};

use crate::item::{Act, Item, push_item};
use crate::script::Script;
use sim_base::{Decision, Name, NoMemory};
use std::alloc::Global;
use std::marker::Model;

// The clone that a decision makes or changes.
fn changed_clone_of(decision: &Decision) -> Name
    ensures value { result ≡ changed_clone decision.now }
{
    match decision {
        Decision::Fork { new, .. } => *new,
        Decision::Set { who, .. } | Decision::End { who, .. } => *who,
    }
}

// The history of a clone from one place on: its items, the last first, and the clone that it descends from there.
#[derive(Drop)]
struct History {
    target: Name,
    items: Vec<Item>,
}

impl Model for History {
    ghost use Rattle.std.specs.Prelude.{ℕ, List, reverse};
    ghost use Rattle.decision_script.specs.declared.item.Item.{Item};

    ghost Value = { List ℕ × List Item };

    ghost view = { λ k. (k.target, reverse k.items.items) };
}

impl History {
    ghost use Rattle.std.specs.Prelude.{◌≡◌, OnOk, []};
    ghost use Rattle.decision_script.specs.Alone.{history_if, act_history, changed_clone};
    ghost use Rattle.std.specs.Str.{bytes_eq};
    ghost use Rattle.sim_base.specs.Decisions.{subject};

    fn new(alloc: Global, who: &Name) -> History
        ensures value { result ≡ (who.now, []) }
    {
        History {
            target: *who,
            items: Vec::new(alloc),
        }
    }

    fn add(&mut self, item: &Item, target: Name) -> Result<(), NoMemory>
        ensures value { OnOk result (self.new ≡ history_if true item.now target self.old) }
    {
        push_item(&mut self.items, *item)?;
        self.target = target;
        Ok(())
    }

    fn decide(&mut self, item: &Item, decision: &Decision) -> Result<(), NoMemory>
        ensures value { OnOk result (self.new ≡
            history_if (bytes_eq (changed_clone decision.now) self.old.0) item.now (subject decision.now) self.old) }
    {
        if changed_clone_of(decision).as_bytes() == self.target.as_bytes() {
            self.add(item, decision.subject())
        } else {
            Ok(())
        }
    }

    fn take(&mut self, item: &Item) -> Result<(), NoMemory>
        ensures value { OnOk result (self.new ≡ act_history item.now item.now.act self.old) }
    {
        match &item.act {
            Act::Decide(decision) => self.decide(item, decision),
            Act::Look { .. } => Ok(()),
        }
    }

    fn into_items(self) -> Vec<Item>
        ensures value { result.items ≡ self.1 }
    {
        let mut items = self.items;
        items.reverse();
        items
    }
}

fn own_items(alloc: Global, items: &[Item], who: &Name) -> Result<Vec<Item>, NoMemory>
    ensures value { IfOk result (λ v. v.items ≡ (item_history who.now items.now).1) }
{
    let mut history = History::new(alloc, who);
    for item in items.iter().rev() {
        history.take(item)?;
    }
    Ok(history.into_items())
}

/// The script with only the decisions that reach the clone. These are its own, and those of its ancestors before the
/// forks. Lines and analysts do not change.
pub fn alone(alloc: Global, script: &Script, who: &Name) -> Result<Script, NoMemory>
    ensures value { IfOk result (λ s. s ≡ alone_of script.now who.now) }
{
    let analysts = Vec::from_slice(alloc, script.analysts.as_slice())?;
    let items = own_items(alloc, script.items.as_slice(), who)?;
    Ok(Script { analysts, items })
}
