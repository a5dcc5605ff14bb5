//! A list of slots with several owners.

ghost use Rattle.std.specs.Prelude.{◌≡◌, ◌+◌, ◌≤◌, ◌<◌, [], vec_len, vec_capacity, IfOk, OnOk, OnErr};
ghost use Rattle.std.specs.Option.{option_copied};
ghost use Rattle.doll_pages.specs.Slots.{slot, edited, padded};

use crate::edit::Edit;
use doll_text::{Copied, Memory};
use std::alloc::Global;
use std::marker::Model;
use std::sync::Arc;

/// Slots, each empty or with a value, which several owners may share. Past the last one all are empty.
#[derive(Drop)]
pub struct Slots<T> {
    slots: Arc<Vec<Option<T>>>,
}

impl<T> Model for Slots<T> {
    ghost use Rattle.std.specs.Prelude.{List, Option};
    ghost use Rattle.std.specs.Coded.{coded_list, coded_option};
    ghost use Rattle.std.specs.Arc.{arc_value};

    ghost Value = { List (Option T) };

    ghost coded = { coded_list (coded_option T.code) };

    ghost view = { λ s. (arc_value s.slots).items };
}

impl<T: Copied> Slots<T> {
    /// No slot.
    pub fn new(alloc: Global) -> Result<Slots<T>, Memory>
        ensures { IfOk result (λ slots. slots ≡ []) }
    {
        let slots = Arc::new(alloc, Vec::new(alloc))?;
        Ok(Slots { slots })
    }

    /// What stands in a slot.
    pub fn get(&self, at: usize) -> Option<&T>
        ensures { option_copied result ≡ slot self.now at }
    {
        match self.slots.get(at) {
            Some(slot) => slot.as_ref(),
            None => None,
        }
    }

    /// Sees to it that no one else has these slots, by a copy of them where someone has.
    fn own(&mut self, alloc: Global) -> Result<(), Memory>
        ensures { self.new ≡ self.old }
    {
        if Arc::strong_count(&self.slots) != 1 {
            let slots = copy_slots(alloc, self.slots.as_slice())?;
            self.slots = Arc::new(alloc, slots)?;
        }
        Ok(())
    }

    /// Changes what stands in a slot. Slots that others have stay as they are. A refusal changes nothing.
    pub fn edit<E: Edit<T>>(&mut self, alloc: Global, at: usize, edit: E) -> Result<(), Memory>
        ensures ok { OnOk result (self.new ≡ edited self.old at (E.gives edit)) }
        ensures err { OnErr result (self.new ≡ self.old) }
    {
        self.own(alloc)?;
        match Arc::get_mut(&mut self.slots) {
            Some(slots) => edit_slot(alloc, slots, at, edit),
            None => Err(Memory),
        }
    }
}

impl<T: Copied> Copied for Slots<T> {
    fn copy(&self, _alloc: Global) -> Result<Slots<T>, Memory> {
        let slots = Arc::try_clone(&self.slots)?;
        Ok(Slots { slots })
    }
}

fn copy_slots<T: Copied>(alloc: Global, slots: &[Option<T>]) -> Result<Vec<Option<T>>, Memory>
    ensures { IfOk result (λ copy. copy.items ≡ slots.now) }
{
    let mut copy = Vec::with_capacity(alloc, slots.len())?;
    for slot in slots {
        copy.push(copy_slot(alloc, slot)?)?;
    }
    Ok(copy)
}

fn copy_slot<T: Copied>(alloc: Global, slot: &Option<T>) -> Result<Option<T>, Memory>
    ensures { IfOk result (λ copy. copy ≡ slot.now) }
{
    match slot {
        Some(value) => Ok(Some(value.copy(alloc)?)),
        None => Ok(None),
    }
}

/// Changes what stands in a slot of a vector, which grows to it.
fn edit_slot<T: Drop, E: Edit<T>>(
    alloc: Global,
    slots: &mut Vec<Option<T>>,
    at: usize,
    edit: E,
) -> Result<(), Memory>
    ensures ok { OnOk result (slots.new.items ≡ edited slots.old.items at (E.gives edit)) }
    ensures err { OnErr result (slots.new.items ≡ slots.old.items) }
{
    if at < slots.len() {
        return edit.make(alloc, &mut slots[at]);
    }
    // No memory holds so many slots.
    if at == usize::MAX {
        return Err(Memory);
    }
    let more = at - slots.len();
    slots.reserve(more + 1)?;
    let mut last = None;
    edit.make(alloc, &mut last)?;
    pad(slots, more);
    let _ = slots.push(last);
    Ok(())
}

/// Adds empty slots, for which there is room, and for one more.
fn pad<T: Drop>(slots: &mut Vec<Option<T>>, more: usize)
    requires room { vec_len slots.old + (more + 1) ≤ vec_capacity slots.old }
    ensures items { slots.new.items ≡ padded slots.old.items more }
    ensures room { vec_len slots.new < vec_capacity slots.new }
{
    for _slot in 0..more {
        let _ = slots.push(None);
    }
}
