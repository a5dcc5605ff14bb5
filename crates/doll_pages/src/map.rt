//! A map from 32-bit numbers, in pages of 16 slots that stand in slots in their turn.

ghost use Rattle.std.specs.Prelude.{◌≡◌, IfOk, OnOk, OnErr};
ghost use Rattle.std.specs.Option.{option_copied};
ghost use Rattle.std.specs.FinMap as finite;
ghost use Rattle.doll_pages.specs.Maps.{altered};

use crate::edit::Edit;
use crate::slots::Slots;
use doll_text::{Copied, Memory};
use std::alloc::Global;
use std::marker::Model;

/// How many slots a page has, and each list of pages.
const WIDTH: u32 = 16;

/// How many slots each list of such lists has.
const LISTS: u32 = 64;

/// How many numbers lie under a slot of a list of lists.
const SECOND: u32 = 256;

/// How many numbers lie under a slot of the first list.
const FIRST: u32 = 16_384;

/// A map from 32-bit numbers. A copy has the same pages, and a write copies those on its path that another map has too.
#[derive(Drop)]
pub struct PageMap<T> {
    root: Slots<Slots<Slots<Slots<T>>>>,
}

impl<T> Model for PageMap<T> {
    ghost use Rattle.std.specs.Ordering.{nat_cmp};
    ghost use Rattle.std.specs.FinMap as finite;
    ghost use Rattle.std.specs.Coded.{coded_ℕ};
    ghost use Rattle.doll_pages.specs.Maps.{map_of};

    ghost Value = { finite.FinMap nat_cmp T };

    ghost coded = { finite.code coded_ℕ T.code };

    ghost view = { λ m. map_of m.root };
}

/// A change of a slot among slots that stand in a slot.
#[derive(Drop)]
struct Below<E> {
    at: usize,
    edit: E,
}

impl<T: Copied, E: Edit<T>> Edit<Slots<T>> for Below<E> {
    ghost use Rattle.std.specs.Prelude.{[], Some};
    ghost use Rattle.std.specs.Option.{option_map_or};
    ghost use Rattle.doll_pages.specs.Slots.{edited};

    ghost gives = { λ below slots. Some (edited (option_map_or (λ part. part) slots []) below.at (E.gives below.edit)) };

    fn make(self, alloc: Global, slot: &mut Option<Slots<T>>) -> Result<(), Memory> {
        let Below { at, edit } = self;
        match slot {
            Some(slots) => slots.edit(alloc, at, edit),
            None => {
                let mut slots = Slots::new(alloc)?;
                slots.edit(alloc, at, edit)?;
                *slot = Some(slots);
                Ok(())
            }
        }
    }
}

impl<T: Copied> PageMap<T> {
    /// A map of nothing.
    pub fn new(alloc: Global) -> Result<PageMap<T>, Memory>
        ensures { IfOk result (λ map. map ≡ finite.empty) }
    {
        let root = Slots::new(alloc)?;
        Ok(PageMap { root })
    }

    /// The value under a number.
    pub fn get(&self, id: u32) -> Option<&T>
        ensures { option_copied result ≡ finite.get self.now id }
    {
        let Some(first) = self.root.get((id / FIRST) as usize) else {
            return None;
        };
        let Some(second) = first.get((id / SECOND % LISTS) as usize) else {
            return None;
        };
        let Some(page) = second.get((id / WIDTH % WIDTH) as usize) else {
            return None;
        };
        page.get((id % WIDTH) as usize)
    }

    /// Changes what stands under a number. Copies of the map stay as they are. A refusal changes nothing.
    pub fn edit<E: Edit<T>>(&mut self, alloc: Global, id: u32, edit: E) -> Result<(), Memory>
        ensures ok { OnOk result (self.new ≡ altered self.old id (E.gives edit)) }
        ensures err { OnErr result (self.new ≡ self.old) }
    {
        let edit = Below {
            at: (id % WIDTH) as usize,
            edit,
        };
        let edit = Below {
            at: (id / WIDTH % WIDTH) as usize,
            edit,
        };
        let edit = Below {
            at: (id / SECOND % LISTS) as usize,
            edit,
        };
        self.root.edit(alloc, (id / FIRST) as usize, edit)?;
        Ok(())
    }
}

impl<T: Copied> Copied for PageMap<T> {
    fn copy(&self, alloc: Global) -> Result<PageMap<T>, Memory> {
        let root = self.root.copy(alloc)?;
        Ok(PageMap { root })
    }
}

/// A change of what stands under a number of a map that stands in a slot.
#[derive(Drop)]
pub struct InMap<E> {
    pub id: u32,
    pub edit: E,
}

impl<T: Copied, E: Edit<T>> Edit<PageMap<T>> for InMap<E> {
    ghost use Rattle.std.specs.Prelude.{Some};
    ghost use Rattle.std.specs.Option.{option_map_or};
    ghost use Rattle.std.specs.FinMap as finite;
    ghost use Rattle.doll_pages.specs.Maps.{altered};

    ghost gives = { λ inner map. Some (altered (option_map_or (λ m. m) map finite.empty) inner.id (E.gives inner.edit)) };

    fn make(self, alloc: Global, slot: &mut Option<PageMap<T>>) -> Result<(), Memory> {
        let InMap { id, edit } = self;
        match slot {
            Some(map) => map.edit(alloc, id, edit),
            None => {
                let mut map = PageMap::new(alloc)?;
                map.edit(alloc, id, edit)?;
                *slot = Some(map);
                Ok(())
            }
        }
    }
}
