//! A keeper in memory.

ghost use Rattle.std.specs.Prelude.{◌≡◌, ◌∷◌, ◌++◌, [], Some, IfOk, OnOk, OnErr};
ghost use Rattle.doll_base.specs.Faults.{KeepsCount, HasCause, fresh_plan};
ghost use Rattle.doll_keep.specs.Kept.{GivesItem, contents, has_failed};
ghost use Rattle.doll_keep.specs.Calls.{Load, Append, MemCalled, NeverFails};
ghost use Rattle.doll_keep.specs.declared.keeper.KeepFault.TheVariants.{Failed};

use crate::keeper::{KeepFault, Keeper};
use doll_base::FaultPlan;
use std::alloc::{AllocError, Global};
use std::marker::Model;

/// A keeper over a vector, which tells its list.
#[derive(Drop)]
pub struct MemKeeper {
    items: Vec<Vec<u8>>,
    plan: FaultPlan,
}

impl Model for MemKeeper {
    ghost use Rattle.doll_keep.specs.Kept.{MemKept, contents};

    ghost Value = { MemKept };

    ghost view = { λ k. record { kept = contents k.items.items; plan = k.plan } };
}

impl MemKeeper {
    /// Keeps nothing yet. The calls of `append` and `load` are numbered together from 0: those with the numbers in
    /// `failing` fail, and from the number `fuse` on all do. Takes no memory.
    pub fn new(alloc: Global, failing: Vec<u64>, fuse: Option<u64>) -> MemKeeper
        ensures kept { ⟦<MemKeeper as Keeper>⟧.kept result ≡ Some [] }
        ensures faults { ⟦<MemKeeper as Keeper>⟧.faults result ≡ 0 }
        ensures plan { result.plan ≡ fresh_plan failing.items fuse }
    {
        MemKeeper {
            items: Vec::new(alloc),
            plan: FaultPlan::new(failing, fuse),
        }
    }
}

impl Keeper for MemKeeper {
    ghost kept = { λ k. Some k.kept };

    ghost faults = { λ k. k.plan.faults };

    ghost called = { MemCalled };

    fn append(&mut self, alloc: Global, bytes: &[u8]) -> Result<(), KeepFault>
        ensures added { OnOk result (self.new.kept ≡ self.old.kept ++ bytes.now ∷ []) }
        ensures same { OnErr result (self.new.kept ≡ self.old.kept) }
        ensures cause { HasCause Failed self.old.plan.faults self.new.plan.faults result }
        ensures count { KeepsCount self.old.plan.faults self.new.plan.faults }
        ensures called { MemCalled self.old (Append bytes.now) (has_failed result) self.new }
    {
        // A call that fails keeps nothing of the item.
        if self.plan.fails() {
            return Err(KeepFault::Failed);
        }
        Ok(add_copy(alloc, &mut self.items, bytes)?)
    }

    fn load(&mut self, alloc: Global, at: u64) -> Result<Option<Vec<u8>>, KeepFault>
        ensures item { IfOk result (λ item. GivesItem (Some self.old.kept) at item) }
        ensures same { self.new.kept ≡ self.old.kept }
        ensures cause { HasCause Failed self.old.plan.faults self.new.plan.faults result }
        ensures count { KeepsCount self.old.plan.faults self.new.plan.faults }
        ensures called { MemCalled self.old (Load at) (has_failed result) self.new }
    {
        if self.plan.fails() {
            return Err(KeepFault::Failed);
        }
        Ok(copy_at(alloc, &self.items, at)?)
    }
}

/// Adds a copy of these bytes at the end.
fn add_copy(alloc: Global, items: &mut Vec<Vec<u8>>, bytes: &[u8]) -> Result<(), AllocError>
    ensures ok { OnOk result
        (contents items.new.items ≡ contents items.old.items ++ bytes.now ∷ []) }
    ensures err { OnErr result (contents items.new.items ≡ contents items.old.items) }
{
    items.push(Vec::from_slice(alloc, bytes)?)?;
    Ok(())
}

/// A copy of the item at this place, or none past the end.
fn copy_at(alloc: Global, items: &[Vec<u8>], at: u64) -> Result<Option<Vec<u8>>, AllocError>
    ensures { IfOk result (λ item. GivesItem (Some (contents items.now)) at item) }
{
    if at >= items.len() as u64 {
        return Ok(None);
    }
    Ok(Some(Vec::from_slice(alloc, &items[at as usize])?))
}

/// A keeper in memory that was made to fail at no call never fails.
pub fn never_fails()
    ensures { NeverFails }
{}
