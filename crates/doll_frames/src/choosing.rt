//! The arms of an `if`.

ghost use Rattle.std.specs.Prelude.{◌≡◌, ◌+◌, ◌≤◌, IfOk, OnOk};
ghost use Rattle.doll_table.specs.Fits.{Fits};
ghost use Rattle.doll_eval.specs.Living.{AreLiving};
ghost use Rattle.doll_frames.specs.Arms as spec;

use doll_erb::{Arm, Arms, Node, Tree};
use doll_eval::{eval, is_true};
use doll_schema::{Schema, Vars};
use doll_table::Rows;
use doll_text::Memory;
use std::alloc::Global;

/// The place of the first arm whose test holds, behind all of them where none does.
#[tactic(auto, using(crate::proofs::Arms::place_here, crate::proofs::Arms::place_on, crate::proofs::Arms::place_last, crate::proofs::Arms::looks_here, crate::proofs::Arms::looks_on))]
pub fn chosen_arm<R: Rows>(
    alloc: Global,
    arms: &[Arm],
    vars: &Vars,
    schema: &Schema,
    rows: &mut R,
) -> Result<usize, Memory>
    requires fits { Fits schema.now (R.table rows.old) }
    requires living { AreLiving (R.table rows.old) vars.now }
    ensures value { IfOk result (λ place. place
        ≡ spec.chosen_place schema.now (R.table rows.old) arms.now vars.now) }
    ensures table { R.table rows.new ≡ R.table rows.old }
    ensures looks { OnOk result (R.looks rows.new ≤ R.looks rows.old
        + spec.tests_looks schema.now (R.table rows.old) arms.now vars.now) }
{
    for (place, arm) in arms.iter().enumerate() {
        let value = eval(alloc, &arm.test, vars, schema, rows)?;
        if is_true(&value) {
            return Ok(place);
        }
    }
    Ok(arms.len())
}

/// The body of the arm at a place, else the last part.
pub fn arm_body<'a>(arms: &'a Arms, otherwise: &'a Tree, place: usize) -> &'a [Node]
    ensures { result.now ≡ spec.arm_body arms.now otherwise.now place }
{
    match arms.get(place) {
        Some(arm) => arm.body.as_slice(),
        None => otherwise.as_slice(),
    }
}
