//! Writing the bytes of a commit.

ghost use Rattle.std.specs.Prelude.{◌≡◌, ◌<◌, ◌≤◌, ◌^◌, ◌++◌, ◌∷◌, length, IfOk, OnOk};
ghost use Rattle.std.specs.Int.{w32, to_be_bytes};
ghost use Rattle.doll_journal.specs.declared.lengths.TheConstants.{MOST_BYTES};
ghost use Rattle.doll_journal.specs.Spelling.{text_bytes, value_bytes, pair_bytes, given_bytes, change_bytes, changes_bytes, spelling};

use crate::change::{Change, Commit};
use crate::tags::{
    CREATE_TAG, DESTROY_TAG, FALSE_TAG, NIL_TAG, NUMBER_TAG, TEXT_TAG, TOUCH_TAG, TRUE_TAG,
    UPDATE_TAG,
};
use doll_schema::Value;
use doll_text::{Memory, Name};
use std::alloc::Global;

/// The one spelling of the commit, which has `2^31` bytes at most: so it is where `are_storable` says yes of its changes,
/// whoever makes it and whenever.
pub fn encode(alloc: Global, commit: &Commit) -> Result<Vec<u8>, Memory>
    requires { length (spelling commit.now) ≤ MOST_BYTES }
    ensures { IfOk result (λ v. v.items ≡ spelling commit.now) }
{
    let mut out = Vec::new(alloc);
    out.extend_from_slice(&commit.author.to_be_bytes())?;
    out.extend_from_slice(&commit.serial.to_be_bytes())?;
    out.extend_from_slice(&commit.moment.to_be_bytes())?;
    put_changes(&mut out, commit.changes.as_slice())?;
    Ok(out)
}

fn put_changes(out: &mut Vec<u8>, changes: &[Change]) -> Result<(), Memory>
    requires { length (changes_bytes changes.now) < 2 ^ 32 }
    ensures { OnOk result (out.new.items ≡ out.old.items ++ changes_bytes changes.now) }
{
    out.extend_from_slice(&(changes.len() as u32).to_be_bytes())?;
    for change in changes {
        put_change(out, change)?;
    }
    Ok(())
}

fn put_change(out: &mut Vec<u8>, change: &Change) -> Result<(), Memory>
    requires { length (change_bytes change.now) < 2 ^ 32 }
    ensures { OnOk result (out.new.items ≡ out.old.items ++ change_bytes change.now) }
{
    match change {
        Change::Create { model, values } => {
            out.push(CREATE_TAG)?;
            put_text(out, model.as_bytes())?;
            put_given(out, values.as_slice())
        }
        Change::Update { model, id, values } => {
            out.push(UPDATE_TAG)?;
            put_text(out, model.as_bytes())?;
            out.extend_from_slice(&id.to_be_bytes())?;
            put_given(out, values.as_slice())
        }
        Change::Destroy { model, id } => put_model_id(out, DESTROY_TAG, model, *id),
        Change::Touch { model, id } => put_model_id(out, TOUCH_TAG, model, *id),
    }
}

/// A tag, a model and an id.
fn put_model_id(out: &mut Vec<u8>, tag: u8, model: &Name, id: u32) -> Result<(), Memory>
    requires { length model.now < 2 ^ 32 }
    ensures { OnOk result
        (out.new.items ≡ out.old.items ++ tag ∷ (text_bytes model.now ++ to_be_bytes w32 id)) }
{
    out.push(tag)?;
    put_text(out, model.as_bytes())?;
    out.extend_from_slice(&id.to_be_bytes())?;
    Ok(())
}

fn put_given(out: &mut Vec<u8>, given: &[(Name, Value)]) -> Result<(), Memory>
    requires { length (given_bytes given.now) < 2 ^ 32 }
    ensures { OnOk result (out.new.items ≡ out.old.items ++ given_bytes given.now) }
{
    out.extend_from_slice(&(given.len() as u32).to_be_bytes())?;
    for pair in given {
        put_pair(out, pair)?;
    }
    Ok(())
}

fn put_pair(out: &mut Vec<u8>, pair: &(Name, Value)) -> Result<(), Memory>
    requires { length (pair_bytes pair.now) < 2 ^ 32 }
    ensures { OnOk result (out.new.items ≡ out.old.items ++ pair_bytes pair.now) }
{
    put_text(out, pair.0.as_bytes())?;
    put_value(out, &pair.1)
}

fn put_value(out: &mut Vec<u8>, value: &Value) -> Result<(), Memory>
    requires { length (value_bytes value.now) < 2 ^ 32 }
    ensures { OnOk result (out.new.items ≡ out.old.items ++ value_bytes value.now) }
{
    match value {
        Value::Nil => out.push(NIL_TAG)?,
        Value::Bool(false) => out.push(FALSE_TAG)?,
        Value::Bool(true) => out.push(TRUE_TAG)?,
        Value::Int(number) => {
            out.push(NUMBER_TAG)?;
            out.extend_from_slice(&number.to_be_bytes())?;
        }
        Value::Text(text) => {
            out.push(TEXT_TAG)?;
            put_text(out, text.as_bytes())?;
        }
    }
    Ok(())
}

fn put_text(out: &mut Vec<u8>, text: &[u8]) -> Result<(), Memory>
    requires { length text.now < 2 ^ 32 }
    ensures { OnOk result (out.new.items ≡ out.old.items ++ text_bytes text.now) }
{
    out.extend_from_slice(&(text.len() as u32).to_be_bytes())?;
    out.extend_from_slice(text)?;
    Ok(())
}
