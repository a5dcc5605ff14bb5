//! Which changes a commit may have.

ghost use Rattle.std.specs.Prelude.{◌≡◌};
ghost use Rattle.std.specs.Bool.{Decides};
ghost use Rattle.std.specs.List.{AllByRecursion};
ghost use Rattle.std.specs.Str.{IsUtf8, is_utf8};
ghost use Rattle.doll_journal.specs.Storable.{FitsValue, FitsPair, FitsChange, AreStorable};

use crate::change::Change;
use crate::lengths::have_room;
use doll_schema::Value;
use doll_text::Name;

/// Whether a commit may have these changes, whoever makes it: their names and texts are UTF-8, and with them its bytes are
/// `2^31` at most. Changes that were read, from JSON or from bytes, are such.
pub fn are_storable(changes: &[Change]) -> bool
    ensures { Decides result (AreStorable changes.now) }
{
    if !fit(changes) {
        return false;
    }
    have_room(changes)
}

fn fit(changes: &[Change]) -> bool
    ensures { Decides result (AllByRecursion FitsChange changes.now) }
{
    for change in changes {
        if !fits_change(change) {
            return false;
        }
    }
    true
}

fn fits_change(change: &Change) -> bool
    ensures { Decides result (FitsChange change.now) }
{
    match change {
        Change::Create { model, values } => fits_given(model, values.as_slice()),
        Change::Update { model, id, values } => {
            let _id = *id;
            fits_given(model, values.as_slice())
        }
        Change::Destroy { model, id } => {
            let _id = *id;
            is_text(model.as_bytes())
        }
        Change::Touch { model, id } => {
            let _id = *id;
            is_text(model.as_bytes())
        }
    }
}

fn fits_given(model: &Name, given: &[(Name, Value)]) -> bool
    ensures { Decides result (IsUtf8 model.now × AllByRecursion FitsPair given.now) }
{
    if !is_text(model.as_bytes()) {
        return false;
    }
    fit_pairs(given)
}

fn fit_pairs(given: &[(Name, Value)]) -> bool
    ensures { Decides result (AllByRecursion FitsPair given.now) }
{
    for pair in given {
        if !fits_pair(pair) {
            return false;
        }
    }
    true
}

fn fits_pair(pair: &(Name, Value)) -> bool
    ensures { Decides result (FitsPair pair.now) }
{
    if !is_text(pair.0.as_bytes()) {
        return false;
    }
    fits_value(&pair.1)
}

fn fits_value(value: &Value) -> bool
    ensures { Decides result (FitsValue value.now) }
{
    match value {
        Value::Int(number) => {
            let _number = *number;
            true
        }
        Value::Text(text) => is_text(text.as_bytes()),
        _ => true,
    }
}

/// Whether bytes are a text.
#[tactic(auto, using(crate::proofs::Texts::is_a_text, crate::proofs::Texts::is_no_text))]
pub fn is_text(bytes: &[u8]) -> bool
    ensures told { Decides result (IsUtf8 bytes.now) }
    ensures value { result ≡ is_utf8 bytes.now }
{
    match std::str::from_utf8(bytes) {
        Ok(_) => true,
        Err(_) => false,
    }
}
