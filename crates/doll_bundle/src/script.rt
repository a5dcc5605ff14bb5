//! The lines of a bundle's script.

ghost use Rattle.std.specs.Prelude.{◌≡◌, option_map, IfOk, IfSome};
ghost use Rattle.std.specs.List.{AllByRecursion};
ghost use Rattle.std.specs.Str.{IsUtf8};
ghost use Rattle.serde_json.specs.Find.{as_str};
ghost use Rattle.serde_json.specs.View.{items_view, view};
ghost use Rattle.doll_text.specs.Gives.{Gives};
ghost use Rattle.doll_bundle.specs.Scripts.{lines_of, script_in, script_refusal, texts_in};

use doll_text::{Items, Memory, Text};
use doll_views::{BundlePart, Kind, Refusal};
use serde_json::Value;
use std::alloc::Global;

/// The lines of a bundle's script, none where it is left out. Whether they are orders isn't asked.
pub fn script_in(alloc: Global, script: Option<&Value>) -> Result<Items<Text>, Refusal>
    ensures exact { Gives Refusal.Memory
        (script_in (option_map (λ d. view d.now) script.entry)) result }
    ensures texts { IfOk result (AllByRecursion IsUtf8) }
{
    match lines_of(alloc, script)? {
        Some(lines) => Ok(lines),
        None => Err(script_refusal()),
    }
}

/// The texts of an array, none where it is left out.
fn lines_of(alloc: Global, script: Option<&Value>) -> Result<Option<Items<Text>>, Memory>
    ensures exact { IfOk result
        (λ lines. lines ≡ lines_of (option_map (λ d. view d.now) script.entry)) }
    ensures texts { IfOk result (λ lines. IfSome lines (AllByRecursion IsUtf8)) }
{
    let Some(script) = script else {
        return Ok(Some(Items::new(alloc)));
    };
    match script.as_array() {
        Some(items) => texts_in(alloc, items.as_slice()),
        None => Ok(None),
    }
}

/// Items that are texts.
#[tactic(auto, using(std::proofs::lemmas::Grind::common_steps, doll_journal::proofs::Fronts::front_starts, doll_journal::proofs::Fronts::front_grows, doll_journal::proofs::Fronts::front_stops, doll_journal::proofs::Fronts::front_ends, doll_journal::proofs::Fronts::all_pushed))]
fn texts_in(alloc: Global, items: &[Value]) -> Result<Option<Items<Text>>, Memory>
    ensures exact { IfOk result (λ texts. texts ≡ texts_in (items_view items.now)) }
    ensures texts { IfOk result (λ texts. IfSome texts (AllByRecursion IsUtf8)) }
{
    let mut texts = Items::new(alloc);
    for item in items {
        let Some(text) = text_in(alloc, item)? else {
            return Ok(None);
        };
        texts.push(text)?;
    }
    Ok(Some(texts))
}

/// The text that an item is.
fn text_in(alloc: Global, item: &Value) -> Result<Option<Text>, Memory>
    ensures exact { IfOk result (λ text. text ≡ as_str (view item.now)) }
    ensures texts { IfOk result (λ text. IfSome text IsUtf8) }
{
    match item.as_str() {
        Some(text) => Ok(Some(Text::from_bytes(alloc, text.as_bytes())?)),
        None => Ok(None),
    }
}

/// A script that is no array of texts.
fn script_refusal() -> Refusal
    ensures { result ≡ script_refusal }
{
    Refusal::Refused {
        part: BundlePart::Script,
        number: 0,
        kind: Kind::BadForm,
    }
}
