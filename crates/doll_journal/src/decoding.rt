//! Reading the bytes of a commit.

ghost use Rattle.std.specs.Prelude.{◌≡◌, IfOk};
ghost use Rattle.std.specs.Int.{w32, w64};
ghost use Rattle.doll_text.specs.Gives.{Gives};
ghost use Rattle.doll_journal.specs.declared.change.Commit.{Commit};
ghost use Rattle.doll_journal.specs.Spelling.{spelling};
ghost use Rattle.doll_journal.specs.Storable.{IsStorable, OneSpelling};
ghost use Rattle.doll_text.specs.Gives.{GivesBy, GivesExactly};
ghost use Rattle.doll_journal.specs.Fields.{offset, byte_field, number_field, text_field, repeated, field_behind};
ghost use Rattle.doll_journal.specs.Reading.{value_cases, value_field, pair_field, given_field, create_field, update_field, model_id_field, change_cases, change_field, changes_field, commit_field, commit_in};

use crate::change::{Change, Changes, Commit, Given};
use crate::fault::JournalFault;
use crate::lengths::MOST_BYTES;
use crate::storable::is_text;
use crate::tags::{
    CREATE_TAG, DESTROY_TAG, FALSE_TAG, NIL_TAG, NUMBER_TAG, TEXT_TAG, TOUCH_TAG, TRUE_TAG,
    UPDATE_TAG,
};
use doll_schema::Value;
use doll_text::{Items, Name, Text};
use std::alloc::Global;

/// The commit whose bytes these are, all of them.
pub fn decode(alloc: Global, bytes: &[u8]) -> Result<Commit, JournalFault>
    // Which commit or fault it is.
    ensures exact { Gives JournalFault.Memory (commit_in bytes.now) result }
    // What is read is spelled so.
    ensures found { IfOk result (λ c. (bytes.now ≡ spelling c) × IsStorable c) }
    // What is spelled so is read, unless memory runs out.
    ensures only { (c : Commit) → IsStorable c → bytes.now ≡ spelling c → Gives JournalFault.Memory
        (Ok c) result }
{
    commit_in(alloc, bytes)
}

/// No two commits are spelled alike.
pub fn one_spelling()
    ensures { OneSpelling }
{}

#[tactic(auto, unfolding(crate::specs::Reading::commit_in))]
fn commit_in(alloc: Global, bytes: &[u8]) -> Result<Commit, JournalFault>
    ensures { Gives JournalFault.Memory (commit_in bytes.now) result }
{
    if bytes.len() as u64 > MOST_BYTES {
        return Err(JournalFault::TooLarge { limit: MOST_BYTES });
    }
    let (commit, rest) = commit_field(alloc, bytes.len(), bytes)?;
    if !rest.is_empty() {
        return Err(JournalFault::Trailing {
            at: offset(bytes.len(), rest),
        });
    }
    Ok(commit)
}

/// Where the rest of so many bytes begins.
fn offset(total: usize, rest: &[u8]) -> u64
    ensures { result ≡ offset total rest.now }
{
    total.saturating_sub(rest.len()) as u64
}

#[tactic(auto, unfolding(crate::specs::Reading::commit_field))]
fn commit_field(alloc: Global, total: usize, bytes: &[u8]) -> Result<(Commit, &[u8]), JournalFault>
    ensures { GivesBy (λ x. (x.0, x.1.now)) JournalFault.Memory (commit_field total bytes.now) result }
{
    let (author, rest) = u32_field(total, bytes)?;
    let (serial, rest) = u64_field(total, rest)?;
    let (moment, rest) = u64_field(total, rest)?;
    let (changes, rest) = changes_field(alloc, total, rest)?;
    let commit = Commit {
        author,
        serial,
        moment,
        changes,
    };
    Ok((commit, rest))
}

fn byte_field(total: usize, bytes: &[u8]) -> Result<(u8, &[u8]), JournalFault>
    ensures { GivesExactly (λ x. (x.0, x.1.now)) (byte_field total bytes.now) result }
{
    let [byte, rest @ ..] = bytes else {
        return Err(JournalFault::Truncated {
            at: offset(total, bytes),
        });
    };
    Ok((*byte, rest))
}

fn u32_field(total: usize, bytes: &[u8]) -> Result<(u32, &[u8]), JournalFault>
    ensures { GivesExactly (λ x. (x.0, x.1.now)) (number_field w32 total bytes.now) result }
{
    if bytes.len() < 4 {
        return Err(JournalFault::Truncated {
            at: offset(total, bytes),
        });
    }
    let (front, rest) = bytes.split_at(4);
    let number = u32::from_be_bytes([front[0], front[1], front[2], front[3]]);
    Ok((number, rest))
}

fn u64_field(total: usize, bytes: &[u8]) -> Result<(u64, &[u8]), JournalFault>
    ensures { GivesExactly (λ x. (x.0, x.1.now)) (number_field w64 total bytes.now) result }
{
    if bytes.len() < 8 {
        return Err(JournalFault::Truncated {
            at: offset(total, bytes),
        });
    }
    let (front, rest) = bytes.split_at(8);
    let number = u64::from_be_bytes([
        front[0], front[1], front[2], front[3], front[4], front[5], front[6], front[7],
    ]);
    Ok((number, rest))
}

/// The bytes of a text, and those after it.
#[tactic(auto, unfolding(crate::specs::Fields::text_field))]
fn text_field(total: usize, bytes: &[u8]) -> Result<(&[u8], &[u8]), JournalFault>
    ensures { GivesExactly (λ x. (x.0.now, x.1.now)) (text_field total bytes.now) result }
{
    let (len, rest) = u32_field(total, bytes)?;
    let len = len as usize;
    let at = offset(total, rest);
    if rest.len() < len {
        return Err(JournalFault::Truncated { at });
    }
    let (text, after) = rest.split_at(len);
    if !is_text(text) {
        return Err(JournalFault::BadText { at });
    }
    Ok((text, after))
}

#[tactic(auto, unfolding(crate::specs::Reading::value_field))]
fn value_field(alloc: Global, total: usize, bytes: &[u8]) -> Result<(Value, &[u8]), JournalFault>
    ensures { GivesBy (λ x. (x.0, x.1.now)) JournalFault.Memory (value_field total bytes.now) result }
{
    let (tag, rest) = byte_field(total, bytes)?;
    tagged_value(alloc, total, offset(total, bytes), tag, rest)
}

fn tagged_value(
    alloc: Global,
    total: usize,
    at: u64,
    tag: u8,
    bytes: &[u8],
) -> Result<(Value, &[u8]), JournalFault>
    ensures { GivesBy (λ x. (x.0, x.1.now)) JournalFault.Memory
        (field_behind (value_cases total) at tag bytes.now) result }
{
    match tag {
        NIL_TAG => Ok((Value::Nil, bytes)),
        FALSE_TAG => Ok((Value::Bool(false), bytes)),
        TRUE_TAG => Ok((Value::Bool(true), bytes)),
        NUMBER_TAG => {
            let (number, rest) = u64_field(total, bytes)?;
            Ok((Value::Int(number.cast_signed()), rest))
        }
        TEXT_TAG => {
            let (text, rest) = text_field(total, bytes)?;
            Ok((Value::Text(Text::from_bytes(alloc, text)?), rest))
        }
        _ => Err(JournalFault::BadTag { at }),
    }
}

#[tactic(auto, unfolding(crate::specs::Reading::pair_field))]
fn pair_field(
    alloc: Global,
    total: usize,
    bytes: &[u8],
) -> Result<((Name, Value), &[u8]), JournalFault>
    ensures { GivesBy (λ x. (x.0, x.1.now)) JournalFault.Memory (pair_field total bytes.now) result }
{
    let (name, rest) = text_field(total, bytes)?;
    let name = Name::from_bytes(alloc, name)?;
    let (value, rest) = value_field(alloc, total, rest)?;
    Ok(((name, value), rest))
}

fn pair_list(
    alloc: Global,
    total: usize,
    count: u32,
    bytes: &[u8],
) -> Result<(Given, &[u8]), JournalFault>
    ensures { GivesBy (λ x. (x.0, x.1.now)) JournalFault.Memory
        (repeated (pair_field total) count bytes.now) result }
{
    let mut given = Items::new(alloc);
    let mut rest = bytes;
    for _ in 0..count {
        let (pair, after) = pair_field(alloc, total, rest)?;
        given.push(pair)?;
        rest = after;
    }
    Ok((given, rest))
}

#[tactic(auto, unfolding(crate::specs::Reading::given_field))]
fn given_field(alloc: Global, total: usize, bytes: &[u8]) -> Result<(Given, &[u8]), JournalFault>
    ensures { GivesBy (λ x. (x.0, x.1.now)) JournalFault.Memory (given_field total bytes.now) result }
{
    let (count, rest) = u32_field(total, bytes)?;
    pair_list(alloc, total, count, rest)
}

#[tactic(auto, unfolding(crate::specs::Reading::create_field))]
fn create_field(alloc: Global, total: usize, bytes: &[u8]) -> Result<(Change, &[u8]), JournalFault>
    ensures { GivesBy (λ x. (x.0, x.1.now)) JournalFault.Memory (create_field total bytes.now) result }
{
    let (model, rest) = text_field(total, bytes)?;
    let model = Name::from_bytes(alloc, model)?;
    let (values, rest) = given_field(alloc, total, rest)?;
    Ok((Change::Create { model, values }, rest))
}

#[tactic(auto, unfolding(crate::specs::Reading::update_field))]
fn update_field(alloc: Global, total: usize, bytes: &[u8]) -> Result<(Change, &[u8]), JournalFault>
    ensures { GivesBy (λ x. (x.0, x.1.now)) JournalFault.Memory (update_field total bytes.now) result }
{
    let (model, rest) = text_field(total, bytes)?;
    let model = Name::from_bytes(alloc, model)?;
    let (id, rest) = u32_field(total, rest)?;
    let (values, rest) = given_field(alloc, total, rest)?;
    Ok((Change::Update { model, id, values }, rest))
}

/// The name of a model and an id of it.
#[tactic(auto, unfolding(crate::specs::Reading::model_id_field))]
fn model_id_field(
    alloc: Global,
    total: usize,
    bytes: &[u8],
) -> Result<((Name, u32), &[u8]), JournalFault>
    ensures { GivesBy (λ x. (x.0, x.1.now)) JournalFault.Memory (model_id_field total bytes.now) result }
{
    let (model, rest) = text_field(total, bytes)?;
    let model = Name::from_bytes(alloc, model)?;
    let (id, rest) = u32_field(total, rest)?;
    Ok(((model, id), rest))
}

fn tagged_change(
    alloc: Global,
    total: usize,
    at: u64,
    tag: u8,
    bytes: &[u8],
) -> Result<(Change, &[u8]), JournalFault>
    ensures { GivesBy (λ x. (x.0, x.1.now)) JournalFault.Memory
        (field_behind (change_cases total) at tag bytes.now) result }
{
    match tag {
        CREATE_TAG => create_field(alloc, total, bytes),
        UPDATE_TAG => update_field(alloc, total, bytes),
        DESTROY_TAG => {
            let ((model, id), rest) = model_id_field(alloc, total, bytes)?;
            Ok((Change::Destroy { model, id }, rest))
        }
        TOUCH_TAG => {
            let ((model, id), rest) = model_id_field(alloc, total, bytes)?;
            Ok((Change::Touch { model, id }, rest))
        }
        _ => Err(JournalFault::BadTag { at }),
    }
}

#[tactic(auto, unfolding(crate::specs::Reading::change_field))]
fn change_field(alloc: Global, total: usize, bytes: &[u8]) -> Result<(Change, &[u8]), JournalFault>
    ensures { GivesBy (λ x. (x.0, x.1.now)) JournalFault.Memory (change_field total bytes.now) result }
{
    let (tag, rest) = byte_field(total, bytes)?;
    tagged_change(alloc, total, offset(total, bytes), tag, rest)
}

fn change_list(
    alloc: Global,
    total: usize,
    count: u32,
    bytes: &[u8],
) -> Result<(Changes, &[u8]), JournalFault>
    ensures { GivesBy (λ x. (x.0, x.1.now)) JournalFault.Memory
        (repeated (change_field total) count bytes.now) result }
{
    let mut changes = Items::new(alloc);
    let mut rest = bytes;
    for _ in 0..count {
        let (change, after) = change_field(alloc, total, rest)?;
        changes.push(change)?;
        rest = after;
    }
    Ok((changes, rest))
}

#[tactic(auto, unfolding(crate::specs::Reading::changes_field))]
fn changes_field(
    alloc: Global,
    total: usize,
    bytes: &[u8],
) -> Result<(Changes, &[u8]), JournalFault>
    ensures { GivesBy (λ x. (x.0, x.1.now)) JournalFault.Memory (changes_field total bytes.now)
        result }
{
    let (count, rest) = u32_field(total, bytes)?;
    change_list(alloc, total, count, rest)
}
