//! What is kept of a rendering that stopped.

ghost use Rattle.std.specs.Prelude.{◌≡◌, ◌∷◌, [], None, reverse, OnOk, IfSome};
ghost use Rattle.doll_frames.specs.Stacks as spec;

use crate::frame::{Frame, Kept};
use crate::keys::BlockKey;
use crate::output::Output;
use crate::scope::Scope;
use crate::walk::Walk;
use doll_entry::{Fetched, Fragment};
use doll_text::{Items, Memory};
use std::alloc::Global;
use std::marker::Model;

/// What the last question was answered.
#[derive(Drop)]
pub enum Answer {
    /// Nothing was asked.
    Nothing,
    /// What was found of a block.
    One(Fetched),
    /// What was found of several blocks, in their order.
    Many(Items<Fetched>),
}

/// The frames of a rendering that stopped, outermost first, and what it was answered since.
#[derive(Drop)]
pub struct Stack {
    /// Innermost first.
    frames: Items<Frame>,
    answer: Answer,
}

impl Model for Stack {
    ghost use Rattle.std.specs.Prelude.{reverse};
    ghost use Rattle.doll_frames.specs.Stacks.{Stopped};

    ghost Value = { Stopped };

    ghost view = { λ s. record { frames = reverse s.frames; answer = s.answer } };
}

/// How far a block came.
#[derive(Drop)]
pub enum AtBlock {
    Start,
    Asked(BlockKey),
    Body { key: BlockKey, written: Output },
    Behind,
}

/// How far a tag came that renders a partial for each item of a list.
#[derive(Drop)]
pub enum AtCollection {
    Start,
    Member { partial: usize, walk: Walk },
    Asked(Kept),
    Missed { kept: Kept, written: Output },
    HandedIn(Kept),
}

impl Stack {
    /// No frames, and no answer.
    pub fn new(alloc: Global) -> Stack
        ensures frames { result.frames ≡ [] }
        ensures answer { result.answer ≡ Answer.Nothing }
    {
        Stack {
            frames: Items::new(alloc),
            answer: Answer::Nothing,
        }
    }

    /// Puts a frame round all others.
    pub fn push(&mut self, frame: Frame) -> Result<(), Memory>
        ensures frames { OnOk result (self.new.frames ≡ frame ∷ self.old.frames) }
        ensures answer { OnOk result (self.new.answer ≡ self.old.answer) }
    {
        self.frames.push(frame)?;
        Ok(())
    }

    /// Takes the outermost frame away.
    fn pop(&mut self) -> Option<Frame>
        ensures some { IfSome result (λ frame. self.old.frames ≡ frame ∷ self.new.frames) }
        ensures none { result ≡ None → (self.old.frames ≡ []) × (self.new.frames ≡ []) }
        ensures answer { self.new.answer ≡ self.old.answer }
    {
        self.frames.pop()
    }

    /// Takes all frames away.
    pub fn clear(&mut self, alloc: Global)
        ensures frames { self.new.frames ≡ [] }
        ensures answer { self.new.answer ≡ self.old.answer }
    {
        self.frames = Items::new(alloc);
    }

    /// Which node of a list it stopped in; where that isn't told, all frames go.
    pub fn pop_node(&mut self, alloc: Global) -> Option<usize>
        ensures some { IfSome result
            (λ number. self.old.frames ≡ Frame.Node number ∷ self.new.frames) }
        ensures none { result ≡ None → spec.Begins spec.is_node self.old.frames self.new.frames }
        ensures answer { self.new.answer ≡ self.old.answer }
    {
        match self.pop() {
            Some(Frame::Node { number }) => Some(number),
            _ => {
                self.clear(alloc);
                None
            }
        }
    }

    /// Which arm of an `if` it stopped in; where that isn't told, all frames go.
    pub fn pop_arm(&mut self, alloc: Global) -> Option<usize>
        ensures some { IfSome result
            (λ place. self.old.frames ≡ Frame.Arm place ∷ self.new.frames) }
        ensures none { result ≡ None → spec.Begins spec.is_arm self.old.frames self.new.frames }
        ensures answer { self.new.answer ≡ self.old.answer }
    {
        match self.pop() {
            Some(Frame::Arm { place }) => Some(place),
            _ => {
                self.clear(alloc);
                None
            }
        }
    }

    /// Which item of an `each` it stopped in; where that isn't told, all frames go.
    pub fn pop_item(&mut self, alloc: Global) -> Option<Walk>
        ensures some { IfSome result
            (λ walk. self.old.frames ≡ Frame.Item walk ∷ self.new.frames) }
        ensures none { result ≡ None → spec.Begins spec.is_item self.old.frames self.new.frames }
        ensures answer { self.new.answer ≡ self.old.answer }
    {
        match self.pop() {
            Some(Frame::Item { walk }) => Some(walk),
            _ => {
                self.clear(alloc);
                None
            }
        }
    }

    /// How far a block came; where that isn't told, all frames go.
    pub fn pop_block(&mut self, alloc: Global) -> AtBlock
        ensures at { spec.IsAtBlock self.old.frames self.new.frames result }
        ensures answer { self.new.answer ≡ self.old.answer }
    {
        match self.pop() {
            Some(Frame::Asked { key }) => AtBlock::Asked(key),
            Some(Frame::Body { key, written }) => AtBlock::Body { key, written },
            Some(Frame::Behind) => AtBlock::Behind,
            _ => {
                self.clear(alloc);
                AtBlock::Start
            }
        }
    }

    /// Which partial it stopped in, and with which variables; where that isn't told, all frames go.
    pub fn pop_partial(&mut self, alloc: Global) -> Option<(usize, Scope)>
        ensures some { IfSome result
            (λ at. self.old.frames ≡ Frame.Partial at.0 at.1 ∷ self.new.frames) }
        ensures none { result ≡ None → spec.Begins spec.is_partial self.old.frames self.new.frames }
        ensures answer { self.new.answer ≡ self.old.answer }
    {
        match self.pop() {
            Some(Frame::Partial { number, scope }) => Some((number, scope)),
            _ => {
                self.clear(alloc);
                None
            }
        }
    }

    /// How far a collection came; where that isn't told, all frames go.
    pub fn pop_collection(&mut self, alloc: Global) -> AtCollection
        ensures at { spec.IsAtCollection self.old.frames self.new.frames result }
        ensures answer { self.new.answer ≡ self.old.answer }
    {
        match self.pop() {
            Some(Frame::Member { partial, walk }) => AtCollection::Member { partial, walk },
            Some(Frame::AskedMany { kept }) => AtCollection::Asked(kept),
            Some(Frame::Missed { kept, written }) => AtCollection::Missed { kept, written },
            Some(Frame::HandedIn { kept }) => AtCollection::HandedIn(kept),
            _ => {
                self.clear(alloc);
                AtCollection::Start
            }
        }
    }

    /// Keeps what was found of a block.
    pub fn answer(&mut self, found: Fetched)
        ensures frames { self.new.frames ≡ self.old.frames }
        ensures answer { self.new.answer ≡ Answer.One found }
    {
        self.answer = Answer::One(found);
    }

    /// Keeps what was found of several blocks.
    pub fn answer_many(&mut self, found: Items<Fetched>)
        ensures frames { self.new.frames ≡ self.old.frames }
        ensures answer { self.new.answer ≡ Answer.Many found }
    {
        self.answer = Answer::Many(found);
    }

    /// Takes what was found of a block.
    pub fn take_one(&mut self) -> Option<Fragment>
        ensures found { result ≡ (spec.given self.old.answer).one }
        ensures frames { self.new.frames ≡ self.old.frames }
        ensures answer { self.new.answer ≡ Answer.Nothing }
    {
        one_found(std::mem::replace(&mut self.answer, Answer::Nothing))
    }

    /// Takes what was found of several blocks.
    pub fn take_many(&mut self, alloc: Global) -> Items<Fetched>
        ensures found { spec.fragments result ≡ (spec.given self.old.answer).many }
        ensures frames { self.new.frames ≡ self.old.frames }
        ensures answer { self.new.answer ≡ Answer.Nothing }
    {
        match std::mem::replace(&mut self.answer, Answer::Nothing) {
            Answer::Many(found) => found,
            _ => Items::new(alloc),
        }
    }
}

/// What was found of a block.
fn one_found(answer: Answer) -> Option<Fragment>
    ensures { result ≡ (spec.given answer).one }
{
    match answer {
        Answer::One(Fetched::Hit(fragment)) => Some(fragment),
        _ => None,
    }
}
