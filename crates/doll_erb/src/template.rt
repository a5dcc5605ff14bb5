//! Reading a template into its tree.

ghost use Rattle.std.specs.Prelude.{◌≡◌, ◌≤◌, ◌<◌, ◌+◌, ◌^◌, ◌∷◌, [], length, reverse, IfOk, OnOk, MatchOption, Ok};
ghost use Rattle.doll_text.specs.Gives.{Gives};
ghost use Rattle.doll_erb.specs.declared.node.ErbFault.TheVariants.{Memory};
ghost use Rattle.doll_erb.specs.declared.node.Node.{Node};
ghost use Rattle.doll_erb.specs.Grammar.{IsTemplate, GivesEachTree, OneTree};
ghost use Rattle.doll_erb.specs.Tags.{TagsAreSentences};
ghost use Rattle.doll_erb.specs.Faults.{Faults};
ghost use Rattle.doll_erb.specs.Trees as spec;
ghost use Rattle.doll_erb.specs.Readings.{state_of, GivesState, Holds, TakesInnermost};

use crate::frame::Frame;
use crate::node::{Arm, ErbFault, Node, Tree};
use crate::piece::{Tag, TagKind, cut};
use crate::role::{Closing, Opening, Role};
use crate::tag::role_of;
use doll_expr::{Expr, ExprFault, Items, LONGEST_SOURCE, Text};
use std::alloc::{AllocError, Global};

/// How many blocks may be open at once.
const MOST_OPEN: usize = 64;

/// What was read so far: the open blocks, the innermost last, the nodes and the text in that, and the number of the next cache tag.
#[derive(Drop)]
struct Reading {
    frames: Items<Frame>,
    nodes: Tree,
    bytes: Vec<u8>,
    number: u32,
}

/// The tree of a template of these bytes, or its first fault. The faults of the cut come first; of the others the first in the text, and at
/// last the innermost block that isn't closed.
pub fn parse_template(alloc: Global, text: &[u8]) -> Result<Tree, ErbFault>
    requires { length text.now ≤ LONGEST_SOURCE }
    // What is accepted is a template of the grammar of blocks with this tree.
    ensures found { IfOk result (λ tree. IsTemplate text.now tree) }
    // Each template of the grammar is accepted with its tree, unless memory runs out.
    ensures only { GivesEachTree text.now result }
    // What is accepted has no fault, and a refusal is the first fault by the blocks that tags open and close, unless memory ran out.
    ensures fault { Faults text.now result }
    // The same as one equation: what reading from the left gives.
    ensures exact { Gives ErbFault.Memory (spec.tree_of text.now) result }
{
    read_template(alloc, text)
}

/// No text has two trees.
pub fn one_tree()
    ensures { OneTree }
{}

/// A tag does what it does by the grammar of tags, and its fault is that of the first token with which no sentence goes on.
pub fn tags_are_sentences()
    ensures { TagsAreSentences }
{}

#[tactic(auto, unfolding(crate::specs::Trees::tree_of, crate::specs::Trees::whole))]
fn read_template(alloc: Global, text: &[u8]) -> Result<Tree, ErbFault>
    requires { length text.now ≤ LONGEST_SOURCE }
    ensures { Gives ErbFault.Memory (spec.tree_of text.now) result }
{
    let tags = cut(alloc, text)?;
    let reading = read_pieces(alloc, text, tags.as_slice())?;
    at_end(reading)
}

/// What all pieces come to.
#[tactic(auto, unfolding(crate::specs::Trees::with_pieces))]
fn read_pieces(alloc: Global, text: &[u8], tags: &[Tag]) -> Result<Reading, ErbFault>
    requires fits { length text.now ≤ LONGEST_SOURCE }
    requires numbers { length tags.now < 2 ^ 32 }
    ensures { GivesState (spec.with_pieces text.now (spec.state [] [] [] 0) tags.now) result }
{
    let mut reading = Reading {
        frames: Items::new(alloc),
        nodes: Items::new(alloc),
        bytes: Vec::new(alloc),
        number: 0,
    };
    let mut rest = tags;
    while let Some((tag, more)) = rest.split_first() {
        reading = with_piece(alloc, text, reading, tag)?;
        rest = more;
    }
    Ok(reading)
}

/// The tree, where no block is open at the text's end.
fn at_end(reading: Reading) -> Result<Tree, ErbFault>
    ensures { Gives ErbFault.Memory (spec.tree_at_end (state_of reading)) result }
{
    let mut frames = reading.frames;
    match take_frame(&mut frames) {
        None => Ok(with_text(reading.nodes, reading.bytes)?),
        Some(innermost) => Err(ErbFault::MissingEnd {
            at: place_of(&innermost),
        }),
    }
}

/// The place of an open block's tag.
fn place_of(frame: &Frame) -> u32
    ensures { result ≡ spec.place_of frame.now }
{
    match frame {
        Frame::If { at, .. } => *at,
        Frame::Else { at, .. } => *at,
        Frame::Each { at, .. } => *at,
        Frame::Cache { at, .. } => *at,
    }
}

/// What was read with a piece more.
#[tactic(auto, unfolding(crate::specs::Trees::with_piece))]
fn with_piece(alloc: Global, text: &[u8], reading: Reading, tag: &Tag) -> Result<Reading, ErbFault>
    requires fits { length text.now ≤ LONGEST_SOURCE }
    requires numbers { reading.number + 1 < 2 ^ 32 }
    ensures value { GivesState (spec.with_piece text.now (state_of reading) tag.now) result }
    ensures numbers { IfOk result (λ r. r.number ≤ reading.number + 1) }
{
    let at = tag.span.from;
    match role_in(alloc, text, tag)? {
        Role::Nothing => Ok(with_bytes(reading, text_of(text, tag))?),
        Role::Leaf(node) => Ok(with_node(alloc, reading, node)?),
        Role::Opens(what) => opened(alloc, reading, at, what),
        Role::Closes(what) => closed(alloc, reading, at, what),
    }
}

/// What a piece does. A fault in it is told with its place.
#[tactic(auto, unfolding(crate::specs::Trees::role_in))]
fn role_in(alloc: Global, text: &[u8], tag: &Tag) -> Result<Role, ErbFault>
    requires { length text.now ≤ LONGEST_SOURCE }
    ensures { Gives ErbFault.Memory (spec.role_in text.now tag.now) result }
{
    let at = tag.span.from;
    match role_of(alloc, at, tag.kind, content_of(text, tag)) {
        Ok(role) => Ok(role),
        Err(ExprFault::Memory) => Err(ErbFault::Memory),
        Err(fault) => Err(ErbFault::BadExpr { at, fault }),
    }
}

fn content_of<'a>(text: &'a [u8], tag: &Tag) -> &'a [u8]
    ensures value { result.now ≡ spec.content_of text.now tag.now }
    ensures within { length result.now ≤ length text.now }
{
    between(text, tag.content.from, tag.content.to)
}

/// The bytes of a template between two places.
fn between(text: &[u8], from: u32, to: u32) -> &[u8]
    ensures value { result.now ≡ spec.between text.now from to }
    ensures within { length result.now ≤ length text.now }
{
    let (_before, rest) = text.split_at(std::cmp::min(from as usize, text.len()));
    let len = to.saturating_sub(from) as usize;
    let (part, _after) = rest.split_at(std::cmp::min(len, rest.len()));
    part
}

/// What a piece writes as it stands.
#[tactic(auto, unfolding(crate::specs::Trees::text_of))]
fn text_of<'a>(text: &'a [u8], tag: &Tag) -> &'a [u8]
    ensures { result.now ≡ spec.text_of text.now tag.now }
{
    match tag.kind {
        TagKind::Text => content_of(text, tag),
        TagKind::Comment | TagKind::Write | TagKind::Raw | TagKind::Run => &[],
    }
}

/// Nodes, and the text that stands behind them. An empty text is no node.
fn with_text(nodes: Tree, bytes: Vec<u8>) -> Result<Tree, AllocError>
    ensures { IfOk result (λ tree. tree ≡ spec.with_text nodes bytes.items) }
{
    let mut tree = nodes;
    if !bytes.is_empty() {
        tree.push(Node::Text(Text::from_vec(bytes)))?;
    }
    Ok(tree)
}

fn with_bytes(reading: Reading, more: &[u8]) -> Result<Reading, AllocError>
    ensures value { IfOk result (Holds (spec.with_bytes (state_of reading) more.now)) }
    ensures number { IfOk result (λ r. r.number ≡ reading.number) }
{
    let mut reading = reading;
    reading.bytes.extend_from_slice(more)?;
    Ok(reading)
}

fn with_node(alloc: Global, reading: Reading, node: Node) -> Result<Reading, AllocError>
    ensures value { IfOk result (Holds (spec.with_node (state_of reading) node)) }
    ensures number { IfOk result (λ r. r.number ≡ reading.number) }
{
    let mut nodes = with_text(reading.nodes, reading.bytes)?;
    nodes.push(node)?;
    Ok(Reading {
        frames: reading.frames,
        nodes,
        bytes: Vec::new(alloc),
        number: reading.number,
    })
}

/// Takes the innermost block.
fn take_frame(frames: &mut Items<Frame>) -> Option<Frame>
    ensures { TakesInnermost frames.old frames.new result }
{
    frames.pop()
}

/// Adds a block, the innermost from now on.
fn put_frame(frames: &mut Items<Frame>, frame: Frame) -> Result<(), AllocError>
    ensures { OnOk result (reverse frames.new ≡ frame ∷ reverse frames.old) }
{
    frames.push(frame)?;
    Ok(())
}

/// A block more, unless it would be the 65th that is open at once.
fn opened(alloc: Global, reading: Reading, at: u32, what: Opening) -> Result<Reading, ErbFault>
    requires { reading.number + 1 < 2 ^ 32 }
    ensures value { GivesState (spec.opened (state_of reading) at what) result }
    ensures numbers { IfOk result (λ r. r.number ≤ reading.number + 1) }
{
    if reading.frames.len() >= MOST_OPEN {
        return Err(ErbFault::TooDeep { at });
    }
    let mut frames = reading.frames;
    let outer = with_text(reading.nodes, reading.bytes)?;
    let number = number_in(reading.number, &what);
    put_frame(
        &mut frames,
        frame_of(alloc, at, reading.number, what, outer),
    )?;
    Ok(Reading {
        frames,
        nodes: Items::new(alloc),
        bytes: Vec::new(alloc),
        number,
    })
}

/// The number of the next cache tag behind a tag.
fn number_in(number: u32, what: &Opening) -> u32
    requires { number + 1 < 2 ^ 32 }
    ensures value { result ≡ spec.number_in number what.now }
    ensures few { result ≤ number + 1 }
{
    match what {
        Opening::If(_) => number,
        Opening::Each { .. } => number,
        Opening::Cache(_) => number + 1,
    }
}

/// A block that a tag opens behind these nodes.
fn frame_of(alloc: Global, at: u32, number: u32, what: Opening, outer: Tree) -> Frame
    ensures { result ≡ spec.frame_of at number what outer }
{
    match what {
        Opening::If(test) => Frame::If {
            at,
            arms: Items::new(alloc),
            arm_at: at,
            test,
            outer,
        },
        Opening::Each { list, name } => Frame::Each {
            at,
            list,
            name,
            outer,
        },
        Opening::Cache(key) => Frame::Cache {
            at,
            number,
            key,
            outer,
        },
    }
}

/// The end of a part of the innermost block.
fn closed(alloc: Global, reading: Reading, at: u32, what: Closing) -> Result<Reading, ErbFault>
    ensures value { GivesState (spec.closed (state_of reading) at what) result }
    ensures numbers { IfOk result (λ r. r.number ≡ reading.number) }
{
    let mut frames = reading.frames;
    let Some(innermost) = take_frame(&mut frames) else {
        return Err(ErbFault::StrayEnd { at });
    };
    let body = with_text(reading.nodes, reading.bytes)?;
    part_ended(alloc, frames, innermost, body, reading.number, at, what)
}

/// The end of a part of a block, by what stands in it.
fn part_ended(
    alloc: Global,
    frames: Items<Frame>,
    innermost: Frame,
    body: Tree,
    number: u32,
    at: u32,
    what: Closing,
) -> Result<Reading, ErbFault>
    ensures value { GivesState (spec.part_ended innermost (reverse frames) body number at what) result }
    ensures numbers { IfOk result (λ r. r.number ≡ number) }
{
    match what {
        Closing::Elsif(test) => {
            let next = elsif_frame(innermost, at, test, body)?;
            inside(alloc, frames, next, number)
        }
        Closing::Else => {
            let next = else_frame(innermost, at, body)?;
            inside(alloc, frames, next, number)
        }
        Closing::End => Ok(Reading {
            frames,
            nodes: nodes_with(alloc, innermost, body)?,
            bytes: Vec::new(alloc),
            number,
        }),
    }
}

/// What was read where a part begins.
fn inside(
    alloc: Global,
    frames: Items<Frame>,
    next: Frame,
    number: u32,
) -> Result<Reading, ErbFault>
    ensures value { GivesState (Ok (spec.state (next ∷ reverse frames) [] [] number)) result }
    ensures numbers { IfOk result (λ r. r.number ≡ number) }
{
    let mut frames = frames;
    put_frame(&mut frames, next)?;
    Ok(Reading {
        frames,
        nodes: Items::new(alloc),
        bytes: Vec::new(alloc),
        number,
    })
}

/// An `if` that has a further arm.
fn elsif_frame(frame: Frame, place: u32, next: Expr, body: Tree) -> Result<Frame, ErbFault>
    ensures { Gives ErbFault.Memory (spec.at_elsif frame place next body) result }
{
    match frame {
        Frame::If {
            at,
            mut arms,
            arm_at,
            test,
            outer,
        } => {
            arms.push(Arm {
                at: arm_at,
                test,
                body,
            })?;
            Ok(Frame::If {
                at,
                arms,
                arm_at: place,
                test: next,
                outer,
            })
        }
        _ => Err(ErbFault::StrayEnd { at: place }),
    }
}

/// The last part of an `if`.
fn else_frame(frame: Frame, place: u32, body: Tree) -> Result<Frame, ErbFault>
    ensures { Gives ErbFault.Memory (spec.at_else frame place body) result }
{
    match frame {
        Frame::If {
            at,
            mut arms,
            arm_at,
            test,
            outer,
        } => {
            arms.push(Arm {
                at: arm_at,
                test,
                body,
            })?;
            Ok(Frame::Else { at, arms, outer })
        }
        _ => Err(ErbFault::StrayEnd { at: place }),
    }
}

/// The nodes before a block and the block, by its last part.
fn nodes_with(alloc: Global, frame: Frame, body: Tree) -> Result<Tree, AllocError>
    ensures { IfOk result (λ tree. tree ≡ spec.nodes_with frame body) }
{
    match frame {
        Frame::If {
            at,
            mut arms,
            arm_at,
            test,
            mut outer,
        } => {
            arms.push(Arm {
                at: arm_at,
                test,
                body,
            })?;
            outer.push(Node::If {
                at,
                arms,
                otherwise: Items::new(alloc),
            })?;
            Ok(outer)
        }
        Frame::Else {
            at,
            arms,
            mut outer,
        } => {
            outer.push(Node::If {
                at,
                arms,
                otherwise: body,
            })?;
            Ok(outer)
        }
        Frame::Each {
            at,
            list,
            name,
            mut outer,
        } => {
            outer.push(Node::Each {
                at,
                list,
                name,
                body,
            })?;
            Ok(outer)
        }
        Frame::Cache {
            at,
            number,
            key,
            mut outer,
        } => {
            outer.push(Node::Cache {
                at,
                block: number,
                key,
                body,
            })?;
            Ok(outer)
        }
    }
}
