//! Sources of bytes.

ghost use Rattle.std.specs.Prelude.{◌≡◌, ◌+◌, ◌<◌, ◌≤◌, length, take, vec_len, IfOk, OnErr, IfSome, IsErrOf, Option};
ghost use Rattle.std.specs.Prelude.{ℕ, List};
ghost use Rattle.doll_base.specs.Faults.{Rose, KeepsCount, HasCause};
ghost use Rattle.doll_base.specs.Inputs.{read_up_to, GivesInput};
ghost use Rattle.doll_base.specs.Streams.{Took, TookCount, TookAtMost, IsAtEnd};
ghost use Rattle.doll_base.specs.declared.input.InputFault.TheVariants.{Failed, TooLong};

use crate::input::InputFault;
use std::alloc::Global;

/// How many bytes are asked for at once.
const PIECE: usize = 8192;

/// A source failed to read.
#[derive(Clone, Copy, PartialEq, Eq)]
pub struct ReadFault;

/// Gives bytes, a piece at a call.
pub trait Source {
    /// The bytes that are left, where the source tells them.
    ghost left: { Self → Option (List ℕ) };

    /// How often the source has failed.
    ghost faults: { Self → ℕ };

    /// Moves the first bytes that are left into the front of `into`, and says how many. It gives none only where
    /// nothing is left or `into` has no room.
    fn read(&mut self, into: &mut [u8]) -> Result<usize, ReadFault>
        ensures fits { IfOk result (λ n. n ≤ length into.old) }
        ensures bytes { IfOk result (λ n. Took (left self.old) (left self.new) (take n into.new)) }
        ensures end { IfOk result (λ n. n ≡ 0 → 0 < length into.old → IsAtEnd (left self.old)) }
        ensures kept { OnErr result (left self.new ≡ left self.old) }
        ensures cause { OnErr result (Rose (faults self.old) (faults self.new)) }
        ensures count { KeepsCount (faults self.old) (faults self.new) };
}

/// Reads all the bytes that are left, of which at most `most` are allowed. It asks for no more than one byte
/// beyond those, whatever the answer, and takes a first part of the bytes where it refuses.
pub fn read_all<S: Source>(
    alloc: Global,
    source: &mut S,
    most: usize,
) -> Result<Vec<u8>, InputFault>
    ensures told { IfSome (S.left source.old) (λ bytes. GivesInput (read_up_to most bytes) result) }
    ensures within { IfOk result (λ bytes. vec_len bytes ≤ most) }
    ensures bytes { IfOk result (λ bytes.
        Took (S.left source.old) (S.left source.new) bytes.items) }
    ensures end { IfOk result (λ _. IsAtEnd (S.left source.new)) }
    ensures limit { IsErrOf result TooLong →
        TookCount (most + 1) (S.left source.old) (S.left source.new) }
    ensures part { TookAtMost (most + 1) (S.left source.old) (S.left source.new) }
    ensures cause { HasCause Failed (S.faults source.old) (S.faults source.new) result }
    ensures count { KeepsCount (S.faults source.old) (S.faults source.new) }
{
    let mut bytes = Vec::new(alloc);
    let mut piece = [0; PIECE];
    while bytes.len() <= most {
        let room = PIECE.min((most - bytes.len()).saturating_add(1));
        let count = read_piece(source, &mut piece[..room], &mut bytes)?;
        if count == 0 {
            return Ok(bytes);
        }
    }
    Err(InputFault::TooLong)
}

/// Reads once, and adds what was read at the end of `bytes`. `piece` is only room for it.
fn read_piece<S: Source>(
    source: &mut S,
    piece: &mut [u8],
    bytes: &mut Vec<u8>,
) -> Result<usize, InputFault>
    ensures fits { IfOk result (λ n. n ≤ length piece.old) }
    ensures len { IfOk result (λ n. vec_len bytes.new ≡ vec_len bytes.old + n) }
    ensures err { OnErr result (bytes.new.items ≡ bytes.old.items) }
    ensures end { IfOk result (λ n. n ≡ 0 → 0 < length piece.old → IsAtEnd (S.left source.new)) }
    ensures takes { (first : Option (List ℕ)) →
        Took first (S.left source.old) bytes.old.items →
        Took first (S.left source.new) bytes.new.items }
    ensures cause { IsErrOf result Failed → Rose (S.faults source.old) (S.faults source.new) }
    ensures within { IsErrOf result TooLong → ⊥ }
    ensures count { KeepsCount (S.faults source.old) (S.faults source.new) }
{
    bytes.reserve(piece.len())?;
    let count = source.read(piece)?;
    bytes.extend_from_slice(&piece[..count])?;
    Ok(count)
}
