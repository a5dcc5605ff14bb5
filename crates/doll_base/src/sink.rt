//! Sinks of bytes.

ghost use Rattle.std.specs.Prelude.{◌≡◌, ◌<◌, ◌≤◌, [], length, take, ℕ, List, Option, IfOk, OnOk, OnErr};
ghost use Rattle.doll_base.specs.Faults.{Rose, KeepsCount};
ghost use Rattle.doll_base.specs.Streams.{Appended, AppendedPart};

/// A sink failed to write.
#[derive(Clone, Copy, PartialEq, Eq)]
pub struct WriteFault;

/// Takes bytes, a piece at a call.
pub trait Sink {
    /// The bytes that the sink holds, where it tells them.
    ghost held: { Self → Option (List ℕ) };

    /// How often the sink has failed.
    ghost faults: { Self → ℕ };

    /// Adds the first bytes of `from` at the end, and says how many. It is at least one where there is one.
    fn write(&mut self, from: &[u8]) -> Result<usize, WriteFault>
        ensures fits { IfOk result (λ n. n ≤ length from.now) }
        ensures some { IfOk result (λ n. 0 < length from.now → 0 < n) }
        ensures bytes { IfOk result (λ n.
            Appended (held self.old) (held self.new) (take n from.now)) }
        ensures kept { OnErr result (held self.new ≡ held self.old) }
        ensures cause { OnErr result (Rose (faults self.old) (faults self.new)) }
        ensures count { KeepsCount (faults self.old) (faults self.new) };
}

/// Writes all these bytes, with no memory. Where it fails, a first part of them was written.
pub fn write_whole<K: Sink>(sink: &mut K, bytes: &[u8]) -> Result<(), WriteFault>
    ensures all { OnOk result (Appended (K.held sink.old) (K.held sink.new) bytes.now) }
    ensures part { AppendedPart (K.held sink.old) (K.held sink.new) bytes.now }
    // Where there is nothing to write the sink isn't called.
    ensures uncalled { bytes.now ≡ [] → sink.new ≡ sink.old }
    ensures cause { OnErr result (Rose (K.faults sink.old) (K.faults sink.new)) }
    ensures count { KeepsCount (K.faults sink.old) (K.faults sink.new) }
{
    let mut done = 0;
    while done < bytes.len() {
        let count = sink.write(&bytes[done..])?;
        done += count;
    }
    Ok(())
}
