//! The program over its words, a folder, a source, a sink and a clock.

ghost use Rattle.std.specs.Prelude.{◌≡◌, ◌+◌, map, string_bytes, None, IfOk, IsErrOf};
ghost use Rattle.doll_base.specs.Faults.{Rose};
ghost use Rattle.doll_base.specs.Streams.{TookAtMost};
ghost use Rattle.doll.specs.declared.unanswered.Unanswered.TheVariants as unanswered;
ghost use Rattle.doll.specs.Replies.{Answers, AnswersPart, AsksFor, IsReplyTo, ReadsFor};
ghost use Rattle.doll.specs.Statuses.{IsAnswer, IsSilent, OneRose};
ghost use Rattle.doll.specs.Words.{command_of};

use crate::reply::{LONGEST_INPUT, Reply, input_reply, too_long, usage};
use crate::status::Status;
use crate::unanswered::Unanswered;
use crate::words::command_of;
use doll_base::{Clock, Folder, InputFault, Sink, Source, read_all, write_whole};
use std::alloc::Global;
use std::hash::RandomState;

/// The reply to the words and what the source gives.
fn reply_to<F: Folder, S: Source, C: Clock>(
    alloc: Global,
    words: &[String],
    folder: &mut F,
    source: &mut S,
    clock: &mut C,
    keys: RandomState,
) -> Result<Reply, Unanswered>
    ensures reply { IfOk result (IsReplyTo
        (record {
          words = map string_bytes words.now;
          left = S.left source.old;
          files = F.files folder.old;
          before = C.readings clock.old;
          after = C.readings clock.new;
        })) }
    ensures status { IfOk result (λ reply. IsAnswer reply.status) }
    ensures failed { IsErrOf result unanswered.Failed → OneRose
        (S.faults source.old) (S.faults source.new) (F.faults folder.old) (F.faults folder.new) }
    ensures unread { command_of (map string_bytes words.now) ≡ None → source.new ≡ source.old }
    ensures taken { TookAtMost (LONGEST_INPUT + 1) (S.left source.old) (S.left source.new) }
    ensures clock { IsErrOf result unanswered.Failed → clock.new ≡ clock.old }
    ensures unasked { command_of (map string_bytes words.now) ≡ None → clock.new ≡ clock.old }
    ensures reads { ReadsFor
        (record {
          words = map string_bytes words.now;
          left = S.left source.old;
          files = F.files folder.old;
          before = C.readings clock.old;
          after = C.readings clock.new;
        }) }
    ensures unopened { command_of (map string_bytes words.now) ≡ None → folder.new ≡ folder.old }
    ensures folder { AsksFor
        (map string_bytes words.now) (S.left source.old)
        (F.asked folder.old) (F.asked folder.new) }
    ensures kept { F.files folder.new ≡ F.files folder.old }
{
    let command = match command_of(words) {
        Some(command) => command,
        None => return Ok(usage(alloc)?),
    };
    match read_all(alloc, source, LONGEST_INPUT) {
        Ok(input) => input_reply(alloc, command, input.as_slice(), folder, clock, keys),
        Err(InputFault::TooLong) => Ok(too_long(alloc)?),
        Err(InputFault::Failed) => Err(Unanswered::Failed),
        Err(InputFault::Memory) => Err(Unanswered::Memory),
    }
}

/// Runs the program over these words. `plain PATH` reads a bundle from the source and its files from the folder, and writes the
/// page of the path; `lint` writes the faults of its templates, or that they have none; `digests` writes their digests.
pub fn run_tool<F: Folder, S: Source, K: Sink, C: Clock>(
    alloc: Global,
    words: &[String],
    folder: &mut F,
    source: &mut S,
    sink: &mut K,
    clock: &mut C,
    keys: RandomState,
) -> Status
    // Where nothing failed and memory was found, the status and what is written are those of the words, the input, what the
    // folder gave and the clock's readings.
    ensures answer { IsAnswer result → Answers
        (record {
          words = map string_bytes words.now;
          left = S.left source.old;
          files = F.files folder.old;
          before = C.readings clock.old;
          after = C.readings clock.new;
        })
        (K.held sink.old) (K.held sink.new) result }
    // It doesn't give up by itself.
    ensures read_failed { result ≡ Status.ReadFailed → OneRose
        (S.faults source.old) (S.faults source.new) (F.faults folder.old) (F.faults folder.new) }
    ensures write_failed { result ≡ Status.WriteFailed →
        Rose (K.faults sink.old) (K.faults sink.new) × AnswersPart
        (record {
          words = map string_bytes words.now;
          left = S.left source.old;
          files = F.files folder.old;
          before = C.readings clock.old;
          after = C.readings clock.new;
        })
        (K.held sink.old) (K.held sink.new) }
    // Words that are none of the forms are told before anything is read.
    ensures unread { command_of (map string_bytes words.now) ≡ None → source.new ≡ source.old }
    // Whatever the answer, no more is read than tells that the input is too long.
    ensures taken { TookAtMost (LONGEST_INPUT + 1) (S.left source.old) (S.left source.new) }
    // Without an answer nothing is written.
    ensures silent { IsSilent result → sink.new ≡ sink.old }
    // Where the input or a file wasn't read the clock isn't either.
    ensures clock { result ≡ Status.ReadFailed → clock.new ≡ clock.old }
    // Nor is it for words that are none of the forms.
    ensures unasked { command_of (map string_bytes words.now) ≡ None → clock.new ≡ clock.old }
    // Whatever the answer, it is read at most once for each commit of the bundle that says no time.
    ensures reads { ReadsFor
        (record {
          words = map string_bytes words.now;
          left = S.left source.old;
          files = F.files folder.old;
          before = C.readings clock.old;
          after = C.readings clock.new;
        }) }
    // For words that are none of the forms the folder is as it was.
    ensures unopened { command_of (map string_bytes words.now) ≡ None → folder.new ≡ folder.old }
    // Whatever the answer, the folder is asked for the bundle's files alone, in ascending order, each at most once.
    ensures folder { AsksFor
        (map string_bytes words.now) (S.left source.old)
        (F.asked folder.old) (F.asked folder.new) }
    // Its files are the same.
    ensures kept { F.files folder.new ≡ F.files folder.old }
{
    let reply = match reply_to(alloc, words, folder, source, clock, keys) {
        Ok(reply) => reply,
        Err(Unanswered::Failed) => return Status::ReadFailed,
        Err(Unanswered::Memory) => return Status::NoMemory,
    };
    match write_whole(sink, reply.text.as_slice()) {
        Ok(()) => reply.status,
        Err(_) => Status::WriteFailed,
    }
}
