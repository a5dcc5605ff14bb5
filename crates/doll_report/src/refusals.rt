//! The words that tell a refused commit.

ghost use Rattle.std.specs.Prelude.{◌≡◌, Some, IsSome, OnOk};
ghost use Rattle.std.specs.Io.{StartsWith};
ghost use Rattle.doll_report.specs.Appending.{appended};
ghost use Rattle.doll_report.specs.Refusals as spec;

use crate::appending::{put, put_number};
use doll_commit::Why;
use doll_records::RecordFault;
use doll_text::Memory;

/// Appends why a commit is refused.
pub(crate) fn put_refusal(fault: RecordFault, out: &mut Vec<u8>) -> Result<(), Memory>
    requires { IsSome (spec.refusal_words fault) }
    ensures words { OnOk result
        (appended out.old.items (spec.refusal_words fault) ≡ Some out.new.items) }
    ensures kept { StartsWith out.new.items out.old.items }
{
    match fault {
        RecordFault::Refused { index, why } => {
            put_number(index.into(), out)?;
            put(" ", out)?;
            put(name_of(why), out)
        }
        RecordFault::HistoryFull { .. } => put("HistoryFull", out),
        RecordFault::MomentsEnded { .. } => put("MomentsEnded", out),
        RecordFault::Kept => put("Kept", out),
        RecordFault::Memory => Ok(()),
    }
}

/// The name of what is wrong with a change.
fn name_of(why: Why) -> &'static str
    ensures { result.now ≡ spec.why_name why }
{
    match why {
        Why::UnknownModel => "UnknownModel",
        Why::UnknownAttribute => "UnknownAttribute",
        Why::WrongKind => "WrongKind",
        Why::NullRefused => "NullRefused",
        Why::MissingRow => "MissingRow",
        Why::BadParent => "BadParent",
        Why::Restricted => "Restricted",
        Why::IdsEnded => "IdsEnded",
        Why::TooManyChanges => "TooManyChanges",
    }
}
