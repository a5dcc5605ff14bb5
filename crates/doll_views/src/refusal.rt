//! Why a bundle is refused.

ghost use Rattle.std.specs.Prelude.{◌≡◌, IfOk};
ghost use Rattle.doll_views.specs.Forms.{json_refusal};
ghost use Rattle.doll_views.specs.Refusals.{part_name, kind_name, refusal_line};
ghost use Rattle.doll_views.specs.declared.refusal.Refusal.TheVariants as refusals;

use doll_text::Memory;
use itoa::Buffer;
use std::alloc::{AllocError, AllocFailed, Global};

/// A part of a bundle.
#[derive(Clone, Copy, PartialEq, Eq)]
pub enum BundlePart {
    Json,
    Schema,
    Routes,
    Settings,
    Views,
    Commits,
    Script,
}

/// What is wrong with a part of a bundle. The names are those that the program prints.
#[derive(Clone, Copy, PartialEq, Eq)]
pub enum Kind {
    BadForm,
    TooMany,
    UnknownKind,
    DuplicateName,
    UnknownModel,
    BadInverse,
    BadPath,
    Reserved,
    Duplicate,
    Missing,
    BadName,
    TooLong,
    BadTemplate,
    MissingPartial,
    Cycle,
    DepthOver,
    TooWide,
    Clash,
    UnknownAttribute,
    WrongKind,
    NullRefused,
    MissingRow,
    BadParent,
    Restricted,
    IdsEnded,
    TooManyChanges,
    MomentsEnded,
    HistoryFull,
}

impl BundlePart {
    /// The name that the program prints.
    pub fn name(self) -> &'static str
        ensures { result.now ≡ part_name self }
    {
        match self {
            BundlePart::Json => "json",
            BundlePart::Schema => "schema",
            BundlePart::Routes => "routes",
            BundlePart::Settings => "settings",
            BundlePart::Views => "views",
            BundlePart::Commits => "commits",
            BundlePart::Script => "script",
        }
    }
}

impl Kind {
    /// The name that the program prints.
    pub fn name(self) -> &'static str
        ensures { result.now ≡ kind_name self }
    {
        match self {
            Kind::BadForm => "BadForm",
            Kind::TooMany => "TooMany",
            Kind::UnknownKind => "UnknownKind",
            Kind::DuplicateName => "DuplicateName",
            Kind::UnknownModel => "UnknownModel",
            Kind::BadInverse => "BadInverse",
            Kind::BadPath => "BadPath",
            Kind::Reserved => "Reserved",
            Kind::Duplicate => "Duplicate",
            Kind::Missing => "Missing",
            Kind::BadName => "BadName",
            Kind::TooLong => "TooLong",
            Kind::BadTemplate => "BadTemplate",
            Kind::MissingPartial => "MissingPartial",
            Kind::Cycle => "Cycle",
            Kind::DepthOver => "DepthOver",
            Kind::TooWide => "TooWide",
            Kind::Clash => "Clash",
            Kind::UnknownAttribute => "UnknownAttribute",
            Kind::WrongKind => "WrongKind",
            Kind::NullRefused => "NullRefused",
            Kind::MissingRow => "MissingRow",
            Kind::BadParent => "BadParent",
            Kind::Restricted => "Restricted",
            Kind::IdsEnded => "IdsEnded",
            Kind::TooManyChanges => "TooManyChanges",
            Kind::MomentsEnded => "MomentsEnded",
            Kind::HistoryFull => "HistoryFull",
        }
    }
}

/// The answer to a bundle that isn't served.
#[derive(Clone, Copy, PartialEq, Eq)]
pub enum Refusal {
    /// A part of the bundle is refused. `number` is that of the model, route, file or commit that the fault is in, else 0.
    Refused {
        part: BundlePart,
        number: u64,
        kind: Kind,
    },
    /// A file of the folder has more than 16,777,216 bytes.
    TooLong,
    /// The folder failed.
    Failed,
    /// No memory was found.
    Memory,
}

impl From<Memory> for Refusal {
    ghost from_gives = { λ _ e. e ≡ refusals.Memory };

    fn from(_error: Memory) -> Refusal {
        Refusal::Memory
    }
}

impl From<AllocError> for Refusal {
    ghost from_gives = { λ _ e. e ≡ refusals.Memory };

    fn from(_error: AllocError) -> Refusal {
        Refusal::Memory
    }
}

impl<T: Drop> From<AllocFailed<T>> for Refusal {
    ghost from_gives = { λ _ e. e ≡ refusals.Memory };

    fn from(_error: AllocFailed<T>) -> Refusal {
        Refusal::Memory
    }
}

/// A text is no JSON, or JSON that isn't of the form of a bundle.
pub fn json_refusal() -> Refusal
    ensures { result ≡ json_refusal }
{
    Refusal::Refused {
        part: BundlePart::Json,
        number: 0,
        kind: Kind::BadForm,
    }
}

/// The line that tells a refusal, without its end: `bundle`, the part, the number, a colon and the kind.
pub fn refusal_line(
    alloc: Global,
    part: BundlePart,
    number: u64,
    kind: Kind,
) -> Result<Vec<u8>, Memory>
    ensures { IfOk result (λ line. line.items ≡ refusal_line part number kind) }
{
    let mut digits = Buffer::new();
    let mut line = Vec::from_slice(alloc, b"bundle ")?;
    line.extend_from_slice(part.name().as_bytes())?;
    line.push(b' ')?;
    line.extend_from_slice(digits.format(number).as_bytes())?;
    line.extend_from_slice(b": ")?;
    line.extend_from_slice(kind.name().as_bytes())?;
    Ok(line)
}
