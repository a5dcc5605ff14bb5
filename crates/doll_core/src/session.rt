//! Sessions: pages that are rendered from call to call.

use doll_job::Job;
use doll_keep::MemKeeper;
use doll_records::Snapshot;
use doll_shelf::MemShelf;
use doll_text::Text;
use doll_world::World;
use std::marker::Model;

/// A world whose commits are kept in memory, and whose fragments too.
pub type MemWorld = World<MemKeeper, MemShelf>;

/// A page that is being rendered over a snapshot.
#[derive(Drop)]
pub struct Session {
    /// What is asked for.
    pub target: Text,
    pub snapshot: Snapshot,
    pub job: Job,
    /// The looks at the table that may have been taken since the last call.
    pub charged: u64,
}

impl Model for Session {
    ghost use Rattle.std.specs.Coded.{codes};
    ghost use Rattle.doll_table.specs.Codes.{table_code};
    ghost use Rattle.doll_core.specs.States.{SessionParts};

    ghost Value = { SessionParts };

    ghost coded = { Prim.hlevel (codes, table_code) };

    ghost view = { λ s. record {
      target = s.target;
      snapshot = s.snapshot;
      job = s.job;
      charged = s.charged;
    } };
}
