//! Bodies of cached blocks show the same where their keys tell the same.
#![tactic(auto)]

ghost use Rattle.doll_agree.specs.Bodies.{BodiesAgree};

/// A block of a typed and clean set shows the same bytes on two pages where its key tells the same, if their tables are of one history.
pub fn bodies_agree()
    ensures { BodiesAgree }
{}
