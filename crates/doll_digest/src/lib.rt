//! Digests of templates: the hash of a template's framed text, which holds its source and the digests of what it depends on, and
//! a registry in which no two framed texts share one.
#![tactic(auto)]

pub mod digest;
mod framing;
pub mod hash;
pub mod registry;

pub use digest::Digest;
pub use framing::one_template;
pub use hash::{Hash16, Md5Hash, WeakHash};
pub use registry::{DigestFault, NameId, Registry};
