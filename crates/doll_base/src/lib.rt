//! The outside of the program as traits: sources and sinks of bytes, a clock, a folder. What stands on them is
//! written over any of them, and each refusal that blames the outside comes only where its count of faults rose.
#![tactic(auto)]

pub mod asked;
pub mod clock;
pub mod faults;
pub mod folder;
pub mod in_memory;
pub mod input;
pub mod sink;
pub mod source;
pub mod system;

pub use asked::Asked;
pub use clock::Clock;
pub use doll_text::{Bytes, Ids, Items, Memory, Name, Text};
pub use faults::{FaultCount, FaultPlan};
pub use folder::{Folder, FolderFault};
pub use in_memory::{ListClock, MemFolder, MemSink, MemSource, ViewFile};
pub use input::InputFault;
pub use sink::{Sink, WriteFault, write_whole};
pub use source::{ReadFault, Source, read_all};
pub use system::{DirFolder, StdSink, StdSource, SysClock};
