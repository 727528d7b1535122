//! What every crate above stands on: places and rules, the statuses of a run, bytes and names, the
//! trees that files are read from, the sinks that a report is written to, and the count of steps.
#![tactic(auto)]

// Places, numbers of objects, rules and statuses.
mod ids;
mod lines;
mod places;
mod rule;
mod status;

// Bytes and texts.
mod blanks;
mod bytes;
mod name;
mod no_memory;
mod word;

// Trees and sinks: in memory, on real folders and on streams.
mod files;
mod folder_list;
mod folder_paths;
mod folder_tree;
mod mem_sink;
mod mem_tree;
mod sink;
mod std_sink;
mod sure_sink;
mod sure_tree;
mod tree;

// Steps.
mod steps;

pub use blanks::is_blank;
pub use bytes::Bytes;
pub use files::has_distinct_paths;
pub use folder_tree::FolderTree;
pub use ids::ObjId;
pub use lines::LineStarts;
pub use mem_sink::{FailPut, MemSink};
pub use mem_tree::MemTree;
pub use name::Name;
pub use no_memory::NoMemory;
pub use places::{LineCol, Pos, place};
pub use rule::{Broken, Family, Rule};
pub use sink::{Sink, SinkFault};
pub use status::Status;
pub use std_sink::StdSink;
pub use steps::Steps;
pub use sure_sink::SureSink;
pub use sure_tree::SureTree;
pub use tree::{MemFile, Tree, TreeFault};
pub use word::Word;

#[cfg(test)]
mod tests;
