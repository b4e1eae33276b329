//! Nodes of two lists, the first of which begins a sequence and the last of which ends it; and the bounds of all
//! children of a node at an end, side by side.
//!
//! - `node.rt`: a node: the front and the back on each machine, and the time of the jobs left.
//! - `vector.rt`: vectors: numbers side by side.
//! - `group.rt`: a group: for each machine a vector with a lane for each job.
//! - `pack.rt`: packs: groups of sixteen jobs, with the names of the jobs.
//! - `marks.rt`: marks of places, sixteen to a word.
//! - `limit.rt`: the threshold, in the bits that lanes have.
//! - `pairs.rt`: what the groups of a node share at an end.
//! - `passes.rt`: when the jobs of a group start at an end of a node, and which of the children are below a threshold.
//! - `starts.rt`: the bounds of children, from when their jobs start.
//! - `bounds.rt`: the bounds of the children that put the jobs of a group at an end.
//! - `few_groups.rt`: the children below a threshold, where few groups have the jobs left.
//! - `bytes.rt`: the children at or above a threshold, as far as numbers of one byte tell: these are pruned.
//! - `opener.rt`: `Opener::mark_below` opens a node at one end, for the checker, and prunes children by `bytes.rt` and
//!   `few_groups.rt`.
//! - `scan.rt`: the numbers of a child.
//! - `open.rt`: nodes that are opened at both ends, and the memory for them.
//! - `opening.rt`: `Opener::open` and `Opener::open_child` open nodes at both ends, for the search, and prune children
//!   by `passes.rt`, or by `starts.rt` where the list at an end stays the same.
//! - `plain_end.rt`: the plain rule for the end at which a node is opened.
#![tactic(auto)]

mod bounds;
mod bytes;
mod few_groups;
mod group;
mod limit;
mod marks;
mod node;
mod open;
mod opener;
mod opening;
mod pack;
mod pairs;
mod passes;
mod plain_end;
mod scan;
mod starts;
mod vector;

pub use group::{LANES, MAX_GROUPS, group_count, groups, write_group};
pub use limit::{fits_narrow_lanes, limit_of};
pub use marks::Marks;
pub use node::{Node, time_of_all};
pub use open::{Children, OpenNode, Put};
pub use opener::Opener;
pub use pack::Pack;
pub use plain_end::{fewer_below, greater_sum};
pub use vector::Vector;
