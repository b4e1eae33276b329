//! The checker. `check_text` and `check_text_by` read a text of any kind, and return what it shows. `check` and
//! `check_sequence` read a certificate with trees, `check_two_ended` a two-ended one, `check_counted` a counted one.
//! Trees and directions are read with nothing of a solver: docs/proved.md lists the code below them that the searches
//! may call too. A check of a counted certificate repeats the search for directions, so it stands on flow_directions,
//! where that search is proved.
//!
//! - `kind.rt`: the kinds of text.
//! - `fault.rt`: why a text is not a lawful one of its kind.
//! - `bounds.rt`: the bounds that a text proves.
//! - `shown.rt`: what a text shows.
//! - `text.rt`: the checker of every kind.
//! - `titles.rt`: the titles of certificates, and the last line of each.
//! - `number.rt`: decimal numbers of a text.
//! - `four_lines.rt`: the first four lines of two-ended and of counted certificates.
//! - `two_ended.rt`: the checker of two-ended certificates.
//! - `two_ended/walk.rt`: their line 5, the walk through the nodes that directions open.
//! - `counted.rt`: the checker of counted certificates.
//! - `checker.rt`: the checker of certificates with trees.
//! - `heading.rt`: their lines before the trees.
//! - `trees.rt`: the trees.
//! - `trees_text.rt`: what stays the same while the trees are read.
//! - `lines.rt`: the lines of the trees, one tree in each.
//! - `tree.rt`: one tree, byte by byte.
//! - `letter.rt`: the byte that begins a tree.
//! - `reader.rt`: the way from a list of jobs to a child, and back.
//! - `node.rt`: what is kept of a list of jobs, and the machine bounds.
//! - `release.rt`: how much the bound of a version is above the machine bound.
//! - `laws.rt`: laws of the definitions.
#![tactic(auto)]

mod bounds;
mod checker;
mod counted;
mod fault;
mod four_lines;
mod heading;
mod kind;
mod laws;
mod letter;
mod lines;
mod node;
mod number;
mod reader;
mod release;
mod shown;
mod text;
mod titles;
mod tree;
mod trees;
mod trees_text;
mod two_ended;

pub use bounds::Bounds;
pub use checker::{check, check_sequence};
pub use counted::{MOST_NODES, check_counted};
pub use fault::CheckFault;
pub use kind::{TextKind, kind_of};
pub use laws::{
    certificate_is_sound, counted_fault_is_exact, counted_is_sound, counted_states_one,
    fault_is_exact, kind_is_one, text_states_one, two_ended_fault_is_exact, two_ended_is_sound,
    two_ended_states_one, value_is_exact,
};
pub use shown::Shown;
pub use text::{check_text, check_text_by};
pub use titles::{COUNTED_TITLE, LAST_LINE, TITLE, TWO_ENDED_TITLE};
pub use two_ended::check_two_ended;
