//! The byte that begins a tree: a machine's letter, a point, or a plus before the trees of the children.

ghost use Rattle.std.specs.Prelude.{◌≡◌, ℕ, ◌+◌, ◌^◌, ◌<◌, ◌≤◌, List, IfOk};
ghost use Rattle.flow_check.specs.internal.Nodes.{IsChild, grown, left_here};
ghost use Rattle.flow_check.specs.internal.Gives.{GivesLetter};
ghost use Rattle.flow_check.specs.internal.Reader.{Stands, IsBack};

use crate::fault::CheckFault;
use crate::node::makespan_at;
use crate::reader::{Spot, TreeReader};
use crate::release::reaches;
use crate::trees_text::TreesText;

/// How many jobs are left at a list, or at a child of it, where `child_left` jobs are left at each child.
fn left_here(child: Option<u16>, child_left: usize) -> usize
    requires { child_left ≤ 65535 }
    ensures { result ≡ left_here child child_left }
{
    match child {
        None => child_left + 1,
        Some(_) => child_left,
    }
}

impl TreeReader {
    /// Reads the first byte of the tree of the list, or of a child of it. Returns true for a plus, which the trees of
    /// the children follow, and false for a letter or a point, which is a whole tree.
    pub(crate) fn read_letter(
        &mut self,
        text: &TreesText,
        spot: Spot,
        child: Option<u16>,
    ) -> Result<bool, CheckFault>
        requires at { (list : List ℕ) × Stands text.now.shop.now list self.old
            × IsChild text.now.shop.now.jobs list child }
        ensures back { IsBack text.now.shop.now self.old self.new }
        ensures gives { (list : List ℕ) → Stands text.now.shop.now list self.old →
            IsChild text.now.shop.now.jobs list child →
            GivesLetter text.now spot (left_here child self.old.child_left) (grown list child) result }
        ensures next { IfOk result (λ _. spot.at + 1 < 2 ^ 64) }
    {
        if spot.at >= text.bytes.len() {
            return Err(CheckFault::Tree(spot.line));
        }
        let byte = text.bytes[spot.at];
        let node = &mut self.frames[self.child_left].node;
        if left_here(child, self.child_left) == 0 {
            if byte != b'.' {
                return Err(CheckFault::Tree(spot.line));
            }
            if makespan_at(text, node, child) < text.value {
                return Err(CheckFault::Low(spot.line));
            }
            return Ok(false);
        }
        if byte == b'+' {
            return Ok(true);
        }
        if byte < b'A' {
            return Err(CheckFault::Tree(spot.line));
        }
        let machine = u16::from(byte - b'A') + 1;
        if machine > text.shop.machines() {
            return Err(CheckFault::Tree(spot.line));
        }
        if !reaches(text, node, &mut self.lags, &self.links, child, machine) {
            return Err(CheckFault::Weak(spot.line));
        }
        Ok(false)
    }
}
