//! Reading one tree, byte by byte: a letter, a point, or a plus before the trees of the children.

ghost use Rattle.std.specs.Prelude.{◌≢◌, ℕ, suc, ◌≤◌, List, [], ◌∷◌, ◌++◌, length, slice_index, IfOk};
ghost use Rattle.flow_check.specs.internal.Gives.{GivesTree, GivesChildren};
ghost use Rattle.flow_check.specs.internal.Links.{IsPlace};
ghost use Rattle.flow_check.specs.internal.Reader.{Stands, IsBack};

use crate::fault::CheckFault;
use crate::reader::{Spot, TreeReader};
use crate::trees_text::TreesText;

impl TreeReader {
    /// Reads the trees of all children of the list, and returns the place after them.
    fn read_children(&mut self, text: &TreesText, spot: Spot) -> Result<usize, CheckFault>
        requires at { (list : List ℕ) × Stands text.now.shop.now list self.old }
        requires within { spot.at ≤ length text.now.bytes.now }
        ensures back { IfOk result (λ _. IsBack text.now.shop.now self.old self.new) }
        ensures trees { (list : List ℕ) → Stands text.now.shop.now list self.old →
            GivesChildren text.now spot self.old.child_left list result }
    {
        let base = self.child_left;
        let mut at = spot.at;
        let mut last = 0;
        'children: loop {
            let job = self.links[last as usize];
            if job == 0 {
                if self.child_left == base {
                    return Ok(at);
                }
                last = self.close();
                continue 'children;
            }
            let open = self.read_letter(text, Spot { at, ..spot }, Some(job))?;
            at += 1;
            if open {
                self.open(text, last, job);
                last = 0;
                continue 'children;
            }
            last = job;
        }
    }

    /// Reads the tree of the list itself, and returns the place after it.
    pub(crate) fn read_own(&mut self, text: &TreesText, spot: Spot) -> Result<usize, CheckFault>
        requires at { (list : List ℕ) × Stands text.now.shop.now list self.old }
        ensures { (list : List ℕ) → Stands text.now.shop.now list self.old →
            GivesTree text.now spot (suc self.old.child_left) list result }
    {
        let open = self.read_letter(text, spot, None)?;
        if !open {
            return Ok(spot.at + 1);
        }
        let next = Spot {
            at: spot.at + 1,
            ..spot
        };
        self.read_children(text, next)
    }

    /// Reads the tree of the child whose job is the link of `last`, and returns the place after it.
    pub(crate) fn read_child(
        &mut self,
        text: &TreesText,
        spot: Spot,
        last: u16,
    ) -> Result<usize, CheckFault>
        requires at { (list : List ℕ) × Stands text.now.shop.now list self.old
            × IsPlace text.now.shop.now.jobs list last }
        requires some { slice_index self.old.links.items last ≢ 0 }
        ensures back { IfOk result (λ _. IsBack text.now.shop.now self.old self.new) }
        ensures tree { (list : List ℕ) → Stands text.now.shop.now list self.old →
            IsPlace text.now.shop.now.jobs list last →
            GivesTree text.now spot self.old.child_left (list ++ slice_index self.old.links.items last ∷ []) result }
    {
        let job = self.links[last as usize];
        let open = self.read_letter(text, spot, Some(job))?;
        if !open {
            return Ok(spot.at + 1);
        }
        self.open(text, last, job);
        let next = Spot {
            at: spot.at + 1,
            ..spot
        };
        let end = self.read_children(text, next)?;
        self.close();
        Ok(end)
    }
}
