//! Reading the lines of the trees, one tree in each.

ghost use Rattle.std.specs.Prelude.{◌≢◌, ℕ, suc, ◌-◌, ◌≤◌, List, [], ◌∷◌, ◌++◌, slice_index, IfOk};
ghost use Rattle.flow_shop.specs.Sequences.{extensions};
ghost use Rattle.flow_check.specs.internal.Links.{IsPlace};
ghost use Rattle.flow_check.specs.internal.Gives.{IsSpotOf, GivesLines};
ghost use Rattle.flow_check.specs.internal.Reader.{Stands, IsBack};
ghost use Rattle.flow_check.specs.internal.PartsGive.{LineEnds};

use crate::fault::CheckFault;
use crate::reader::{Spot, TreeReader};
use crate::trees_text::TreesText;

/// Reads the end of a line, after its tree. Returns the place where the next line begins.
fn line_end(text: &TreesText, spot: Spot) -> Result<Spot, CheckFault>
    requires { IsSpotOf text.now spot }
    ensures { LineEnds spot text.now.bytes.now result }
{
    if spot.at >= text.bytes.len() || text.bytes[spot.at] != b'\n' {
        return Err(CheckFault::Tree(spot.line));
    }
    Ok(Spot {
        line: spot.line + 1,
        at: spot.at + 1,
    })
}

impl TreeReader {
    /// Reads the line that holds the tree of the list itself.
    pub(crate) fn read_one_line(&mut self, text: &TreesText, spot: Spot) -> Result<Spot, CheckFault>
        requires at { (list : List ℕ) × Stands text.now.shop.now list self.old }
        requires spot { IsSpotOf text.now spot }
        ensures within { IfOk result (IsSpotOf text.now) }
        ensures lines { (list : List ℕ) → Stands text.now.shop.now list self.old →
            GivesLines text.now spot (suc self.old.child_left) (list ∷ []) result }
    {
        let at = self.read_own(text, spot)?;
        line_end(text, Spot { at, ..spot })
    }

    /// Reads the line that holds the tree of the child whose job is the link of `last`.
    fn read_line(&mut self, text: &TreesText, spot: Spot, last: u16) -> Result<Spot, CheckFault>
        requires at { (list : List ℕ) × Stands text.now.shop.now list self.old
            × IsPlace text.now.shop.now.jobs list last }
        requires some { slice_index self.old.links.items last ≢ 0 }
        requires spot { IsSpotOf text.now spot }
        ensures within { IfOk result (IsSpotOf text.now) }
        ensures back { IfOk result (λ _. IsBack text.now.shop.now self.old self.new) }
        ensures lines { (list : List ℕ) → Stands text.now.shop.now list self.old →
            IsPlace text.now.shop.now.jobs list last →
            GivesLines text.now spot self.old.child_left
            ((list ++ slice_index self.old.links.items last ∷ []) ∷ []) result }
    {
        let at = self.read_child(text, spot, last)?;
        line_end(text, Spot { at, ..spot })
    }

    /// Reads the lines of the prefixes that have `more` more jobs than the list, in order, one tree in each line.
    /// Returns the place after them.
    pub(crate) fn read_lines(
        &mut self,
        text: &TreesText,
        more: u16,
        spot: Spot,
    ) -> Result<Spot, CheckFault>
        requires at { (list : List ℕ) × Stands text.now.shop.now list self.old }
        requires some { more ≢ 0 }
        requires more { more ≤ suc self.old.child_left }
        requires spot { IsSpotOf text.now spot }
        ensures within { IfOk result (IsSpotOf text.now) }
        ensures back { IfOk result (λ _. IsBack text.now.shop.now self.old self.new) }
        ensures lines { (list : List ℕ) → Stands text.now.shop.now list self.old →
            GivesLines text.now spot (suc self.old.child_left - more)
            (extensions text.now.shop.now.jobs more list) result }
    {
        let mut place = spot;
        let mut last = 0;
        'children: loop {
            let job = self.links[last as usize];
            if job == 0 {
                return Ok(place);
            }
            if more == 1 {
                place = self.read_line(text, place, last)?;
                last = job;
                continue 'children;
            }
            self.open(text, last, job);
            place = self.read_lines(text, more - 1, place)?;
            last = self.close();
        }
    }
}
