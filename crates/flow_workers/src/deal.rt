//! Which pieces are dealt in a round: the first ones of a search, where children of a node are taken one by one.

ghost use Rattle.std.specs.Prelude.{◌≡◌, IfOk};
ghost use Rattle.flow_shop.specs.Directions.{first_with, last_with};
ghost use Rattle.flow_parts.specs.Meanings.{behind};
ghost use Rattle.flow_workers.specs.internal.Pieces.{all_met, piece_met, pieces_met, reading_of};
ghost use Rattle.flow_workers.specs.internal.Taken.{IsNodeOf, taken_met};

use crate::kept::Kept;
use crate::pace::Pace;
use crate::piece::{Dealt, Piece};
use flow_directions::Part;
use flow_shop::End;
use std::alloc::{AllocError, Global};
use std::collections::VecDeque;

/// The child of a node that puts a job at an end.
fn child(alloc: Global, first: &[u16], last: &[u16], end: End, job: u16) -> Result<Part, AllocError>
    ensures { IfOk result (IsNodeOf (first_with end first.now job) (last_with end last.now job)) }
{
    let mut begin = Vec::from_slice(alloc, first)?;
    let mut behind = Vec::new(alloc);
    match end {
        End::Front => begin.push(job)?,
        End::Back => behind.push(job)?,
    }
    behind.extend_from_slice(last)?;
    Ok(Part::Node {
        first: begin,
        last: behind,
    })
}

/// Takes the first piece off. Where it is children of a node, takes the first of them, and leaves the others.
fn take_first<K: Kept>(
    alloc: Global,
    pieces: &mut VecDeque<Piece<K>>,
) -> Result<Option<Piece<K>>, AllocError>
    ensures { (sought : _) → IfOk result (λ taken. behind (taken_met (reading_of K.text K.mark sought) taken)
        (pieces_met (reading_of K.text K.mark sought) pieces.new.items)
        ≡ pieces_met (reading_of K.text K.mark sought) pieces.old.items) }
{
    let Some(piece) = pieces.pop_front() else {
        return Ok(None);
    };
    let Piece::Left(
        Part::Children {
            first,
            last,
            end,
            jobs,
        },
    ) = piece
    else {
        return Ok(Some(piece));
    };
    if jobs.is_empty() {
        return Ok(Some(Piece::Done(K::none(alloc))));
    }
    let mut jobs = jobs;
    let job = jobs.remove(0);
    let node = child(alloc, first.as_slice(), last.as_slice(), end, job)?;
    pieces.push_front(Piece::Left(Part::Children {
        first,
        last,
        end,
        jobs,
    }))?;
    Ok(Some(Piece::Left(node)))
}

/// Takes the first pieces off, until they have as many nodes as the pace allows, or those that are done as many
/// directions as the round: directions behind a node may have been found in vain.
pub(crate) fn deal<K: Kept>(
    alloc: Global,
    pieces: &mut VecDeque<Piece<K>>,
    pace: &Pace,
) -> Result<Vec<Dealt<K>>, AllocError>
    ensures { (sought : _) → IfOk result (λ dealt. behind (all_met (reading_of K.text K.mark sought) dealt.items)
        (pieces_met (reading_of K.text K.mark sought) pieces.new.items)
        ≡ pieces_met (reading_of K.text K.mark sought) pieces.old.items) }
{
    let mut dealt = Vec::new(alloc);
    let mut nodes: usize = 0;
    let mut known: u64 = 0;
    'taken: for _ in 0..usize::MAX {
        if nodes >= pace.nodes || known >= pace.whole {
            break;
        }
        let Some(piece) = take_first(alloc, pieces)? else {
            break;
        };
        match &piece {
            Piece::Done(directions) => known = known.saturating_add(directions.count()),
            _ => nodes = nodes.saturating_add(1),
        }
        dealt.push(Dealt::Open(piece))?;
    }
    Ok(dealt)
}

/// Puts a piece before others. Those behind a sequence that is reached are let go.
fn put_first<K: Kept>(pieces: &mut VecDeque<Piece<K>>, piece: Piece<K>) -> Result<(), AllocError>
    ensures { (reading : _) → IfOk result (λ _. pieces_met reading pieces.new.items
        ≡ behind (piece_met reading piece) (pieces_met reading pieces.old.items)) }
{
    if let Piece::Reached { .. } = &piece {
        pieces.clear();
    }
    pieces.push_front(piece)?;
    Ok(())
}

/// Puts some pieces before others.
fn put_run<K: Kept>(
    pieces: &mut VecDeque<Piece<K>>,
    run: VecDeque<Piece<K>>,
) -> Result<(), AllocError>
    ensures { (reading : _) → IfOk result (λ _. pieces_met reading pieces.new.items
        ≡ behind (pieces_met reading run.items) (pieces_met reading pieces.old.items)) }
{
    let mut run = run;
    'pieces: while let Some(piece) = run.pop_back() {
        put_first(pieces, piece)?;
    }
    Ok(())
}

/// Puts what was dealt before the pieces that were not.
pub(crate) fn put_back<K: Kept>(
    pieces: &mut VecDeque<Piece<K>>,
    dealt: Vec<Dealt<K>>,
) -> Result<(), AllocError>
    ensures { (reading : _) → IfOk result (λ _. pieces_met reading pieces.new.items
        ≡ behind (all_met reading dealt.items) (pieces_met reading pieces.old.items)) }
{
    let mut dealt = dealt;
    'dealt: while let Some(last) = dealt.pop() {
        match last {
            Dealt::Open(piece) => put_first(pieces, piece)?,
            Dealt::Searched(run) => put_run(pieces, run)?,
        }
    }
    Ok(())
}
