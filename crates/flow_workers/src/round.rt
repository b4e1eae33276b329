//! A round: the first pieces are dealt, and each worker takes the next of them that no worker has taken, one after the
//! other.

ghost use Rattle.std.specs.Prelude.{◌≡◌, ◌<◌, ◌++◌, All, length, option_to_list, slice_set, IfOk, IfSome};
ghost use Rattle.flow_workers.specs.internal.Pieces.{all_met, pieces_met, reading_of};
ghost use Rattle.flow_workers.specs.internal.Replies.{HasPlace, StandsFor};
ghost use Rattle.flow_workers.specs.declared.piece.Dealt.TheVariants.{Searched};

use crate::deal::{deal, put_back};
use crate::kept::Kept;
use crate::node::{Sought, pieces_of};
use crate::pace::Pace;
use crate::piece::{Dealt, Piece, Reply};
use flow_directions::Part;
use std::alloc::AllocError;
use std::collections::VecDeque;
use std::sync::atomic::{AtomicU64, AtomicUsize, Ordering};
use std::thread;
use std::thread::Threads;

/// What all workers of a round share.
#[derive(Drop)]
struct Round<'a, K> {
    sought: &'a Sought<'a>,
    dealt: &'a [Dealt<K>],
    pace: Pace,
    /// The place of the piece that is taken next.
    next: AtomicUsize,
    /// How many directions were written.
    written: AtomicU64,
}

impl<'a, K: Kept> Round<'a, K> {
    /// Takes the next place, unless the round is over.
    fn take(&self) -> Option<usize>
        ensures { IfSome result (λ place. place < length self.now.dealt.now) }
    {
        if self.written.load(Ordering::SeqCst) >= self.pace.whole {
            return None;
        }
        let place = self.next.fetch_add(1, Ordering::SeqCst);
        if place < self.dealt.len() {
            Some(place)
        } else {
            None
        }
    }

    /// Counts directions. Behind a sequence that is reached nothing more is searched.
    fn count(&self, written: u64, reached: bool) {
        self.written.fetch_add(written, Ordering::SeqCst);
        if reached {
            self.next.store(self.dealt.len(), Ordering::SeqCst);
        }
    }

    /// Searches the piece at a place, where it is a node.
    fn search(&self, place: usize) -> Result<Option<Reply<K>>, AllocError>
        requires { place < length self.now.dealt.now }
        ensures place { IfOk result (λ reply. IfSome reply (HasPlace self.now.dealt.now)) }
        ensures stands { IfOk result (λ reply. IfSome reply
            (StandsFor (reading_of K.text K.mark self.now.sought.now) self.now.dealt.now)) }
    {
        let Dealt::Open(Piece::Left(Part::Node { first, last })) = &self.dealt[place] else {
            return Ok(None);
        };
        let grant = self.pace.grant(self.written.load(Ordering::SeqCst));
        let step = K::search(self.sought, first.as_slice(), last.as_slice(), grant)?;
        self.count(step.piece.written(), step.piece.has_reached());
        let pieces = pieces_of(self.sought.alloc, step)?;
        Ok(Some(Reply { place, pieces }))
    }

    /// Takes one piece after the other, and searches those that are nodes.
    fn work(&self) -> Result<Vec<Reply<K>>, AllocError>
        ensures places { IfOk result (λ replies. All (HasPlace self.now.dealt.now) replies.items) }
        ensures stand { IfOk result (λ replies. All
            (StandsFor (reading_of K.text K.mark self.now.sought.now) self.now.dealt.now) replies.items) }
    {
        let mut replies = Vec::new(self.sought.alloc);
        'taken: for _ in 0..self.dealt.len() {
            let Some(place) = self.take() else {
                break;
            };
            let reply = self.search(place)?;
            add_reply(&mut replies, reply)?;
        }
        Ok(replies)
    }
}

/// Puts a reply behind others, where there is one.
fn add_reply<K: Drop>(
    replies: &mut Vec<Reply<K>>,
    reply: Option<Reply<K>>,
) -> Result<(), AllocError>
    ensures { IfOk result (λ _. replies.new.items ≡ replies.old.items ++ option_to_list reply) }
{
    if let Some(reply) = reply {
        replies.push(reply)?;
    }
    Ok(())
}

/// What all workers find for pieces that were dealt.
fn search_dealt<K: Kept, R: Threads + Sync>(
    rt: &R,
    sought: &Sought,
    dealt: &[Dealt<K>],
    pace: Pace,
) -> Result<Vec<Reply<K>>, AllocError>
    ensures places { IfOk result (λ replies. All (HasPlace dealt.now) replies.items) }
    ensures stand { IfOk result (λ replies. All
        (StandsFor (reading_of K.text K.mark sought.now) dealt.now) replies.items) }
{
    let round = Round {
        sought,
        dealt,
        pace,
        next: AtomicUsize::new(0),
        written: AtomicU64::new(0),
    };
    let workers = pace.workers.min(dealt.len());
    let mut lists = thread::map_indices(rt, sought.alloc, workers, &|_| round.work())?;
    let mut replies = Vec::new(sought.alloc);
    'lists: while let Some(list) = lists.pop() {
        let mut list = list?;
        replies.append(&mut list)?;
    }
    Ok(replies)
}

/// Puts what was found in the place of a piece.
fn put_reply<K: Drop>(dealt: &mut [Dealt<K>], reply: Reply<K>)
    requires { reply.place < length dealt.old }
    ensures { dealt.new ≡ slice_set dealt.old reply.place (Searched reply.pieces) }
{
    dealt[reply.place] = Dealt::Searched(reply.pieces);
}

/// Puts each reply in the place of its piece.
fn put_replies<K: Drop>(dealt: &mut [Dealt<K>], replies: Vec<Reply<K>>)
    requires { All (HasPlace dealt.old) replies.items }
    ensures len { length dealt.new ≡ length dealt.old }
    ensures met { (reading : _) → All (StandsFor reading dealt.old) replies.items →
        all_met reading dealt.new ≡ all_met reading dealt.old }
{
    let mut replies = replies;
    'replies: while let Some(reply) = replies.pop() {
        put_reply(dealt, reply);
    }
}

/// Searches the first pieces at a pace. What the pieces stand for stays the same.
pub(crate) fn search_round<K: Kept, R: Threads + Sync>(
    rt: &R,
    sought: &Sought,
    pieces: &mut VecDeque<Piece<K>>,
    pace: Pace,
) -> Result<(), AllocError>
    ensures { IfOk result (λ _. pieces_met (reading_of K.text K.mark sought.now) pieces.new.items
        ≡ pieces_met (reading_of K.text K.mark sought.now) pieces.old.items) }
{
    let mut dealt = deal(sought.alloc, pieces, &pace)?;
    let replies = search_dealt(rt, sought, dealt.as_slice(), pace)?;
    put_replies(dealt.as_mut_slice(), replies);
    put_back(pieces, dealt)?;
    Ok(())
}
