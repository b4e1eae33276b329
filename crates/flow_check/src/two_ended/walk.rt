//! Line 5 of a two-ended certificate: the walk through the nodes that directions open, which finds where the directions
//! end that prove a threshold.

ghost use Rattle.std.specs.Prelude.{◌≡◌, ◌≢◌, ◌⊎◌, ℕ, ◌+◌, ◌-◌, ◌*◌, ◌%◌, ◌≤◌, ◌<◌, true, false, List, [], ◌∷◌, ◌++◌};
ghost use Rattle.std.specs.Prelude.{length, drop, take, slice_index, slice_index_or, Err, IfOk, IfErr, IfSome, IfNone};
ghost use Rattle.flow_limits.specs.Limits.{most_jobs};
ghost use Rattle.flow_shop.specs.Shop.{Shop};
ghost use Rattle.flow_shop.specs.Rows.{AreRows, IsRow};
ghost use Rattle.flow_shop.specs.Sequences.{has};
ghost use Rattle.flow_shop.specs.Directions.{Proves, first_with, last_with};
ghost use Rattle.flow_nodes.specs.Nodes.{IsJob, IsNode};
ghost use Rattle.flow_nodes.specs.Vectors.{limit_of};
ghost use Rattle.flow_nodes.specs.Marks.{mark, chosen};
ghost use Rattle.flow_nodes.specs.Packs.{AreBytes, HasByteRoom, HasLeft, HasRoom, HasRoomFor, IsPack, left_below};
ghost use Rattle.flow_nodes.specs.declared.pack.Pack.{Pack};
ghost use Rattle.flow_check.specs.TwoEndedFaults.{HasDirectionsFault};
ghost use Rattle.flow_check.specs.internal.Frames.{ArePacks, HavePacks, IsNext, IsReady};
ghost use Rattle.flow_check.specs.internal.Frames.{frame_at, here, above, names_at, pack_groups};
ghost use Rattle.flow_check.specs.internal.ReadDirections.{EndsAt, first_end, read_node};
ghost use Rattle.flow_check.specs.declared.fault.CheckFault.TheVariants.{Memory};

use crate::fault::CheckFault;
use crate::two_ended::DIRECTIONS;
use flow_nodes::{LANES, Marks, Node, Opener, Pack, Vector, fits_narrow_lanes, limit_of};
use flow_shop::{End, Instance, Row, rows};
use std::alloc::{AllocError, Global};
use std::simd::prelude::*;

/// A node below the threshold whose children at an end are read. The jobs left stand in a pack, which is that of the
/// nodes with as many groups of jobs left.
#[derive(Clone, Copy)]
pub(crate) struct NodeFrame {
    /// What is kept of the node.
    pub(crate) node: Node,
    /// The places of the jobs left.
    pub(crate) left: Marks,
    /// The end.
    pub(crate) end: End,
    /// The places of the jobs whose children are below the threshold and still to be read.
    pub(crate) below: Marks,
    /// The job of the child that is read, or 0 before the first.
    pub(crate) job: u16,
}

/// A node whose children are read, and the nodes above it, each of which is a child of the one before.
#[derive(Drop)]
pub(crate) struct Path<V> {
    /// The frames of the nodes, the root's first; and behind them memory for those of the nodes below.
    pub(crate) frames: Vec<NodeFrame>,
    /// How many nodes are above the node.
    pub(crate) depth: usize,
    /// The packs of the nodes, that of one group first.
    pub(crate) packs: Vec<Pack<V>>,
    /// What opens the nodes.
    pub(crate) opener: Opener<V>,
}

/// The end whose sign stands at a place of a text.
fn end_at(text: &[u8], place: usize) -> Option<End>
    requires { place ≤ length text.now }
    ensures value { result ≡ first_end (drop place text.now) }
    ensures within { IfSome result (λ _. place < length text.now) }
{
    if place == text.len() {
        return None;
    }
    match text[place] {
        b'+' => Some(End::Front),
        b'-' => Some(End::Back),
        _ => None,
    }
}

impl NodeFrame {
    /// Becomes the frame of the child that puts the job of a place at the end of a frame's node. Here and below the
    /// constant is the number of machines, or 0.
    #[inline(always)]
    fn become_child<const M: usize>(
        &mut self,
        frame: &NodeFrame,
        instance: &Instance,
        row: &Row,
        place: usize,
    )
        requires constant { (M ≡ 0) ⊎ (M ≡ instance.now.machines) }
        requires place { place < most_jobs }
        requires at { (first : List ℕ) × (last : List ℕ) × (job : ℕ) × IsNode instance.now first last frame.now.node
            × IsJob instance.now job × (has (first ++ last) job ≡ false) × IsRow instance.now job row.now }
        ensures node { (first last : List ℕ) (job : ℕ) → IsNode instance.now first last frame.now.node →
            IsJob instance.now job → has (first ++ last) job ≡ false → IsRow instance.now job row.now →
            IsNode instance.now (first_with frame.now.end first job) (last_with frame.now.end last job) self.new.node }
        ensures left { (first last names : List ℕ) (job : ℕ) → HasLeft instance.now first last names frame.now.left →
            IsJob instance.now job → has (first ++ last) job ≡ false → place < length names →
            slice_index names place ≡ job → mark frame.now.left.words place ≡ 1 →
            HasLeft instance.now (first_with frame.now.end first job) (last_with frame.now.end last job) names
            self.new.left }
    {
        self.node
            .become_child::<M>(&frame.node, instance, frame.end, row);
        self.left = frame.left;
        self.left.clear(place);
    }
}

/// Makes the frame behind that of a node the frame of its child that puts the job of a place.
#[inline(always)]
fn make_child<const M: usize>(
    frames: &mut [NodeFrame],
    depth: usize,
    instance: &Instance,
    row: &Row,
    place: usize,
)
    requires constant { (M ≡ 0) ⊎ (M ≡ instance.now.machines) }
    requires place { place < most_jobs }
    requires room { depth + 1 < length frames.old }
    requires at { (first : List ℕ) × (last : List ℕ) × (job : ℕ)
        × IsNode instance.now first last (frame_at frames.old depth).node
        × IsJob instance.now job × (has (first ++ last) job ≡ false) × IsRow instance.now job row.now }
    ensures above { take (depth + 1) frames.new ≡ take (depth + 1) frames.old }
    ensures node { (first last : List ℕ) (job : ℕ) → IsNode instance.now first last (frame_at frames.old depth).node →
        IsJob instance.now job → has (first ++ last) job ≡ false → IsRow instance.now job row.now →
        IsNode instance.now (first_with (frame_at frames.old depth).end first job)
        (last_with (frame_at frames.old depth).end last job) (frame_at frames.new (depth + 1)).node }
    ensures left { (first last names : List ℕ) (job : ℕ) →
        HasLeft instance.now first last names (frame_at frames.old depth).left →
        IsJob instance.now job → has (first ++ last) job ≡ false → place < length names →
        slice_index names place ≡ job → mark (frame_at frames.old depth).left.words place ≡ 1 →
        HasLeft instance.now (first_with (frame_at frames.old depth).end first job)
        (last_with (frame_at frames.old depth).end last job) names (frame_at frames.new (depth + 1)).left }
{
    let (above, deeper) = frames.split_at_mut(depth + 1);
    deeper[0].become_child::<M>(&above[depth], instance, row, place);
}

/// So many groups of jobs left, or fewer, have a pack of just as many groups.
const FINE_GROUPS: usize = 5;

/// How many jobs so many groups have.
const FINE_JOBS: usize = FINE_GROUPS * LANES;

/// The greatest time of which bytes tell much.
const MOST_TIME: u32 = 255;

/// How many groups the pack has in which so many jobs left stand.
#[inline(always)]
fn pack_groups(left: u16) -> usize
    ensures { result ≡ pack_groups left }
{
    let left = usize::from(left);
    if left <= FINE_JOBS {
        (left + (LANES - 1)) / LANES
    } else {
        (left + (FINE_JOBS - 1)) / FINE_JOBS * FINE_GROUPS
    }
}

/// Whether a pack of fewer groups is enough for so many jobs left than for one more.
#[inline(always)]
fn fits_fewer(left: u16) -> bool
    ensures fewer { result ≡ true → pack_groups left < pack_groups (left + 1) }
    ensures same { result ≡ false → pack_groups (left + 1) ≤ pack_groups left }
{
    let left = usize::from(left);
    if left <= FINE_JOBS {
        left % LANES == 0
    } else {
        left % FINE_JOBS == 0
    }
}

/// Whether all times fit into bytes.
fn fit_bytes(rows: &[Row]) -> bool {
    rows.iter()
        .all(|row| row.times.iter().all(|time| *time <= MOST_TIME))
}

/// A pack with room for so many groups; and for their times in bytes, if they are wanted.
fn new_pack<V: Vector>(
    alloc: Global,
    instance: &Instance,
    count: usize,
    bytes: bool,
) -> Result<Pack<V>, AllocError>
    requires { count ≤ 50 }
    ensures room { IfOk result (λ pack. HasRoom instance.now pack) }
    ensures count { IfOk result (λ pack. length pack.groups.items ≡ count) }
    ensures bytes { IfOk result (λ pack. HasByteRoom instance.now pack) }
{
    if bytes {
        Pack::with_bytes(alloc, instance, count)
    } else {
        Pack::new(alloc, instance, count)
    }
}

/// Fills the pack of so many groups with the jobs at marked places of a pack that has more.
fn refill<V: Vector>(
    packs: &mut [Pack<V>],
    instance: &Instance,
    rows: &[Row],
    from: usize,
    groups: usize,
    left: &Marks,
)
    requires wide { V.WIDTH ≡ 16 }
    requires rows { AreRows instance.now rows.now }
    requires some { 1 ≤ groups }
    requires fewer { groups < from }
    requires more { from ≤ length packs.old }
    requires rooms { (none : Pack V) → HasRoom instance.now (slice_index_or packs.old (groups - 1) none) }
    requires from { (none : Pack V) → HasRoom instance.now (slice_index_or packs.old (from - 1) none) }
    requires byte_rooms { (none : Pack V) → HasByteRoom instance.now (slice_index_or packs.old (groups - 1) none) }
    requires fits { length (chosen left.now.words (names_at packs.old (from - 1)))
        ≤ length (names_at packs.old (groups - 1)) }
    ensures others { (place : ℕ) (none : Pack V) → place ≢ groups - 1 →
        slice_index_or packs.new place none ≡ slice_index_or packs.old place none }
    ensures pack { (none : Pack V) →
        IsPack V.list V.CAP V.WIDTH instance.now (slice_index_or packs.new (groups - 1) none) }
    ensures bytes { (none : Pack V) → AreBytes instance.now (slice_index_or packs.new (groups - 1) none) }
    ensures count { (none : Pack V) → length (slice_index_or packs.new (groups - 1) none).groups.items
        ≡ length (slice_index_or packs.old (groups - 1) none).groups.items }
    ensures jobs { take (length (chosen left.now.words (names_at packs.old (from - 1))))
        (names_at packs.new (groups - 1)) ≡ chosen left.now.words (names_at packs.old (from - 1)) }
{
    let (fewer, more) = packs.split_at_mut(groups);
    fewer[groups - 1].fill(instance, rows, &more[from - 1 - groups], left);
}

impl<V: Vector> Path<V> {
    /// The path of a root, at which all jobs are left, with memory for so many nodes as there are jobs.
    fn new(
        alloc: Global,
        instance: &Instance,
        rows: &[Row],
        node: Node,
        limit: u32,
    ) -> Result<Path<V>, AllocError>
        requires wide { V.WIDTH ≡ 16 }
        requires rows { AreRows instance.now rows.now }
        ensures size { IfOk result (λ path. length path.frames.items ≡ instance.now.jobs) }
        ensures depth { IfOk result (λ path. path.depth ≡ 0) }
        ensures node { IfOk result (λ path. (here path).node ≡ node) }
        ensures limit { IfOk result (λ path. path.opener.limit ≡ limit) }
        ensures room { IfOk result (λ path. HasRoomFor instance.now path.opener) }
        ensures packs { IfOk result (λ path.
            ArePacks V.list V.CAP V.WIDTH instance.now instance.now.jobs path.packs.items) }
        ensures left { IfOk result (λ path. HasLeft instance.now [] []
            (names_at path.packs.items (pack_groups instance.now.jobs - 1)) (here path).left) }
    {
        let jobs = instance.jobs();
        let bytes = fit_bytes(rows);
        let mut packs = Vec::with_capacity(alloc, pack_groups(jobs))?;
        'packs: while packs.len() < pack_groups(jobs) {
            let pack = new_pack(alloc, instance, packs.len() + 1, bytes)?;
            packs.push(pack)?;
        }
        packs[pack_groups(jobs) - 1].fill_all(instance, rows);
        let root = NodeFrame {
            node,
            left: Marks::first(jobs),
            end: End::Front,
            below: Marks::none(),
            job: 0,
        };
        Ok(Path {
            frames: vec![in alloc; root; jobs as usize]?,
            depth: 0,
            packs,
            opener: Opener::new(alloc, instance, limit)?,
        })
    }

    /// Begins with the children of the node at an end, of those below the threshold. So many groups of jobs are left.
    #[inline(always)]
    fn open<const M: usize>(&mut self, end: End, groups: usize)
        requires wide { V.WIDTH ≡ 16 }
        requires constant { (M ≡ 0) ⊎ (M ≡ self.old.opener.machines) }
        requires limit { self.old.opener.limit ≤ V.CAP }
        requires some { 1 ≤ groups }
        requires few { groups ≤ length self.old.packs.items }
        requires within { self.old.depth < length self.old.frames.items }
        requires at { (shop : Shop) × (threshold : ℕ) × (first : List ℕ) × (last : List ℕ)
            × IsReady V.list V.CAP V.WIDTH shop threshold first last groups self.old }
        ensures depth { self.new.depth ≡ self.old.depth }
        ensures size { length self.new.frames.items ≡ length self.old.frames.items }
        ensures above { above self.new ≡ above self.old }
        ensures packs { self.new.packs ≡ self.old.packs }
        ensures limit { self.new.opener.limit ≡ self.old.opener.limit }
        ensures room { (shop : Shop) → HasRoomFor shop self.old.opener → HasRoomFor shop self.new.opener }
        ensures end { (here self.new).end ≡ end }
        ensures node { (here self.new).node ≡ (here self.old).node }
        ensures left { (here self.new).left ≡ (here self.old).left }
        ensures within { (none : Pack V) (place : ℕ) →
            place < length (slice_index_or self.old.packs.items (groups - 1) none).groups.items * 16 →
            mark (here self.new).below.words place ≡ 1 → mark (here self.old).left.words place ≡ 1 }
        ensures below { (shop : Shop) (threshold : ℕ) (first last : List ℕ) →
            IsReady V.list V.CAP V.WIDTH shop threshold first last groups self.old →
            chosen (here self.new).below.words (names_at self.old.packs.items (groups - 1))
            ≡ left_below shop threshold end first last }
    {
        let frame = &mut self.frames[self.depth];
        frame.end = end;
        self.opener.mark_below::<M>(
            &frame.node,
            end,
            &self.packs[groups - 1],
            &frame.left,
            &mut frame.below,
        );
    }

    /// The place of the next job whose child at the node is below the threshold, where so many groups of jobs are left.
    /// `None` where no other such job is left.
    #[inline(always)]
    fn next(&mut self, groups: usize) -> Option<usize>
        requires some { 1 ≤ groups }
        requires few { groups ≤ length self.old.packs.items }
        requires most { groups ≤ 50 }
        requires within { self.old.depth < length self.old.frames.items }
        requires names { length (names_at self.old.packs.items (groups - 1)) ≡ groups * 16 }
        ensures depth { self.new.depth ≡ self.old.depth }
        ensures size { length self.new.frames.items ≡ length self.old.frames.items }
        ensures above { above self.new ≡ above self.old }
        ensures packs { self.new.packs ≡ self.old.packs }
        ensures opener { self.new.opener ≡ self.old.opener }
        ensures end { (here self.new).end ≡ (here self.old).end }
        ensures node { (here self.new).node ≡ (here self.old).node }
        ensures left { (here self.new).left ≡ (here self.old).left }
        ensures fewer { (place : ℕ) → mark (here self.new).below.words place ≡ 1 →
            mark (here self.old).below.words place ≡ 1 }
        ensures within { IfSome result (λ place. place < groups * 16) }
        ensures marked { IfSome result (λ place. mark (here self.old).below.words place ≡ 1) }
        ensures job { IfSome result (λ place. (here self.new).job
            ≡ slice_index (names_at self.old.packs.items (groups - 1)) place) }
        ensures first { IfSome result (λ place.
            chosen (here self.old).below.words (names_at self.old.packs.items (groups - 1))
            ≡ (here self.new).job ∷ chosen (here self.new).below.words (names_at self.old.packs.items (groups - 1))) }
        ensures none { IfNone result
            (chosen (here self.old).below.words (names_at self.old.packs.items (groups - 1)) ≡ []) }
    {
        let frame = &mut self.frames[self.depth];
        let place = frame.below.pop(groups)?;
        frame.job = self.packs[groups - 1].names[place];
        Some(place)
    }

    /// Goes to the child of the node that the job of a place makes, at the end of the node.
    #[inline(always)]
    fn put<const M: usize>(&mut self, instance: &Instance, rows: &[Row], place: usize)
        requires constant { (M ≡ 0) ⊎ (M ≡ instance.now.machines) }
        requires place { place < most_jobs }
        requires rows { AreRows instance.now rows.now }
        requires room { self.old.depth + 1 < length self.old.frames.items }
        requires at { (first : List ℕ) × (last : List ℕ) × IsNode instance.now first last (here self.old).node
            × IsJob instance.now (here self.old).job × (has (first ++ last) (here self.old).job ≡ false) }
        ensures depth { self.new.depth ≡ self.old.depth + 1 }
        ensures size { length self.new.frames.items ≡ length self.old.frames.items }
        ensures above { above self.new ≡ above self.old ++ here self.old ∷ [] }
        ensures packs { self.new.packs ≡ self.old.packs }
        ensures opener { self.new.opener ≡ self.old.opener }
        ensures node { (first last : List ℕ) → IsNode instance.now first last (here self.old).node →
            has (first ++ last) (here self.old).job ≡ false →
            IsNode instance.now (first_with (here self.old).end first (here self.old).job)
            (last_with (here self.old).end last (here self.old).job) (here self.new).node }
        ensures left { (first last names : List ℕ) → HasLeft instance.now first last names (here self.old).left →
            has (first ++ last) (here self.old).job ≡ false → place < length names →
            slice_index names place ≡ (here self.old).job → mark (here self.old).left.words place ≡ 1 →
            HasLeft instance.now (first_with (here self.old).end first (here self.old).job)
            (last_with (here self.old).end last (here self.old).job) names (here self.new).left }
    {
        let depth = self.depth;
        let job = self.frames[depth].job;
        make_child::<M>(
            self.frames.as_mut_slice(),
            depth,
            instance,
            &rows[job as usize - 1],
            place,
        );
        self.depth = depth + 1;
    }

    /// Packs the jobs left at the node anew, so many of them, for which a pack of fewer groups is enough.
    fn pack(&mut self, instance: &Instance, rows: &[Row], left: u16)
        requires wide { V.WIDTH ≡ 16 }
        requires rows { AreRows instance.now rows.now }
        requires fewer { pack_groups left < pack_groups (left + 1) }
        requires some { 1 ≤ left }
        requires few { left < instance.now.jobs }
        requires most { left ≤ most_jobs }
        requires within { self.old.depth < length self.old.frames.items }
        requires packs { HavePacks instance.now self.old.packs.items }
        requires count { length (chosen (here self.old).left.words (names_at self.old.packs.items
            (pack_groups (left + 1) - 1))) ≡ left }
        ensures depth { self.new.depth ≡ self.old.depth }
        ensures size { length self.new.frames.items ≡ length self.old.frames.items }
        ensures above { above self.new ≡ above self.old }
        ensures opener { self.new.opener ≡ self.old.opener }
        ensures node { (here self.new).node ≡ (here self.old).node }
        ensures packs { HavePacks instance.now self.new.packs.items }
        ensures others { (place : ℕ) (none : Pack V) → place ≢ pack_groups left - 1 →
            slice_index_or self.new.packs.items place none ≡ slice_index_or self.old.packs.items place none }
        ensures pack { (none : Pack V) → IsPack V.list V.CAP V.WIDTH instance.now
            (slice_index_or self.new.packs.items (pack_groups left - 1) none) }
        ensures bytes { (none : Pack V) → AreBytes instance.now
            (slice_index_or self.new.packs.items (pack_groups left - 1) none) }
        ensures left { chosen (here self.new).left.words (names_at self.new.packs.items (pack_groups left - 1))
            ≡ chosen (here self.old).left.words (names_at self.old.packs.items (pack_groups (left + 1) - 1)) }
    {
        let frame = &mut self.frames[self.depth];
        refill(
            self.packs.as_mut_slice(),
            instance,
            rows,
            pack_groups(left + 1),
            pack_groups(left),
            &frame.left,
        );
        frame.left = Marks::first(left);
    }

    /// Goes to the child of the node that the job of a place makes, at the end of the node. So many jobs are left
    /// there; where a pack of fewer groups is enough for them, they are packed anew.
    #[inline(always)]
    fn go<const M: usize>(&mut self, instance: &Instance, rows: &[Row], place: usize, left: u16)
        requires wide { V.WIDTH ≡ 16 }
        requires constant { (M ≡ 0) ⊎ (M ≡ instance.now.machines) }
        requires place { place < most_jobs }
        requires rows { AreRows instance.now rows.now }
        requires room { self.old.depth + 1 < length self.old.frames.items }
        requires some { 1 ≤ left }
        requires few { left < instance.now.jobs }
        requires packs { ArePacks V.list V.CAP V.WIDTH instance.now (left + 1) self.old.packs.items }
        requires at { (first : List ℕ) × (last : List ℕ) × IsNext instance.now first last left place self.old }
        ensures depth { self.new.depth ≡ self.old.depth + 1 }
        ensures size { length self.new.frames.items ≡ length self.old.frames.items }
        ensures above { above self.new ≡ above self.old ++ here self.old ∷ [] }
        ensures opener { self.new.opener ≡ self.old.opener }
        ensures packs { ArePacks V.list V.CAP V.WIDTH instance.now left self.new.packs.items }
        ensures names { (more : ℕ) → left < more → more ≤ instance.now.jobs →
            names_at self.old.packs.items (pack_groups more - 1)
            ≡ names_at self.new.packs.items (pack_groups more - 1) }
        ensures node { (first last : List ℕ) → IsNext instance.now first last left place self.old →
            IsNode instance.now (first_with (here self.old).end first (here self.old).job)
            (last_with (here self.old).end last (here self.old).job) (here self.new).node }
        ensures left { (first last : List ℕ) → IsNext instance.now first last left place self.old →
            HasLeft instance.now (first_with (here self.old).end first (here self.old).job)
            (last_with (here self.old).end last (here self.old).job)
            (names_at self.new.packs.items (pack_groups left - 1)) (here self.new).left }
    {
        self.put::<M>(instance, rows, place);
        if fits_fewer(left) {
            self.pack(instance, rows, left);
        }
    }
}

/// Where the directions end, at the beginning of a text, that prove a threshold; or the first fault.
fn walk<V: Vector, const M: usize>(
    alloc: Global,
    instance: &Instance,
    threshold: u64,
    text: &[u8],
) -> Result<usize, CheckFault>
    requires wide { V.WIDTH ≡ 16 }
    requires constant { (M ≡ 0) ⊎ (M ≡ instance.now.machines) }
    requires threshold { limit_of threshold ≤ V.CAP }
    ensures within { IfOk result (λ place. place ≤ length text.now) }
    ensures read { EndsAt text.now (read_node instance.now threshold instance.now.jobs [] [] text.now) result
        ⊎ (result ≡ Err Memory) }
{
    let root = Node::root(instance);
    if u64::from(root.bound(instance)) >= threshold {
        return Ok(0);
    }
    let rows = rows(alloc, instance)?;
    let mut path = Path::<V>::new(alloc, instance, rows.as_slice(), root, limit_of(threshold))?;
    let Some(end) = end_at(text, 0) else {
        return Err(CheckFault::Tree(DIRECTIONS));
    };
    let mut left = instance.jobs();
    path.open::<M>(end, pack_groups(left));
    let mut place = 1;
    'walk: loop {
        match path.next(pack_groups(left)) {
            None => {
                if path.depth == 0 {
                    return Ok(place);
                }
                path.depth -= 1;
                left += 1;
            }
            Some(at) => {
                if left == 1 {
                    return Err(CheckFault::Low(DIRECTIONS));
                }
                let Some(end) = end_at(text, place) else {
                    return Err(CheckFault::Tree(DIRECTIONS));
                };
                left -= 1;
                path.go::<M>(instance, rows.as_slice(), at, left);
                path.open::<M>(end, pack_groups(left));
                place += 1;
            }
        }
    }
}

/// The same with narrow lanes, in which the threshold has to fit.
fn walk_narrow(
    alloc: Global,
    instance: &Instance,
    threshold: u64,
    text: &[u8],
) -> Result<usize, CheckFault>
    requires { limit_of threshold ≤ 65535 }
    ensures within { IfOk result (λ place. place ≤ length text.now) }
    ensures read { EndsAt text.now (read_node instance.now threshold instance.now.jobs [] [] text.now) result
        ⊎ (result ≡ Err Memory) }
{
    match instance.machines() {
        5 => walk::<u16x16, 5>(alloc, instance, threshold, text),
        10 => walk::<u16x16, 10>(alloc, instance, threshold, text),
        20 => walk::<u16x16, 20>(alloc, instance, threshold, text),
        _ => walk::<u16x16, 0>(alloc, instance, threshold, text),
    }
}

/// Where the directions end, at the beginning of a text, that prove a threshold; or the fault of those that should
/// stand there; or `Memory`.
pub(crate) fn directions_end(
    alloc: Global,
    instance: &Instance,
    threshold: u64,
    text: &[u8],
) -> Result<usize, CheckFault>
    ensures within { IfOk result (λ place. place ≤ length text.now) }
    ensures proved { IfOk result (λ place. Proves instance.now threshold (take place text.now)) }
    ensures fault { IfErr result (λ fault.
        HasDirectionsFault instance.now threshold instance.now.jobs [] [] text.now fault ⊎ (fault ≡ Memory)) }
{
    if fits_narrow_lanes(threshold) {
        walk_narrow(alloc, instance, threshold, text)
    } else {
        walk::<u32x16, 0>(alloc, instance, threshold, text)
    }
}
