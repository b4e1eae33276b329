//! Nodes that are opened at both ends, and the memory for them.

ghost use Rattle.std.specs.Prelude.{◌≡◌, ◌≤◌, IfOk, length};
ghost use Rattle.flow_nodes.specs.Open.{HasRoomToOpen, HasStartRoom, children_at};

use crate::marks::Marks;
use crate::node::Node;
use crate::vector::Vector;
use flow_limits::MAX_MACHINES;
use flow_shop::{End, Instance};
use std::alloc::{AllocError, Global};

/// The children of a node at an end.
#[derive(Drop)]
pub struct Children<V> {
    /// The places of those below the threshold.
    pub below: Marks,
    /// How many they are.
    pub count: u32,
    /// When their jobs start: for each group and machine a vector.
    pub starts: Vec<Vec<V>>,
    /// The bounds of the children that put the jobs left, for each group a vector, where they are known.
    pub bounds: Vec<Option<V>>,
}

/// A node that is opened at both ends.
#[derive(Drop)]
pub struct OpenNode<V> {
    /// Its front, its back, and the time of the jobs left.
    pub node: Node,
    /// The places of the jobs left, in a pack.
    pub left: Marks,
    /// Its children at the front.
    pub front: Children<V>,
    /// Its children at the back.
    pub back: Children<V>,
}

/// A job that is put at an end: the job at a place of a pack.
#[derive(Clone, Copy)]
pub struct Put {
    /// The end.
    pub end: End,
    /// The place.
    pub place: usize,
}

impl<V: Vector> Children<V> {
    /// Memory for the children of a node whose jobs left stand in so many groups or fewer.
    fn new(alloc: Global, instance: &Instance, groups: usize) -> Result<Children<V>, AllocError>
        ensures starts { IfOk result (λ children. HasStartRoom instance.now groups children.starts.items) }
        ensures bounds { IfOk result (λ children. groups ≤ length children.bounds.items) }
    {
        let machines = usize::from(instance.machines());
        let mut starts = Vec::with_capacity(alloc, groups)?;
        'groups: while starts.len() < groups {
            starts.push(vec![in alloc; V::all(0); machines]?)?;
        }
        Ok(Children {
            below: Marks::none(),
            count: 0,
            starts,
            bounds: vec![in alloc; None; groups]?,
        })
    }
}

impl<V: Vector> OpenNode<V> {
    /// Memory for a node whose jobs left stand in so many groups or fewer.
    pub fn new(alloc: Global, instance: &Instance, groups: usize) -> Result<OpenNode<V>, AllocError>
        ensures { IfOk result (λ node. HasRoomToOpen instance.now groups node) }
    {
        let front = Children::new(alloc, instance, groups)?;
        let back = Children::new(alloc, instance, groups)?;
        Ok(OpenNode {
            node: Node {
                front: [0; MAX_MACHINES],
                back: [0; MAX_MACHINES],
                work: [0; MAX_MACHINES],
            },
            left: Marks::none(),
            front,
            back,
        })
    }

    /// Its children at an end.
    #[inline(always)]
    pub fn at(&self, end: End) -> &Children<V>
        ensures { result.now ≡ children_at end self.now }
    {
        match end {
            End::Front => &self.front,
            End::Back => &self.back,
        }
    }
}
