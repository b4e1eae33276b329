//! The jobs of a subtree in eight columns, and its nodes.

use flow_limits::MAX_MACHINES;

/// How many columns there are: as many as a node walked in columns may have jobs left.
pub const COLUMNS: usize = 8;

/// The same number, as a number of jobs.
pub const FEW: u16 = COLUMNS as u16;

/// What stands in a column whose job is not left, above each time that a job needs after a machine.
pub const GONE: u32 = 536_870_912;

/// What the jobs of a group need on a machine and after it. A column without a job has zeros.
#[derive(Clone, Copy)]
pub struct MachineRow {
    /// The time of each column's job on the machine.
    pub time: [u32; COLUMNS],
    /// The time that each column's job needs after the machine.
    pub tail: [u32; COLUMNS],
}

/// The jobs of a subtree, each in a column, and what they need, machine by machine. It does not change in the subtree.
#[derive(Drop)]
pub struct Group {
    /// A row for each machine.
    pub rows: [MachineRow; MAX_MACHINES],
    /// The job of each column, in increasing order.
    pub jobs: [u16; COLUMNS],
}

impl Group {
    /// A group before its jobs are known.
    fn new() -> Self {
        Group {
            rows: [MachineRow {
                time: [0; COLUMNS],
                tail: [0; COLUMNS],
            }; MAX_MACHINES],
            jobs: [0; COLUMNS],
        }
    }
}

/// A node with at most eight jobs left.
#[derive(Clone, Copy)]
pub struct ColumnFrame {
    /// For each machine, when each child leaves it.
    pub free: [[u32; COLUMNS]; MAX_MACHINES],
    /// When each machine is free.
    pub front: [u32; MAX_MACHINES],
    /// For each machine the sum of the times of the jobs left.
    pub sum: [u32; MAX_MACHINES],
    /// For each column 0 where its job is left, else `GONE`.
    pub gone: [u32; COLUMNS],
    /// For each child, how many machines there are before the first that prunes it.
    pub unpruned: [u32; COLUMNS],
    /// The makespan against which the children were tested.
    pub value: u64,
    /// The columns whose jobs are left, in increasing order, from the first place on.
    pub columns: [u8; COLUMNS],
    /// The place of the column whose child is walked next.
    pub next: usize,
}

impl ColumnFrame {
    /// A frame before its node is known.
    fn new() -> Self {
        ColumnFrame {
            free: [[0; COLUMNS]; MAX_MACHINES],
            front: [0; MAX_MACHINES],
            sum: [0; MAX_MACHINES],
            gone: [0; COLUMNS],
            unpruned: [0; COLUMNS],
            value: 0,
            columns: [0; COLUMNS],
            next: 0,
        }
    }
}

/// The memory of a walk of a subtree with at most eight jobs. What it holds before the walk does not matter.
#[derive(Drop)]
pub struct ColumnMemory {
    /// The jobs of the subtree.
    pub group: Group,
    /// The nodes from the root of the subtree to that where the walk stands.
    pub frames: [ColumnFrame; COLUMNS],
}

impl ColumnMemory {
    /// The memory before the first walk.
    pub fn new() -> Self {
        ColumnMemory {
            group: Group::new(),
            frames: [ColumnFrame::new(); COLUMNS],
        }
    }
}
