//! What is kept of a node while its children are walked.

ghost use Rattle.std.specs.Prelude.{◌≡◌};
ghost use Rattle.flow_shop.specs.JobSet.{members, IsSetOf};
ghost use Rattle.flow_search.specs.internal.Tails.{AreSecondTails};
ghost use Rattle.flow_search.specs.internal.Settings.{shop_of};

use crate::setting::Setting;
use crate::tails_and_lags::least_tails;
use flow_bound::Loads;
use flow_limits::MAX_MACHINES;
use flow_shop::{Front, JobSet};

/// A node with more than eight jobs left, whose children are walked.
#[derive(Drop)]
pub struct Frame {
    /// When each machine is free after the node's jobs.
    pub front: Front,
    /// For each machine the sum of the times of the jobs left, and their least tail after it.
    pub loads: Loads,
    /// For each machine the second least tail of the jobs left: the least tail without a job that has the least.
    pub second: [u32; MAX_MACHINES],
    /// No child whose last job is below this one is still to be walked.
    pub next: u16,
}

impl Frame {
    /// A node before its first child, with its front and the loads of the jobs left.
    pub fn new(setting: &Setting, front: Front, loads: Loads, set: &JobSet) -> Frame
        requires jobs { IsSetOf (shop_of setting.now) set.now }
        ensures front { result.front ≡ front }
        ensures loads { result.loads ≡ loads }
        ensures second { AreSecondTails (shop_of setting.now) (members set.now) result.second }
        ensures next { result.next ≡ 1 }
    {
        let tails = least_tails(setting, set);
        let second = tails.second;
        Frame {
            front,
            loads,
            second,
            next: 1,
        }
    }
}
