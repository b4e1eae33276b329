//! The node at which a search begins.

ghost use Rattle.std.specs.Prelude.{◌≡◌, ◌↔◌, ℕ, ◌<◌, ◌≤◌, Err, List, [], ◌++◌, length, take, IfOk, OnOk};
ghost use Rattle.flow_shop.specs.Ends.{end_bound};
ghost use Rattle.flow_shop.specs.Rows.{AreRows};
ghost use Rattle.flow_shop.specs.Sequences.{jobs_left, AreJobs};
ghost use Rattle.flow_nodes.specs.Groups.{group_count};
ghost use Rattle.flow_nodes.specs.Packs.{HasRoom, IsPack};
ghost use Rattle.flow_directions.specs.internal.Levels.{IsAt};
ghost use Rattle.flow_directions.specs.internal.Start.{IsStart};
ghost use Rattle.flow_directions.specs.internal.Tree.{IsTree};
ghost use Rattle.flow_directions.specs.declared.found.ProveFault.TheVariants.{Jobs};

use crate::found::ProveFault;
use crate::lists::Lists;
use crate::tree::Tree;
use flow_nodes::{Marks, Node, OpenNode, Pack, Vector, group_count};
use flow_shop::{End, Instance, JobSet, Row, insert_all};
use std::alloc::{AllocError, Global};

/// The node at which a search begins.
#[derive(Drop)]
pub(crate) struct StartNode {
    /// Its front, its back, and the time of the jobs left.
    pub(crate) node: Node,
    /// Its lists.
    pub(crate) lists: Lists,
    /// The jobs in its lists.
    pub(crate) taken: JobSet,
    /// How many jobs are left.
    pub(crate) left: u16,
}

impl StartNode {
    /// The node of two lists; or `Jobs` where the jobs are not those of the instance, or one stands in them twice.
    pub(crate) fn new(
        alloc: Global,
        instance: &Instance,
        first: &[u16],
        last: &[u16],
    ) -> Result<StartNode, ProveFault>
        ensures start { IfOk result (λ start. IsStart instance.now first.now last.now start) }
        ensures refused { (result ≡ Err Jobs) ↔ (AreJobs instance.now.jobs (first.now ++ last.now) → ⊥) }
    {
        let mut taken = JobSet::none();
        if insert_all(instance, &mut taken, 0, first).is_some()
            || insert_all(instance, &mut taken, first.len(), last).is_some()
        {
            return Err(ProveFault::Jobs);
        }
        let mut node = Node::root(instance);
        let mut lists = Lists::new(alloc, instance.jobs())?;
        for job in first {
            node.put(instance, End::Front, *job);
            lists.put(End::Front, *job);
        }
        for place in (0..last.len()).rev() {
            node.put(instance, End::Back, last[place]);
            lists.put(End::Back, last[place]);
        }
        let left = instance.jobs() - (first.len() + last.len()) as u16;
        Ok(StartNode {
            node,
            lists,
            taken,
            left,
        })
    }

    /// Fills a pack with the jobs left, in order.
    fn pack<V: Vector>(&self, instance: &Instance, rows: &[Row], pack: &mut Pack<V>)
        requires wide { V.WIDTH ≡ 16 }
        requires rows { AreRows instance.now rows.now }
        requires room { HasRoom instance.now pack.old }
        requires fits { self.now.left ≤ length pack.old.names.items }
        requires start { (first : List ℕ) × (last : List ℕ) × IsStart instance.now first last self.now }
        ensures pack { IsPack V.list V.CAP V.WIDTH instance.now pack.new }
        ensures count { length pack.new.groups.items ≡ length pack.old.groups.items }
        ensures jobs { (first last : List ℕ) → IsStart instance.now first last self.now →
            take self.now.left pack.new.names.items ≡ jobs_left instance.now.jobs (first ++ last) }
    {
        let mut count = 0;
        for job in 1..instance.jobs() + 1 {
            if !self.taken.contains(job) {
                pack.names[count] = job;
                count += 1;
            }
        }
        pack.load(instance, rows);
    }

    /// Packs the jobs left in the last pack of a tree that has no node yet, and puts the node, opened, into its list.
    pub(crate) fn open<V: Vector>(
        &self,
        instance: &Instance,
        tree: &mut Tree<V>,
    ) -> Result<(), AllocError>
        requires wide { V.WIDTH ≡ 16 }
        requires some { 1 ≤ self.now.left }
        requires packs { length tree.old.packs.items ≡ group_count self.now.left }
        requires nodes { tree.old.nodes.items ≡ [] }
        requires at { (threshold : ℕ) × (first : List ℕ) × (last : List ℕ) × IsStart instance.now first last self.now
            × (end_bound instance.now first last < threshold) × IsTree V.CAP instance.now threshold tree.old }
        ensures count { OnOk result (length tree.new.packs.items ≡ length tree.old.packs.items) }
        ensures size { OnOk result (1 ≤ length tree.new.nodes.items) }
        ensures tree { (threshold : ℕ) (first last : List ℕ) → IsStart instance.now first last self.now →
            end_bound instance.now first last < threshold → IsTree V.CAP instance.now threshold tree.old →
            OnOk result (IsTree V.CAP instance.now threshold tree.new) }
        ensures at { (threshold : ℕ) (first last : List ℕ) → IsStart instance.now first last self.now →
            end_bound instance.now first last < threshold → IsTree V.CAP instance.now threshold tree.old →
            OnOk result (IsAt V.list V.CAP V.WIDTH instance.now threshold first last self.now.left self.now.lists
            tree.new) }
    {
        let groups = group_count(self.left);
        self.pack(
            instance,
            tree.opener.rows.as_slice(),
            &mut tree.packs[groups - 1],
        );
        let mut root = OpenNode::new(tree.alloc, instance, groups)?;
        root.node = self.node;
        root.left = Marks::first(self.left);
        tree.opener.open(&tree.packs[groups - 1], &mut root);
        tree.nodes.push(root)?;
        Ok(())
    }
}
