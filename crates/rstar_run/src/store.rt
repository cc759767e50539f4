//! The store: the rectangles of the program.

ghost use Rattle.std.specs.Prelude.{◌≡◌, [], length};
ghost use Rattle.rstar.specs.Steps.{IsFit};
ghost use Rattle.rstar_run.specs.Items.{questions, StoreStep};

use super::items::Item;
use rstar::replay::{Command, Reply, step_by_order};
use rstar::{AABB, DefaultParams, Envelope, RTree, RTreeObject, RTreeParams};
use std::alloc::Global;
use std::marker::Model;

/// Rectangles with IDs, in a tree.
#[derive(Drop)]
pub struct Store {
    tree: RTree<Item>,
}

// Contracts see the list of the items. The tree is whole.
impl Model for Store {
    ghost use Rattle.std.specs.Prelude.{List};
    ghost use Rattle.rstar.specs.Trees.{elements_in, IsWholeTree};
    ghost use Rattle.rstar_run.specs.Items.{Item};

    ghost Value = { List Item };

    ghost view = { λ s. elements_in s.tree };

    ghost invariant = { λ s. IsWholeTree ⟦<AABB<[i64; 2]> as Envelope>⟧.boxes ⟦<Item as RTreeObject>⟧.object
        ⟦<DefaultParams as RTreeParams>⟧.MAX_SIZE s.tree };
}

impl Store {
    /// No rectangle. It takes no memory yet.
    pub fn new(alloc: Global) -> Store
        ensures { result ≡ [] }
    {
        Store {
            tree: RTree::new(alloc),
        }
    }

    /// Runs one command. Neighbours come by distance, and at equal distance by the items' own order.
    pub fn step(&mut self, command: Command<Item>) -> Reply<Item>
        requires { IsFit questions 2 command }
        ensures { StoreStep self.old command result self.new }
    {
        step_by_order(&mut self.tree, command)
    }

    /// The number of rectangles.
    pub fn size(&self) -> usize
        ensures { result ≡ length self.now }
    {
        self.tree.size()
    }
}
