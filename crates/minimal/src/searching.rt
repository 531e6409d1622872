// Breadth first search over classes of states, keys in order: each class is found by the first word in order that reaches it.
ghost use Rattle.std.specs.Prelude.{◌≡◌, ◌<◌, ◌≤◌, [], ◌∷◌, position, ◌==◌};
ghost use Rattle.machine.specs.Items.{items};
ghost use Rattle.machine.specs.Machine.{after};
ghost use Rattle.machine.specs.Run.{model, keys_of};
ghost use Rattle.minimal.specs.Levels.{class_in};
ghost use Rattle.minimal.specs.Quotient.{Congruence, class_after, place};
ghost use Rattle.minimal.specs.Search.{found_at, found_count, class_found, SearchTree};

use crate::classes::Classes;
use crate::tree::{Found, Tree};
use machine::{FixedList, Machine};

impl Tree {
    // The class from which the search begins.
    fn root(class: usize) -> Tree
        ensures { items result.found ≡ record { class = class; parent = 0; key = 0 } ∷ [] }
    {
        let mut found = FixedList::new();
        found.push(Found {
            class,
            parent: 0,
            key: 0,
        });
        Tree { found }
    }

    // What was found at a place.
    pub fn at(&self, place: usize) -> Found
        requires { place < found_count self.now }
        ensures { result ≡ found_at self.now place }
    {
        self.found[place]
    }

    // Where a class stands among those found.
    pub fn find(&self, class: usize) -> Option<usize>
        ensures { result ≡ position (λ found. found.class == class) (items self.now.found) }
    {
        self.found.iter().position(|found| found.class == class)
    }

    // Its number: that behind the last, where the class is not among those found.
    pub fn place(&self, class: usize) -> usize
        ensures { result ≡ place (class_found self.now) (found_count self.now) class }
    {
        self.find(class).unwrap_or(self.found.len())
    }
}

impl Classes<'_> {
    // The classes that can be reached, in the order in which words in order first reach them.
    pub(crate) fn search(self) -> Tree
        requires { Congruence (keys_of self.machine) (model self.machine) (class_in self.of) }
        ensures found { SearchTree (keys_of self.entry.machine) (class_after (class_in self.entry.of) (model self.entry.machine)) result }
        ensures few { found_count result ≤ 16 }
    {
        let mut tree = Tree::root(self.of[0]);
        let mut parent = 0;
        // By place, since the tree grows while it is gone through.
        while parent < tree.found.len() {
            for key in 0..self.machine.keys() {
                let class = self.behind(tree.at(parent).class, key);
                if tree.find(class).is_none() {
                    tree.found.push(Found { class, parent, key });
                }
            }
            parent += 1;
        }
        tree
    }
}

// The states that can be reached, each with the first word in order that reaches it.
pub fn reach(m: Machine) -> Tree
    ensures { SearchTree (keys_of m.entry) (after (model m.entry) 0) result }
{
    Classes::apart(m).search()
}
