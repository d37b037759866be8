// The check of one lent tree: rules 1 to 7 of the table, in that order. Added by the port.
#![tactic(auto)]

ghost use Rattle.std.specs.Prelude.{◌≡◌, ◌&&◌, ◌≤◌, leb};
ghost use Rattle.written.specs.LentTree.{stem_count};
ghost use Rattle.written.specs.Check.{sizes_ok, lengths_ok, coords_ok, refusal as refusal_of, number_of};
ghost use Rattle.cursor.specs.Lent.{lent_tree};
ghost use Rattle.tree.specs.Lent.{Sized};
ghost use Rattle.tree.specs.Told.{rule_of, told};

use crate::down::down;
use crate::order::Order;
use crate::pivots::Pivots;
use crate::starts::starts_ok;
use cursor::Tree;

mod down;
mod order;
mod pivots;
mod starts;

// The rules, in the order in which they are checked.
#[derive(Clone, Copy, PartialEq, Eq)]
pub enum Rule {
    Axes,
    Sizes,
    Lengths,
    Starts,
    Coords,
    Pivots,
    Order,
}

impl Rule {
    // Its number in the table.
    pub fn number(self) -> u32
        ensures { result ≡ number_of (rule_of self) }
    {
        match self {
            Rule::Axes => 1,
            Rule::Sizes => 2,
            Rule::Lengths => 3,
            Rule::Starts => 4,
            Rule::Coords => 5,
            Rule::Pivots => 6,
            Rule::Order => 7,
        }
    }
}

// 1: K is 1 to 4.
fn axes_ok(k: usize) -> bool
    ensures { result ≡ (leb 1 k && leb k 4) }
{
    (1..=4).contains(&k)
}

// 2: some starts, at most 4,097 starts and 65,536 items. Rules 2, 4 and 5 do not ask for K, so their clauses have 0 there.
fn sizes_ok(tree: &Tree) -> bool
    ensures { result ≡ sizes_ok 0 (lent_tree tree.now) }
{
    (1..=4097).contains(&tree.starts.len()) && tree.items.len() <= 65536
}

// The stems over m leaves: none below two leaves, else the next power of two.
pub fn stem_count(m: u32) -> usize
    requires { m ≤ 4096 }
    ensures { result ≡ stem_count m }
{
    if m < 2 { 0 } else { 1 << cursor::levels(m) }
}

// 3: stems and coordinates of the right length.
fn lengths_ok(k: usize, tree: &Tree) -> bool
    requires { Sized k (lent_tree tree.now) }
    ensures { result ≡ lengths_ok k (lent_tree tree.now) }
{
    tree.stems.len() == stem_count((tree.starts.len() - 1) as u32)
        && tree.coords.len() == k * tree.items.len()
}

// 5: each coordinate is finite.
fn coords_ok(tree: &Tree) -> bool
    ensures { result ≡ coords_ok 0 (lent_tree tree.now) }
{
    tree.coords.iter().all(|x| metric::finite(*x))
}

// The first rule that the tree breaks, if it breaks one.
pub fn check(k: usize, tree: &Tree) -> Result<(), Rule>
    ensures { told result ≡ refusal_of k (lent_tree tree.now) }
{
    // Each rule has its own error, so these tests are no one expression.
    if !axes_ok(k) {
        return Err(Rule::Axes);
    }
    if !sizes_ok(tree) {
        return Err(Rule::Sizes);
    }
    if !lengths_ok(k, tree) {
        return Err(Rule::Lengths);
    }
    if !starts_ok(tree) {
        return Err(Rule::Starts);
    }
    if !coords_ok(tree) {
        return Err(Rule::Coords);
    }
    let root = tree.root();
    if !down::<Pivots>(k, tree, root) {
        return Err(Rule::Pivots);
    }
    if !down::<Order>(k, tree, root) {
        return Err(Rule::Order);
    }
    Ok(())
}
