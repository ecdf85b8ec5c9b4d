// The fields of a tree word: the key (operation and operand, `machine::Key`), the extent.
ghost use Rattle.std.specs.Prelude.{◌≡◌, ◌<◌};
ghost use Rattle.tree.specs.Forest.{word as Forest·word, key_limit, extent_limit};
ghost use Rattle.tree.specs.Laid.{key_of, extent_of};

use crate::Tree;

// The key of a tree word: operation and operand, its upper 36 bits.
pub fn key(w: u64) -> u64
    ensures { result ≡ key_of w }
{
    w / Tree::EXTENTS
}

// The extent of a tree word: its node and all below it, its lower 28 bits.
pub fn extent(w: u64) -> usize
    ensures { result ≡ extent_of w }
{
    (w % Tree::EXTENTS) as usize
}

// The tree word of a key and an extent that fit into its fields.
pub fn word(key: u64, extent: usize) -> u64
    requires { (key < key_limit) × (extent < extent_limit) }
    ensures { result ≡ Forest·word key extent }
{
    key * Tree::EXTENTS + extent as u64
}
