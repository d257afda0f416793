// A table of names.
ghost use Rattle.std.specs.Prelude.{◌≡◌, ◌<◌, ◌≤◌, ◌^◌, ◌++◌, ◌∷◌, [], List as Items, ℕ, length, None, Some, IfOk, IfSome, OnOk, OnErr};
ghost use Rattle.abuf_text.specs.Names.{index_of, IsEachOnce};

use abuf_num::{List, NoMemory};
use std::alloc::Global;
use std::collections::BTreeMap;
use std::marker::Model;

/// How many hints a table has.
const HINTS: usize = 64;

/// Names, each once, in the order in which they were put in.
///
/// A name is looked up in a tree, so no choice of names makes a look-up slow. Before that, a look at one of the names, by a hint, finds
/// most names where they are few.
#[derive(Drop)]
pub struct Names {
    list: Vec<List<u8>>,
    indices: BTreeMap<Vec<u8>, u32>,
    /// For each slot the index of the last name put in that has it.
    hints: [u32; HINTS],
}

impl Model for Names {
    ghost use Rattle.std.specs.Prelude.{◌≤◌, ◌^◌, List as Items, ℕ, length};
    ghost use Rattle.std.specs.BTreeMap.{get_by};
    ghost use Rattle.std.specs.Cmp.Lexicographic.{slice_cmp};
    ghost use Rattle.std.specs.Ordering.{nat_cmp};
    ghost use Rattle.abuf_text.specs.Names.{FindsIndices, IsEachOnce};

    ghost Value = { Items (Items ℕ) };

    ghost view = { λ n. n.list.items };

    ghost invariant = { λ n. FindsIndices (λ name. get_by (λ k. slice_cmp nat_cmp name k.items) n.indices) n.list.items
        × IsEachOnce n.list.items × (length n.list.items ≤ 2 ^ 32) };
}

/// The slot of a name among the hints. Names that differ may share one.
#[inline(always)]
fn slot_of(name: &[u8]) -> usize
    ensures { result < 64 }
{
    let ends = match (name.first(), name.last()) {
        (Some(first), Some(last)) => 7 * usize::from(*first) + usize::from(*last),
        _ => 0,
    };
    (ends + name.len() % HINTS) % HINTS
}

impl Names {
    /// No names.
    pub fn new(alloc: Global) -> Names
        ensures { result ≡ [] }
    {
        Names {
            list: Vec::new(alloc),
            indices: BTreeMap::new(alloc),
            hints: [0; HINTS],
        }
    }

    /// The names.
    pub fn as_slice(&self) -> &[List<u8>]
        ensures { result.now ≡ self.now }
    {
        self.list.as_slice()
    }

    /// The index that the hint for this name gives, if it is the name's.
    #[inline(always)]
    fn hinted(&self, name: &[u8]) -> Option<u32>
        ensures { IfSome result (λ index. index_of name.now self.now ≡ Some index) }
    {
        let index = self.hints[slot_of(name)];
        let at = index as usize;
        if at < self.list.len() && self.list[at].as_slice() == name {
            Some(index)
        } else {
            None
        }
    }

    /// The index of a name, if it is there.
    pub fn find(&self, name: &[u8]) -> Option<u32>
        ensures { result ≡ index_of name.now self.now }
    {
        match self.hinted(name) {
            Some(index) => Some(index),
            None => self.indices.get(name).copied(),
        }
    }

    /// Puts a new name last.
    pub fn push(&mut self, alloc: Global, name: &[u8]) -> Result<(), NoMemory>
        requires new { index_of name.now self.old ≡ None }
        requires few { length self.old < 2 ^ 32 }
        ensures ok { OnOk result (self.new ≡ self.old ++ name.now ∷ []) }
        ensures index { OnOk result (index_of name.now self.new ≡ Some (length self.old)) }
        ensures err { OnErr result (self.new ≡ self.old) }
    {
        let index = self.list.len() as u32;
        let item = List::from_vec(name.to_vec(alloc)?);
        let key = name.to_vec(alloc)?;
        self.list.reserve(1)?;
        self.indices.insert(key, index)?;
        self.list.push_reserved(item);
        self.hints[slot_of(name)] = index;
        Ok(())
    }

    /// A copy of the names.
    pub fn try_clone(&self, alloc: Global) -> Result<Names, NoMemory>
        ensures { IfOk result (λ copied. copied ≡ self.now) }
    {
        with_all(alloc, self.list.as_slice())
    }

    /// How many they are.
    pub fn len(&self) -> usize
        ensures { result ≡ length self.now }
    {
        self.list.len()
    }

    /// The names, in their order.
    pub fn into_list(self) -> List<List<u8>>
        ensures { result ≡ self }
    {
        let Names {
            list,
            indices: _,
            hints: _,
        } = self;
        List::from_vec(list)
    }
}

/// A table of these names, in their order.
fn with_all(alloc: Global, names: &[List<u8>]) -> Result<Names, NoMemory>
    requires once { IsEachOnce names.now }
    requires few { length names.now ≤ 2 ^ 32 }
    ensures { IfOk result (λ all. all ≡ names.now) }
{
    let mut all = Names::new(alloc);
    for name in names {
        all.push(alloc, name.as_slice())?;
    }
    Ok(all)
}
