//! A list of linked nodes.

ghost use Rattle.std.specs.Prelude.{◌≡◌, ◌+◌, ◌-◌, ◌≤◌, ◌<◌, ℕ, [], ◌∷◌, ◌++◌, insert, length, slice_get, nat_eq, nat_le, if◌then◌else◌, Some, None, OnOk, OnErr, IfOk, IsOk, IfSome, IfNone};
ghost use Rattle.std.specs.Vec.{vec_len, vec_capacity};
ghost use Rattle.ts_base.specs.Agreement.{Agrees};
ghost use Rattle.node_links.specs.Lists.{AreApart, IsAt, IsNode, IsPenaltyAt, appended, list_cause, valued, with_value};
ghost use Rattle.node_links.specs.Chains.{numbered, set_next as next_set, set_value as value_set, put_after};

use crate::fault::ListFault;
use crate::node::{Node, NodeNo};
use box_tree::{Item, Items};
use std::alloc::Global;
use std::marker::Model;
use std::sync::ledger::Ledger;
use ts_base::{NoMemory, Steps};

/// How many items a list may have before one more is appended.
const MOST_ITEMS: usize = 200_000;

/// A horizontal list whose nodes are linked, so that an item is put between others in constant
/// time, and a node keeps its number. Contracts see the items in order, the numbers of their nodes,
/// and how many insertions can't fail.
#[derive(Debug, Drop)]
pub struct NodeList {
    // The first node of the list is the first one here.
    nodes: Vec<Node>,
    // The last node of the list, where there is one.
    last: usize,
}

impl Model for NodeList {
    ghost use Rattle.node_links.specs.Lists.{Linked};
    ghost use Rattle.node_links.specs.Codes.{linked_code};
    ghost use Rattle.box_tree.specs.contracts.item.Item as item;
    ghost use Rattle.node_links.specs.contracts.node.NodeNo as number;

    ghost Value = { Linked };

    ghost coded = { linked_code item.the_row.coded number.the_row.coded };

    ghost use Rattle.std.specs.Vec.{vec_capacity};
    ghost use Rattle.node_links.specs.Chains.{linked_of, chain, AreLinked};

    ghost view = { λ l. linked_of l.nodes.items (vec_capacity l.nodes) };

    ghost invariant = { λ l. AreLinked l.nodes.items (chain l.nodes.items) l.last };
}

// Makes a node the next one of another.
#[inline(always)]
fn set_next(nodes: &mut Vec<Node>, at: usize, next: NodeNo)
    requires { at < length nodes.old.items }
    ensures nodes { nodes.new.items ≡ next_set nodes.old.items at next }
    ensures len { vec_len nodes.new ≡ vec_len nodes.old }
    ensures room { vec_capacity nodes.new ≡ vec_capacity nodes.old }
{
    nodes[at].next = Some(next);
}

// Puts a node with this item after another, where there is room.
#[inline(always)]
fn link(nodes: &mut Vec<Node>, at: NodeNo, item: Item) -> NodeNo
    requires there { at.0 < length nodes.old.items }
    requires room { vec_len nodes.old < vec_capacity nodes.old }
    ensures number { result ≡ numbered (length nodes.old.items) }
    ensures nodes { nodes.new.items ≡ put_after nodes.old.items at item }
    ensures room { vec_capacity nodes.new ≡ vec_capacity nodes.old }
{
    let next = nodes[at.0].next;
    let number = NodeNo(nodes.len());
    set_next(nodes, at.0, number);
    nodes.push_reserved(Node { item, next });
    number
}

// The last node, where a new one was put after a node.
#[inline(always)]
fn last_after(last: usize, at: NodeNo, new: NodeNo) -> usize
    ensures { result ≡ (if nat_eq at.0 last then new.0 else last) }
{
    if at.0 == last { new.0 } else { last }
}

// Gives a penalty another value.
#[inline(always)]
fn give_value(item: &mut Item, value: i64)
    ensures { item.new ≡ valued value item.old }
{
    if let Item::Penalty { value: old, .. } = item {
        *old = value;
    }
}

// Gives the penalty of a node another value.
#[inline(always)]
fn set_value(nodes: &mut Vec<Node>, at: usize, value: i64)
    requires { at < length nodes.old.items }
    ensures nodes { nodes.new.items ≡ value_set value nodes.old.items at }
    ensures len { vec_len nodes.new ≡ vec_len nodes.old }
    ensures room { vec_capacity nodes.new ≡ vec_capacity nodes.old }
{
    give_value(&mut nodes[at].item, value);
}

impl NodeList {
    /// Returns the empty list. Takes no memory.
    pub fn new(alloc: Global) -> NodeList
        ensures items { result.items ≡ [] }
        ensures numbers { result.numbers ≡ [] }
    {
        NodeList {
            nodes: Vec::new(alloc),
            last: 0,
        }
    }

    /// Makes room for so many insertions. Refused, it leaves the list as it was. It wants no memory
    /// where so many can't fail already.
    pub fn reserve(&mut self, n: usize) -> Result<(), NoMemory>
        ensures items { self.new.items ≡ self.old.items }
        ensures numbers { self.new.numbers ≡ self.old.numbers }
        ensures more { self.old.spare ≤ self.new.spare }
        ensures room { OnOk result (n ≤ self.new.spare) }
        ensures reserved { n ≤ self.old.spare → IsOk result }
    {
        self.nodes.reserve(n)?;
        Ok(())
    }

    // Puts an item after a node.
    #[inline(always)]
    fn put_after(&mut self, at: NodeNo, item: Item) -> NodeNo
        requires here { IsNode self.old at }
        requires room { 1 ≤ self.old.spare }
        ensures items { (place : ℕ) → IsAt self.old place at
            → self.new.items ≡ insert self.old.items (place + 1) item }
        ensures numbers { (place : ℕ) → IsAt self.old place at
            → self.new.numbers ≡ insert self.old.numbers (place + 1) result }
        ensures room { self.new.spare + 1 ≡ self.old.spare }
    {
        let number = link(&mut self.nodes, at, item);
        self.last = last_after(self.last, at, number);
        number
    }
    // Puts an item first, where there is none.
    #[inline(always)]
    fn put_first(&mut self, item: Item) -> NodeNo
        requires none { self.old.items ≡ [] }
        requires room { 1 ≤ self.old.spare }
        ensures items { self.new.items ≡ item ∷ [] }
        ensures numbers { self.new.numbers ≡ result ∷ [] }
        ensures room { self.new.spare + 1 ≡ self.old.spare }
    {
        self.nodes.push_reserved(Node { item, next: None });
        self.last = 0;
        NodeNo(0)
    }

    /// Returns how many items are there. Takes no memory.
    #[inline(always)]
    pub fn len(&self) -> usize
        ensures { result ≡ length self.now.items }
    {
        self.nodes.len()
    }

    // Whether 200,000 items are there.
    #[inline(always)]
    fn is_full(&self) -> bool
        ensures { result ≡ nat_le 200000 (length self.now.items) }
    {
        MOST_ITEMS <= self.nodes.len()
    }

    // The last node.
    #[inline(always)]
    fn last_node(&self) -> Option<NodeNo>
        ensures none { IfNone result ((self.now.items ≡ []) × (self.now.numbers ≡ [])) }
        ensures some { IfSome result (λ number. 0 < length self.now.items) }
        ensures many { length self.now.numbers ≡ length self.now.items }
        ensures last { IfSome result (λ number. IsAt self.now (length self.now.items - 1) number) }
    {
        if self.nodes.is_empty() {
            return None;
        }
        Some(NodeNo(self.last))
    }

    // Puts an item last.
    #[inline(always)]
    fn put_last(&mut self, item: Item) -> NodeNo
        requires room { 1 ≤ self.old.spare }
        ensures items { self.new.items ≡ self.old.items ++ item ∷ [] }
        ensures numbers { self.new.numbers ≡ self.old.numbers ++ result ∷ [] }
        ensures room { self.new.spare + 1 ≡ self.old.spare }
    {
        match self.last_node() {
            Some(last) => self.put_after(last, item),
            None => self.put_first(item),
        }
    }

    /// Appends an item, and returns the number of its node. `ListFull` comes exactly where 200,000
    /// items are there, and memory isn't wanted where one insertion can't fail. Refused, it leaves
    /// the list as it was. It takes one step.
    #[inline(always)]
    pub fn append<L: Ledger>(
        &mut self,
        item: Item,
        steps: &mut Steps<L>,
    ) -> Result<NodeNo, ListFault>
        ensures items { Agrees (λ _. self.new.items) list_cause result
            (appended self.old.items item) }
        ensures numbers { IfOk result
            (λ number. self.new.numbers ≡ self.old.numbers ++ number ∷ []) }
        ensures same { OnErr result (self.new.items ≡ self.old.items) }
        ensures kept { OnErr result (self.new.numbers ≡ self.old.numbers) }
        ensures room { self.old.spare ≤ self.new.spare + 1 }
        ensures reserved { 1 ≤ self.old.spare → length self.old.items < 200000 → IsOk result }
        ensures counted { steps.new ≡ steps.old + 1 }
    {
        steps.tick();
        if self.is_full() {
            return Err(ListFault::ListFull);
        }
        self.reserve(1)?;
        Ok(self.put_last(item))
    }

    /// Puts an item after a node, and returns the number of its node. It takes no memory, can't
    /// fail, and takes one step.
    #[inline(always)]
    pub fn insert_after<L: Ledger>(
        &mut self,
        at: NodeNo,
        item: Item,
        steps: &mut Steps<L>,
    ) -> NodeNo
        requires here { IsNode self.old at }
        requires room { 1 ≤ self.old.spare }
        ensures items { (place : ℕ) → IsAt self.old place at
            → self.new.items ≡ insert self.old.items (place + 1) item }
        ensures numbers { (place : ℕ) → IsAt self.old place at
            → self.new.numbers ≡ insert self.old.numbers (place + 1) result }
        ensures room { self.new.spare + 1 ≡ self.old.spare }
        ensures counted { steps.new ≡ steps.old + 1 }
    {
        steps.tick();
        self.put_after(at, item)
    }

    /// Gives the penalty of a node another value.
    #[inline(always)]
    pub fn set_penalty(&mut self, at: NodeNo, value: i64)
        requires { IsPenaltyAt self.old at }
        ensures items { (place : ℕ) → IsAt self.old place at
            → self.new.items ≡ with_value value self.old.items place }
        ensures numbers { self.new.numbers ≡ self.old.numbers }
        ensures room { self.new.spare ≡ self.old.spare }
    {
        set_value(&mut self.nodes, at.0, value);
    }

    /// Returns the number of the first node, or `None` exactly where the list is empty. There are
    /// as many nodes as items, and each has a number of its own. Takes no memory.
    pub fn first(&self) -> Option<NodeNo>
        ensures first { result ≡ slice_get self.now.numbers 0 }
        ensures many { length self.now.numbers ≡ length self.now.items }
        ensures apart { AreApart self.now.numbers }
    {
        if self.nodes.is_empty() {
            return None;
        }
        Some(NodeNo(0))
    }

    // The number of the node after another.
    #[inline(always)]
    fn after(&self, at: NodeNo) -> Option<NodeNo>
        requires { IsNode self.now at }
        ensures { (place : ℕ) → IsAt self.now place at
            → result ≡ slice_get self.now.numbers (place + 1) }
    {
        self.nodes[at.0].next
    }

    /// Returns the number of the node after another, or `None` exactly where it is the last. Takes
    /// no memory, and one step.
    #[inline(always)]
    pub fn next<L: Ledger>(&self, at: NodeNo, steps: &mut Steps<L>) -> Option<NodeNo>
        requires { IsNode self.now at }
        ensures next { (place : ℕ) → IsAt self.now place at
            → result ≡ slice_get self.now.numbers (place + 1) }
        ensures counted { steps.new ≡ steps.old + 1 }
    {
        steps.tick();
        self.after(at)
    }

    /// Returns the item of a node. Takes no memory.
    #[inline(always)]
    pub fn item(&self, at: NodeNo) -> &Item
        requires { IsNode self.now at }
        ensures { (place : ℕ) → IsAt self.now place at
            → slice_get self.now.items place ≡ Some result.now }
    {
        &self.nodes[at.0].item
    }

    /// Returns the items in order.
    pub fn to_items(&self, alloc: Global) -> Result<Items, NoMemory>
        ensures { IfOk result (λ items. items ≡ self.now.items) }
    {
        let mut items = Items::new(alloc);
        let mut at = self.first();
        while let Some(number) = at {
            items.push(self.item(number).same_copy())?;
            at = self.after(number);
        }
        Ok(items)
    }
}
