//! A walk through the items of several trees by their paths.
use crate::path::{SHOWN_PATH, push_shown, shortened};
use rb_tree::{Kind, Node};
use std::alloc::{AllocError, Global};

/// An item of one of the trees.
#[derive(Clone, Copy)]
pub struct Member<N> {
    /// The index of the tree.
    pub tree: usize,
    pub node: N,
    /// Only those of its keys are walked that an item of another tree has, too.
    pub is_guest: bool,
}

impl<N: Node> Member<N> {
    pub fn of(tree: usize, node: N) -> Member<N> {
        Member {
            tree,
            node,
            is_guest: false,
        }
    }
}

/// An item that was entered, and its next child.
#[derive(Clone, Copy)]
struct Cursor<N> {
    member: Member<N>,
    at: usize,
}

impl<N: Node> Cursor<N> {
    /// Checks whether the next child is walked whatever others have.
    fn leads(&self) -> bool {
        match self.member.node.kind() {
            Kind::Array | Kind::Table => !self.member.is_guest && self.at < self.member.node.len(),
            _ => false,
        }
    }

    /// Returns the next key of a table, and an empty one of an array.
    fn key(&self) -> &[u8] {
        let node = &self.member.node;
        if node.kind() == Kind::Table && self.at < node.len() {
            node.key_at(self.at)
        } else {
            b""
        }
    }

    /// Returns the next child if it has this key, and goes past it.
    fn next_child(&mut self, key: &[u8]) -> Option<N> {
        let node = self.member.node;
        match node.kind() {
            Kind::Table if self.member.is_guest => node.child(key),
            Kind::Array | Kind::Table if self.at < node.len() && self.key() == key => {
                let child = node.at(self.at);
                self.at += 1;
                Some(child)
            }
            _ => None,
        }
    }
}

/// Items of one path that come next, or whose children do.
#[derive(Clone, Copy)]
struct Level {
    /// The index of its first cursor.
    first: usize,
    /// The lengths of the path, and of the path before its last key.
    path_len: usize,
    key_at: usize,
    /// The items themselves come next, and not their children.
    is_whole: bool,
}

/// Walks through the items of several trees, by ascending paths. Items come only if they are added,
/// or if the items around them are entered.
#[derive(Drop)]
pub struct Walk<N: Node> {
    alloc: Global,
    /// The innermost level is the last one.
    levels: Vec<Level>,
    cursors: Vec<Cursor<N>>,
    /// Keys and indexes with slashes between them.
    path: Vec<u8>,
    key_at: usize,
    members: Vec<Member<N>>,
}

impl<N: Node> Walk<N> {
    pub fn new(alloc: Global) -> Walk<N> {
        Walk {
            alloc,
            levels: Vec::new(alloc),
            cursors: Vec::new(alloc),
            path: Vec::new(alloc),
            key_at: 0,
            members: Vec::new(alloc),
        }
    }

    /// Returns the items at the path, in the order in which those around them were entered.
    pub fn members(&self) -> &[Member<N>] {
        &self.members
    }

    /// Returns the item of a tree at the path.
    pub fn node(&self, tree: usize) -> Option<N> {
        for member in &self.members {
            if member.tree == tree {
                return Some(member.node);
            }
        }
        None
    }

    /// Returns the path: keys and indexes with slashes between them.
    pub fn path(&self) -> &[u8] {
        &self.path
    }

    /// Returns the last key or index of the path.
    pub fn key(&self) -> &[u8] {
        self.path.get(self.key_at..).unwrap_or(b"")
    }

    /// Returns the path with the first and the last bytes of a long key, and of a long path.
    pub fn shown_path(&self) -> Result<Vec<u8>, AllocError> {
        let mut shown = Vec::new(self.alloc);
        let mut from = 0;
        for level in &self.levels {
            if level.path_len > from {
                let key = self.path.get(from..level.path_len).unwrap_or(b"");
                push_shown(self.alloc, &mut shown, key)?;
                from = level.path_len.saturating_add(1);
            }
        }
        if self.path.len() > from {
            push_shown(self.alloc, &mut shown, self.path.get(from..).unwrap_or(b""))?;
        }
        shortened(self.alloc, &shown, SHOWN_PATH)
    }

    fn push_level(&mut self, members: &[Member<N>], is_whole: bool) -> Result<(), AllocError> {
        self.levels.push(Level {
            first: self.cursors.len(),
            path_len: self.path.len(),
            key_at: self.key_at,
            is_whole,
        })?;
        for member in members {
            self.cursors.push(Cursor {
                member: *member,
                at: 0,
            })?;
        }
        Ok(())
    }

    /// Adds items at the path, which come before those that were added or entered earlier.
    pub fn add(&mut self, members: &[Member<N>]) -> Result<(), AllocError> {
        self.push_level(members, true)
    }

    /// Enters tables or arrays at the path: the items in them come next.
    pub fn enter(&mut self, members: &[Member<N>]) -> Result<(), AllocError> {
        self.push_level(members, false)
    }

    /// Returns the cursor of a level whose next child is the first.
    fn least(&self, first: usize) -> Option<Cursor<N>> {
        let mut least: Option<Cursor<N>> = None;
        for cursor in self.cursors.get(first..).unwrap_or(&[]) {
            if cursor.leads() && least.is_none_or(|least| cursor.key() < least.key()) {
                least = Some(*cursor);
            }
        }
        least
    }

    /// Appends the next key or index of a cursor to the path.
    fn push_key(&mut self, cursor: &Cursor<N>) -> Result<(), AllocError> {
        if !self.path.is_empty() {
            self.path.push(b'/')?;
        }
        self.key_at = self.path.len();
        if cursor.member.node.kind() == Kind::Table {
            return self.path.extend_from_slice(cursor.key());
        }
        let mut digits = itoa::Buffer::new();
        self.path
            .extend_from_slice(digits.format(cursor.at as u64).as_bytes())
    }

    /// Takes the items of a level at its next key or index. Returns false if there are none.
    fn take_next(&mut self, first: usize) -> Result<bool, AllocError> {
        let Some(least) = self.least(first) else {
            return Ok(false);
        };
        self.push_key(&least)?;
        for i in first..self.cursors.len() {
            let Some(cursor) = self.cursors.get_mut(i) else {
                break;
            };
            if let Some(node) = cursor.next_child(least.key()) {
                let (tree, is_guest) = (cursor.member.tree, cursor.member.is_guest);
                self.members.push(Member {
                    tree,
                    node,
                    is_guest,
                })?;
            }
        }
        Ok(true)
    }

    /// Takes the items of a level themselves.
    fn take_whole(&mut self, first: usize) -> Result<(), AllocError> {
        for cursor in self.cursors.get(first..).unwrap_or(&[]) {
            self.members.push(cursor.member)?;
        }
        Ok(())
    }

    /// Moves to the next items. Returns false at the end.
    pub fn advance(&mut self) -> Result<bool, AllocError> {
        self.members.clear();
        for _ in 0..u64::MAX {
            let Some(level) = self.levels.last().copied() else {
                break;
            };
            self.path.truncate(level.path_len);
            self.key_at = level.key_at;
            if !level.is_whole && self.take_next(level.first)? {
                return Ok(true);
            }
            if level.is_whole {
                self.take_whole(level.first)?;
            }
            self.cursors.truncate(level.first);
            let _ = self.levels.pop();
            if level.is_whole {
                return Ok(true);
            }
        }
        Ok(false)
    }
}
