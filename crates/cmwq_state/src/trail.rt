ghost use Rattle.std.specs.Prelude.{◌≡◌, ◌<◌, ◌≤◌, ◌++◌, ◌∷◌, [], length};

use http_server::Log;
use std::marker::Model;

/// A list that contracts alone see. What runs has its length: its items take no memory.
#[derive(Drop)]
pub struct Trail<T> {
    len: u64,
    /// What it was a copy of, part by part.
    copied: Log<(), Log<T, ()>>,
    /// What was pushed since.
    pushed: Log<T, ()>,
}

impl<T> Model for Trail<T> {
    ghost use Rattle.std.specs.Prelude.{◌≡◌, ◌≤◌, ◌++◌, List, flat_map, length, map};

    ghost Value = { List T };

    ghost view = { λ t. flat_map (λ part. map (λ item. item.0) part.1.items) t.copied.items
        ++ map (λ item. item.0) t.pushed.items };

    ghost invariant = { λ t. (t.len ≡ length (flat_map (λ part. map (λ item. item.0) part.1.items) t.copied.items
        ++ map (λ item. item.0) t.pushed.items)) × (t.len ≤ 4611686018427387904) };
}

impl<T> Trail<T> {
    /// A trail without items.
    pub fn new() -> Trail<T>
        ensures { result ≡ [] }
    {
        Trail {
            len: 0,
            copied: Log::new(),
            pushed: Log::new(),
        }
    }

    /// Makes this a copy of another trail.
    pub fn copy_from(&mut self, other: &Trail<T>)
        ensures { self.new ≡ other.now }
    {
        self.len = other.len;
        self.copied = other.copied.and(&(), &other.pushed);
        self.pushed = Log::new();
    }

    /// How many items it has.
    pub fn len(&self) -> u64
        ensures len { result ≡ length self.now }
        ensures most { length self.now ≤ 4611686018427387904 }
    {
        self.len
    }

    /// One item more.
    pub fn push(&mut self, item: &T)
        requires { length self.old < 4611686018427387904 }
        ensures { self.new ≡ self.old ++ item.now ∷ [] }
    {
        self.pushed = self.pushed.and(item, &());
        self.len += 1;
    }
}
