//! What a node keeps of its tree, so that nobody has to go over the tree for it.
ghost use Rattle.std.specs.Prelude.{◌≡◌, ◌+◌, ◌-◌, ◌<◌, max, ◌||◌};

/// The deepest tree that is built: the drop of one goes down by one call for each level, and must not leave the stack that a program has
/// by default, as either compiler builds it.
pub(crate) const DEEPEST: u32 = 16_384;

/// What a node keeps of its tree.
#[derive(Clone, Copy)]
pub(crate) struct Size {
    pub(crate) depth: u32,
    /// One more than the largest free variable, and 0 of a closed tree.
    pub(crate) free: u64,
    /// How many nodes of the tree have a free variable or an unknown, or the counter's last value. The other nodes are never built anew.
    pub(crate) nodes: u64,
    /// Whether an unknown is in the tree.
    pub(crate) unknown: bool,
}

impl Size {
    /// That of a leaf.
    pub(crate) fn leaf(free: u64, unknown: bool) -> Size
        ensures depth { result.depth ≡ 0 }
        ensures free { result.free ≡ free }
        ensures unknown { result.unknown ≡ unknown }
    {
        Size {
            depth: 0,
            free,
            nodes: if unknown { 1 } else { free.min(1) },
            unknown,
        }
    }

    /// That of two parts side by side.
    pub(crate) fn beside(self, other: Size) -> Size
        ensures depth { result.depth ≡ max self.depth other.depth }
        ensures free { result.free ≡ max self.free other.free }
        ensures unknown { result.unknown ≡ (self.unknown || other.unknown) }
    {
        Size {
            depth: self.depth.max(other.depth),
            free: self.free.max(other.free),
            nodes: self.nodes.saturating_add(other.nodes),
            unknown: self.unknown || other.unknown,
        }
    }

    /// That of a part under one binder.
    pub(crate) fn under(self) -> Size
        ensures depth { result.depth ≡ self.depth }
        ensures free { result.free ≡ self.free - 1 }
        ensures unknown { result.unknown ≡ self.unknown }
    {
        Size {
            free: self.free.saturating_sub(1),
            ..self
        }
    }

    /// That of the node over these parts.
    pub(crate) fn over(self) -> Size
        requires { self.depth < 4294967295 }
        ensures depth { result.depth ≡ self.depth + 1 }
        ensures free { result.free ≡ self.free }
        ensures unknown { result.unknown ≡ self.unknown }
    {
        let nodes = if self.free == 0 && !self.unknown {
            0
        } else {
            self.nodes.saturating_add(1)
        };
        Size {
            depth: self.depth + 1,
            nodes,
            ..self
        }
    }
}
