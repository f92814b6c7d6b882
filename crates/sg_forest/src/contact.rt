// Where two regions touch.

/// One side of where two regions touch: the terminal that this side has grown from, and the dart of
/// the edge at which they touch that leaves on this side.
#[derive(Clone, Copy)]
pub struct End {
    pub terminal: u32,
    pub dart: u32,
}

/// Where a region touches another: its own side, and the other one.
#[derive(Clone, Copy)]
pub struct Contact {
    pub own: End,
    pub other: End,
}

// The terminal of no region.
const NOBODY: u32 = u32::MAX;

impl Contact {
    /// No contact: on its own side is no terminal.
    pub fn none() -> Contact {
        let end = End {
            terminal: NOBODY,
            dart: 0,
        };
        Contact {
            own: end,
            other: end,
        }
    }

    /// The contact, if it is one.
    pub fn there(self) -> Option<Contact> {
        if self.own.terminal == NOBODY {
            None
        } else {
            Some(self)
        }
    }

    /// Where a region touches a node that no region covers: the node has no terminal.
    pub fn with_node(own: End, back: u32) -> Contact {
        Contact {
            own,
            other: End {
                terminal: NOBODY,
                dart: back,
            },
        }
    }

    /// Whether what is touched is a node that no region covers.
    pub fn is_with_node(&self) -> bool {
        self.other.terminal == NOBODY
    }

    /// The same, as the other region sees it.
    pub fn reversed(&self) -> Contact {
        Contact {
            own: self.other,
            other: self.own,
        }
    }
}
