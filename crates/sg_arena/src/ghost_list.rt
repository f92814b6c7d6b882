//! Lists that only clauses read.

ghost use Rattle.std.specs.Prelude.{◌≡◌, ◌++◌, ◌∷◌, [], take};

use std::marker::Model;
use std::snapshot::Snapshot;

/// A list that only clauses read: it takes no bytes.
#[derive(Drop)]
#[cycle(ghost_list)]
pub(crate) struct GhostList<T> {
    last: Snapshot<Longer<T>>,
}

impl<T> Model for GhostList<T> {
    ghost use Rattle.std.specs.Prelude.{ℕ, List, ◌*◌, ◌+◌, length};
    ghost use Rattle.std.proofs.Common.{arith};

    ghost Value = { List T };

    ghost view = { λ t. t.last.value };

    ghost size = { λ n. 2 * length n + 1 };

    ghost size_decreases = { λ t h. Prim.grind (arith) };
}

// A list and one item more, or nothing.
#[derive(Drop)]
#[cycle(ghost_list)]
struct Longer<T> {
    rest: Option<(Snapshot<GhostList<T>>, T)>,
}

impl<T> Model for Longer<T> {
    ghost use Rattle.std.specs.Prelude.{ℕ, List, ◌*◌, ◌+◌, length, ◌++◌, ◌∷◌, []};
    ghost use Rattle.std.specs.Option.{option_map_or};
    ghost use Rattle.std.proofs.Common.{arith, length-append};

    ghost Value = { List T };

    ghost view = { λ m. option_map_or (λ p. p.0.value ++ p.1 ∷ []) m.rest [] };

    ghost size = { λ n. 2 * length n };

    ghost size_decreases = { λ m h. Prim.grind (arith, length-append) };
}

impl<T: Copy> GhostList<T> {
    /// The items of a slice.
    pub(crate) fn of(items: &[T]) -> GhostList<T>
        ensures { result ≡ items.now }
    {
        let mut list = GhostList {
            last: Snapshot::of(&Longer { rest: None }),
        };
        for &item in items {
            let longer = Longer {
                rest: Some((Snapshot::of(&list), item)),
            };
            list.last = Snapshot::of(&longer);
        }
        list
    }
}
