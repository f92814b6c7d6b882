// How work is dealt out: how many trees grow at one time, and how large windows are.

// About how many nodes there are for all trees that grow at one time: so many that their data fit a cache.
const NODES: usize = 2048;

// Fewer trees never grow at one time: each batch meets the terminals of those that have not grown yet.
const LEAST_BATCH: usize = 128;

const MOST_BATCH: usize = 1024;

// The least number of nodes up to which a window grows, and what all windows together have.
const LEAST_WINDOW: usize = 600;

const ALL_WINDOWS: usize = 30000;

/// How many trees grow at one time, of so many terminals among the nodes.
pub fn batch_of(terminals: usize, nodes: usize) -> usize {
    let share = terminals.saturating_mul(NODES) / nodes.max(1);
    share.max(LEAST_BATCH).min(MOST_BATCH)
}

/// Up to how many of the nodes a window grows, if windows begin at so many edges. About six edges share a window.
pub fn window_of(edges: usize, nodes: usize) -> usize {
    let share = ALL_WINDOWS / (edges / 6 + 1);
    let third = nodes / 3;
    share.min(third).max(LEAST_WINDOW)
}
