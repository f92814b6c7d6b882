ghost use Rattle.std.specs.Prelude.{◌≡◌, ◌<◌, length, slice_set, Some, None};
ghost use Rattle.sg_match.specs.Pairs.{flipped as flip_of};

use super::Edge;

pub fn flipped(edge: Edge) -> Edge
    ensures { result ≡ flip_of edge }
{
    Edge {
        from: edge.to,
        to: edge.from,
    }
}

// Takes the pair from two paired tops.
pub fn unpair_tops(pairs: &mut [Option<Edge>], one: usize, other: usize)
    requires one { one < length pairs.old }
    requires other { other < length pairs.old }
    ensures { pairs.new ≡ slice_set (slice_set pairs.old one None) other None }
{
    pairs[one] = None;
    pairs[other] = None;
}

// Pairs two tops, by an edge from the first to the second.
pub fn pair_tops(pairs: &mut [Option<Edge>], one: usize, other: usize, edge: Edge)
    requires one { one < length pairs.old }
    requires other { other < length pairs.old }
    ensures { pairs.new ≡ slice_set (slice_set pairs.old one (Some edge)) other (Some (flip_of edge)) }
{
    pairs[one] = Some(edge);
    pairs[other] = Some(flipped(edge));
}
