//! How many points blocks have, against the limit of a grid.

ghost use Rattle.std.specs.Prelude.{◌≡◌, ◌<◌, ◌≤◌, ◌∷◌, [], All, MatchOption};
ghost use Rattle.geo_degree.specs.Blocks.{block_degrees, point_count as count_of, points_of_all};
ghost use Rattle.geo_degree.specs.Grids.{grid_size};
ghost use Rattle.geo_degree.specs.declared.limits.TheConstants.{SIZE_LIMIT};

use geo_degree::{Block, SIZE_LIMIT};

/// How many points the grid of these blocks has, where these are not too many.
pub(crate) fn size_within_limit(blocks: &[Block]) -> Option<u64>
    ensures { MatchOption result (SIZE_LIMIT < grid_size (points_of_all blocks.now)) (λ size. (size ≡ grid_size (points_of_all blocks.now)) × (size ≤ SIZE_LIMIT)) }
{
    let mut size = 1;
    for block in blocks {
        let Some(count) = count_within_limit(*block) else {
            return None;
        };
        if count > SIZE_LIMIT / size {
            return None;
        }
        size *= count;
    }
    Some(size)
}

/// How many points a block has, where these are not too many.
fn count_within_limit(block: Block) -> Option<u64>
    ensures { MatchOption result (SIZE_LIMIT < count_of block) (λ count. (count ≡ count_of block) × (count ≤ SIZE_LIMIT)) }
{
    let (Block::One(degree) | Block::Pair(degree)) = block;
    if degree >= SIZE_LIMIT {
        return None;
    }
    let count = point_count(block);
    (count <= SIZE_LIMIT).then_some(count)
}

/// How many points a block has: those of a Pair form a triangle.
pub(crate) fn point_count(block: Block) -> u64
    requires { All (λ d. d ≤ SIZE_LIMIT) (block_degrees (block ∷ [])) }
    ensures { result ≡ count_of block }
{
    match block {
        Block::One(degree) => degree + 1,
        Block::Pair(degree) => (degree + 1) * (degree + 2) / 2,
    }
}
