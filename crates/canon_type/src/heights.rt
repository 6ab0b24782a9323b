//! How deep aliases stand for each other.

use decl_groups::Group;
use std::alloc::{AllocError, Global};

/// The most aliases that stand for each other in turn. Types nest that deep, and each level takes stack where a type is
/// let go.
const MOST: u32 = 4096;

/// One more than the greatest of the heights at places.
fn above(heights: &[u32], places: &[u32]) -> u32 {
    let mut above = 0;
    for place in places {
        if let Some(height) = heights.get(*place as usize) {
            if *height >= above {
                above = height.saturating_add(1);
            }
        }
    }
    above
}

/// Fails as if memory ran out where more than 4,096 aliases stand for each other in turn. `groups` has them in order,
/// and `uses` those that each uses.
pub(crate) fn check_heights(
    alloc: Global,
    uses: &[Vec<u32>],
    groups: &[Group],
) -> Result<(), AllocError> {
    let mut heights = vec![in alloc; 0u32; uses.len()]?;
    for group in groups {
        for member in &group.members {
            let mut height = 0;
            if let Some(used) = uses.get(*member as usize) {
                height = above(&heights, used);
            }
            if height > MOST {
                return Err(AllocError);
            }
            if let Some(place) = heights.get_mut(*member as usize) {
                *place = height;
            }
        }
    }
    Ok(())
}
