//! Whether the loops add up, over the caller's tables.
ghost use Rattle.std.specs.Prelude.{◌≡◌, ◌-◌};
ghost use Rattle.rules.specs.Held.{sum_broken_at};

use sheet::Loop;

/// Rule 13: as many triangles as tile a sheet with so many inner vertices.
// What is missing of them is counted down, so that nothing is too large to count.
pub fn sum_broken(inner: u16, loops: &[Loop]) -> Option<usize>
    ensures { result ≡ sum_broken_at inner loops.now }
{
    let mut missing = 2 * u32::from(inner) + 2;
    for item in loops {
        let triangles = triangles(item);
        if triangles > missing {
            return Some(0);
        }
        missing -= triangles;
    }
    if missing == 0 { None } else { Some(0) }
}

// How many triangles a loop is cut into.
fn triangles(item: &Loop) -> u32
    ensures { result ≡ item.now.corners - 2 }
{
    u32::from(item.corners.saturating_sub(2))
}
