// The points of a region copied into the slice that is lent (document 02, Paper 4). The call is `region`.
ghost use Rattle.std.specs.Prelude.{◌≡◌};
ghost use Rattle.list_calls.specs.Copies.{written_out};

use coordinates::coords::Face;

// Writes the first `count` points of an array to the points that are lent, as many as there are places for. An array with how many
// of it count, as an outline has it: there is no heap.
#[tactic(auto, unfolding(crate::specs::Copies::written_out))]
pub fn write_out(points: &mut [Face], from: [Face; 256], count: usize)
    ensures { points.new ≡ written_out points.old from count }
{
    let n = count.min(256).min(points.len());
    points[..n].copy_from_slice(&from[..n]);
}
