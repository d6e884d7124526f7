// Whether the work slices of a call have their lengths.
ghost use Rattle.std.specs.Prelude.{◌≡◌, length};
ghost use Rattle.builder.specs.room.Room.{room_from};

use model::Refusal;

// Slice by slice, a length against its constant. No arrays of one size: a caller may have a number of slices that is known only when it runs.
// The refusal tells the index, so that a `zip` with an `enumerate` is no plainer.
pub(crate) fn work_slices(lens: &[usize], sizes: &[usize]) -> Result<(), Refusal>
    requires { length lens.now ≡ length sizes.now }
    ensures { result ≡ room_from 0 lens.now sizes.now }
{
    for i in 0..lens.len() {
        if lens[i] < sizes[i] {
            return Err(Refusal::WorkSliceShort(i, sizes[i]));
        }
    }
    Ok(())
}
