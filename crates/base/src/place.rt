ghost use Rattle.std.specs.Prelude.{◌≡◌, slice_set};

/// Writes the value at a place, where there is one.
pub fn set_at<T: Copy>(values: &mut [T], place: usize, value: T)
    ensures { values.new ≡ slice_set values.old place value }
{
    if place < values.len() {
        values[place] = value;
    }
}
