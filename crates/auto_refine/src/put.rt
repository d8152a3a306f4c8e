//! Values written at indices of a list.
ghost use Rattle.std.specs.Prelude.{◌≡◌, ◌<◌, All, length};
ghost use Rattle.auto_refine.specs.Put.{IsPut};

/// Writes `values[i]` at index `places[i]` of a list, for each i.
pub(crate) fn put<T: Copy>(list: &mut [T], places: &[u32], values: &[T])
    requires within { All (λ place. place < length list.old) places.now }
    requires same { length places.now ≡ length values.now }
    ensures { IsPut list.old places.now values.now list.new }
{
    for i in 0..places.len() {
        list[places[i] as usize] = values[i];
    }
}
