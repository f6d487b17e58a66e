// Values that are kept or dropped, whatever they are.
ghost use Rattle.std.specs.Prelude.{◌≡◌, false, IfSome};

// The value, unless it is refused: then it is dropped.
pub(crate) fn unless<T: Drop>(is_refused: bool, value: T) -> Option<T>
    ensures { IfSome result (λ kept. (kept ≡ value) × (is_refused ≡ false)) }
{
    if is_refused {
        drop(value);
        return None;
    }
    Some(value)
}

// Puts the value there. What was there is dropped.
pub(crate) fn put<T: Drop>(place: &mut T, value: T)
    ensures { place.new ≡ value }
{
    *place = value;
}
