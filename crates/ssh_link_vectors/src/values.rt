// What is done alike with values of many types. They are dropped here, as values of any type:
// dropping one of a type with many variants takes the prover long in each function that does it.

/// Whether the two are equal.
pub(crate) fn are_equal<T: PartialEq + Drop>(one: T, other: T) -> bool {
    one == other
}

/// Whether the other, where it was made, equals the one.
pub(crate) fn equals<T: PartialEq + Drop, E>(one: T, made: Result<T, E>) -> Result<bool, E> {
    match made {
        Ok(other) => Ok(are_equal(one, other)),
        Err(why) => {
            drop(one);
            Err(why)
        }
    }
}

/// Whether the copy, where it was made, equals this.
pub(crate) fn is_copy<T: PartialEq + Drop, E>(copy: Result<T, E>, this: &T) -> Result<bool, E> {
    Ok(copy? == *this)
}

/// Whether what is held equals this.
pub(crate) fn is_held<T: PartialEq + Drop>(held: Option<&T>, this: T) -> bool {
    held == Some(&this)
}

/// The value, where it was filled.
pub(crate) fn filled<T: Drop, E>(value: T, done: Result<(), E>) -> Result<T, E> {
    match done {
        Ok(()) => Ok(value),
        Err(why) => {
            drop(value);
            Err(why)
        }
    }
}
