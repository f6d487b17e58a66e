// What is done alike with values of many types. They are dropped here, as values of any type:
// dropping one of a type with many variants takes the prover long in each function that does it.

/// Whether the two are equal.
pub(crate) fn are_equal<T: PartialEq + Drop>(one: T, other: T) -> bool {
    one == other
}

/// Whether it was made, and equals this.
pub(crate) fn is_this<T: PartialEq + Drop, E: Drop>(made: Result<T, E>, wanted: &T) -> bool {
    let is_this = matches!(&made, Ok(one) if *one == *wanted);
    drop(made);
    is_this
}
