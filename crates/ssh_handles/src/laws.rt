// What holds of the calls that writing makes.
ghost use Rattle.ssh_handles.specs.Written.{BytesInOrder};

/// The bytes that a call has put, which writes some, are the first of them, in their order, and what
/// it has not put is the rest.
pub fn bytes_in_order()
    ensures { BytesInOrder }
{}
