//! What a client can go by. Each function here has a law as its contract, and does nothing.

ghost use Rattle.ssh_sftp_core.specs.Laws.{ReadsBack, AddsToTheEnd, ChangesNothing, GivesEachOnce};

/// What is written by a handle that also reads, and does not append, is read back at its offset.
pub fn read_gives_what_was_written()
    ensures { ReadsBack }
{}

/// What is written by a handle that appends stands behind what the file had.
pub fn append_adds_to_the_end()
    ensures { AddsToTheEnd }
{}

/// A request whose outcome is a status other than `Ok` leaves files and handles as they were.
pub fn refusal_changes_nothing()
    ensures { ChangesNothing }
{}

/// However the packets of a client go on, no handle is given twice: the k-th has the number k.
pub fn handle_is_given_once()
    ensures { GivesEachOnce }
{}
