// The attributes of a file, which a client may send and this server does not keep.
ghost use Rattle.std.specs.Prelude.{◌≡◌, [], ◌∷◌, Some, None, MatchResult};
ghost use Rattle.ssh_wire.specs.Field.{Number, Long, Bytes};
ghost use Rattle.ssh_sftp_core.specs.declared.status.Status.TheVariants.{BadMessage};
ghost use Rattle.ssh_sftp_core.specs.Layouts.{past_where, past_pairs, past_extended};
ghost use Rattle.ssh_sftp_core.specs.Layouts.{past_attributes};

use crate::Status;
use ssh_wire::Reader;

const SIZE: u32 = 1;

const OWNER: u32 = 2;

const PERMISSIONS: u32 = 4;

const TIMES: u32 = 8;

const EXTENDED: u32 = 0x8000_0000;

fn skip_long(reader: &mut Reader, is_there: bool) -> Result<(), Status>
    ensures { MatchResult result
        (λ _. past_where is_there (Long ∷ []) reader.old.left ≡ Some reader.new.left)
        (λ why. (why ≡ BadMessage)
        × (past_where is_there (Long ∷ []) reader.old.left ≡ None)) }
{
    if is_there {
        reader.u64()?;
    }
    Ok(())
}

fn skip_number(reader: &mut Reader, is_there: bool) -> Result<(), Status>
    ensures { MatchResult result
        (λ _. past_where is_there (Number ∷ []) reader.old.left ≡ Some reader.new.left)
        (λ why. (why ≡ BadMessage)
        × (past_where is_there (Number ∷ []) reader.old.left ≡ None)) }
{
    if is_there {
        reader.u32()?;
    }
    Ok(())
}

fn skip_numbers(reader: &mut Reader, are_there: bool) -> Result<(), Status>
    ensures { MatchResult result
        (λ _. past_where are_there (Number ∷ Number ∷ []) reader.old.left ≡ Some reader.new.left)
        (λ why. (why ≡ BadMessage)
        × (past_where are_there (Number ∷ Number ∷ []) reader.old.left ≡ None)) }
{
    if are_there {
        reader.u32()?;
        reader.u32()?;
    }
    Ok(())
}

fn skip_pairs(reader: &mut Reader, count: u32) -> Result<(), Status>
    ensures { MatchResult result (λ _. past_pairs count reader.old.left ≡ Some reader.new.left)
        (λ why. (why ≡ BadMessage) × (past_pairs count reader.old.left ≡ None)) }
{
    for _pair in 0..count {
        reader.bytes()?;
        reader.bytes()?;
    }
    Ok(())
}

fn skip_extended(reader: &mut Reader, are_there: bool) -> Result<(), Status>
    ensures { MatchResult result
        (λ _. past_extended are_there reader.old.left ≡ Some reader.new.left)
        (λ why. (why ≡ BadMessage) × (past_extended are_there reader.old.left ≡ None)) }
{
    if !are_there {
        return Ok(());
    }
    let count = reader.u32()?;
    skip_pairs(reader, count)
}

// Moves past the attributes (draft-ietf-secsh-filexfer-02 section 5).
pub(crate) fn skip_attributes(reader: &mut Reader) -> Result<(), Status>
    ensures { MatchResult result (λ _. past_attributes reader.old.left ≡ Some reader.new.left)
        (λ why. (why ≡ BadMessage) × (past_attributes reader.old.left ≡ None)) }
{
    let flags = reader.u32()?;
    skip_long(reader, flags & SIZE != 0)?;
    skip_numbers(reader, flags & OWNER != 0)?;
    skip_number(reader, flags & PERMISSIONS != 0)?;
    skip_numbers(reader, flags & TIMES != 0)?;
    skip_extended(reader, flags & EXTENDED != 0)
}
