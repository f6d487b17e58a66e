// The writers of the fields of a message.
ghost use Rattle.std.specs.Prelude.{◌≡◌, ◌^◌, ◌≤◌, ◌⊎◌, ◌↔◌, ◌++◌, [], ◌∷◌, length, OnOk, OnErr};
ghost use Rattle.std.specs.Prelude.{IfErr, IsErrOf};
ghost use Rattle.std.specs.Int.{w64, to_be_bytes};
ghost use Rattle.ssh_wire.specs.Field.{number, string};
ghost use Rattle.ssh_wire.specs.declared.error.WireError.TheVariants.{TooLong, NoMemory};

use crate::WireError;

/// Appends one byte. The only error is `NoMemory`.
pub fn put_u8(out: &mut Vec<u8>, x: u8) -> Result<(), WireError>
    ensures ok { OnOk result (out.new.items ≡ out.old.items ++ x ∷ []) }
    ensures memory { IfErr result (λ e. e ≡ NoMemory) }
    ensures err { OnErr result (out.new.items ≡ out.old.items) }
{
    out.push(x)?;
    Ok(())
}

/// Appends a number of four bytes. The only error is `NoMemory`.
pub fn put_u32(out: &mut Vec<u8>, x: u32) -> Result<(), WireError>
    ensures ok { OnOk result (out.new.items ≡ out.old.items ++ number x) }
    ensures memory { IfErr result (λ e. e ≡ NoMemory) }
    ensures err { OnErr result (out.new.items ≡ out.old.items) }
{
    out.extend_from_slice(&x.to_be_bytes())?;
    Ok(())
}

/// Appends a number of eight bytes. The only error is `NoMemory`.
pub fn put_u64(out: &mut Vec<u8>, x: u64) -> Result<(), WireError>
    ensures ok { OnOk result (out.new.items ≡ out.old.items ++ to_be_bytes w64 x) }
    ensures memory { IfErr result (λ e. e ≡ NoMemory) }
    ensures err { OnErr result (out.new.items ≡ out.old.items) }
{
    out.extend_from_slice(&x.to_be_bytes())?;
    Ok(())
}

/// Appends a string: its length, then its bytes. `TooLong` exactly where they are more than
/// 2^32 - 1, and no other error but `NoMemory` (RFC 4251 section 5).
pub fn put_bytes(out: &mut Vec<u8>, bytes: &[u8]) -> Result<(), WireError>
    ensures ok { OnOk result (out.new.items ≡ out.old.items ++ string bytes.now) }
    ensures too_long { IsErrOf result WireError.TooLong ↔ (2 ^ 32 ≤ length bytes.now) }
    ensures errors { IfErr result (λ e. (e ≡ TooLong) ⊎ (e ≡ NoMemory)) }
    ensures err { OnErr result (out.new.items ≡ out.old.items) }
{
    let Ok(length) = u32::try_from(bytes.len()) else {
        return Err(WireError::TooLong);
    };
    // Both parts or neither: with the room taken first, only this can be refused.
    out.reserve(4 + bytes.len())?;
    out.extend_from_slice(&length.to_be_bytes())?;
    out.extend_from_slice(bytes)?;
    Ok(())
}

/// Appends a text as a string. `TooLong` exactly where its bytes are more than 2^32 - 1, and no
/// other error but `NoMemory` (RFC 4251 section 5).
pub fn put_text(out: &mut Vec<u8>, text: &str) -> Result<(), WireError>
    ensures ok { OnOk result (out.new.items ≡ out.old.items ++ string text.now) }
    ensures too_long { IsErrOf result WireError.TooLong ↔ (2 ^ 32 ≤ length text.now) }
    ensures errors { IfErr result (λ e. (e ≡ TooLong) ⊎ (e ≡ NoMemory)) }
    ensures err { OnErr result (out.new.items ≡ out.old.items) }
{
    put_bytes(out, text.as_bytes())
}
