// Paths, as the files are kept under.
ghost use Rattle.std.specs.Prelude.{◌≡◌, IfOk, IfErr};
ghost use Rattle.ssh_wire.specs.declared.error.WireError.TheVariants.{NoMemory};
ghost use Rattle.ssh_sftp_core.specs.Files.{rooted};

use ssh_wire::WireError;
use std::alloc::Global;

/// The path of the root, under which no file stands.
pub(crate) const ROOT: &[u8] = b"/";

// The path that names the root, too.
const HERE: &[u8] = b".";

// The path with "/" in front, where it has none; "." is the root, as nothing is
// (draft-ietf-secsh-filexfer-02 section 6.2).
pub(crate) fn rooted_path(alloc: Global, path: &[u8]) -> Result<Vec<u8>, WireError>
    ensures ok { IfOk result (λ full. full.items ≡ rooted path.now) }
    ensures memory { IfErr result (λ e. e ≡ NoMemory) }
{
    let mut full = Vec::new(alloc);
    if path == HERE {
        full.extend_from_slice(ROOT)?;
        return Ok(full);
    }
    if !path.starts_with(ROOT) {
        full.extend_from_slice(ROOT)?;
    }
    full.extend_from_slice(path)?;
    Ok(full)
}
