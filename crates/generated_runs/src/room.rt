//! Lists that grow.
ghost use Rattle.std.specs.Prelude.{◌≡◌, ◌++◌, OnOk};

use tensor_ports::NoMemory;

/// Appends bytes.
pub fn append(out: &mut Vec<u8>, bytes: &[u8]) -> Result<(), NoMemory>
    ensures { OnOk result (out.new.items ≡ out.old.items ++ bytes.now) }
{
    match out.extend_from_slice(bytes) {
        Ok(()) => Ok(()),
        Err(_) => Err(NoMemory),
    }
}
