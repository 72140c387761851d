//! Checks that all stocks searched for were found.
ghost use Rattle.std.specs.Prelude.{◌≡◌, if◌then◌else◌, true, Bool, Ok, Err};
ghost use Rattle.itch_commands.specs.declared.fault.ToolFault.{ToolFault};
ghost use Rattle.itch_commands.specs.declared.fault.ToolFault.TheVariants.{UnknownStock};

use crate::fault::ToolFault;

/// Returns a fault if one of the stocks searched for was not found.
pub fn if_found(found: bool) -> Result<bool, ToolFault>
    ensures { result ≡ (if found then Ok true else Err UnknownStock) }
{
    if found {
        Ok(true)
    } else {
        Err(ToolFault::UnknownStock)
    }
}
