//! What is wrong with an action.

ghost use Rattle.std.specs.Prelude.{◌≡◌, ◌++◌, codes, IfOk};
ghost use Rattle.script_keys.specs.Faults.{told_name, fault_text, unknown, miscounted, invalid};
ghost use Rattle.script_keys.specs.FaultSeen.{fault_seen};

use crate::arity::arity_of;
use crate::name::Name;
use std::alloc::AllocError;

/// Why an action isn't done.
#[derive(Clone, Copy, Debug)]
pub enum Fault<'a> {
    /// No action is called so.
    Unknown(&'a [u8]),
    /// It has another number of arguments.
    Arguments(Name),
    /// This argument is none of the key's numbers.
    Invalid(Name, &'a [u8]),
}

/// The name by which faults call an action.
fn told_name(name: Name) -> Name
    ensures { result ≡ told_name name }
{
    match name {
        Name::Open => Name::Connect,
        Name::Close => Name::Disconnect,
        _ => name,
    }
}

/// Adds text.
fn push_text(out: &mut Vec<u8>, text: &str) -> Result<(), AllocError>
    ensures { IfOk result (λ done. out.new.items ≡ out.old.items ++ text.now) }
{
    out.extend_from_slice(text.as_bytes())
}

/// Adds what is said of a name that is no action's.
fn push_unknown(out: &mut Vec<u8>, name: &[u8]) -> Result<(), AllocError>
    ensures { IfOk result (λ done. out.new.items ≡ out.old.items ++ fault_text (unknown name.now)) }
{
    push_text(out, "Unknown action: ")?;
    out.extend_from_slice(name)?;
    Ok(())
}

/// Adds what is said of another number of arguments.
fn push_miscounted(out: &mut Vec<u8>, name: Name) -> Result<(), AllocError>
    ensures { IfOk result (λ done. out.new.items ≡ out.old.items ++ fault_text (miscounted name)) }
{
    push_text(out, told_name(name).text())?;
    push_text(out, "() requires ")?;
    push_text(out, arity_of(name).words())?;
    Ok(())
}

/// Adds what is said of a number that no key has.
fn push_invalid(out: &mut Vec<u8>, name: Name, argument: &[u8]) -> Result<(), AllocError>
    ensures { IfOk result (λ done. out.new.items
        ≡ out.old.items ++ fault_text (invalid name argument.now)) }
{
    push_text(out, name.text())?;
    push_text(out, "(): Invalid argument '")?;
    out.extend_from_slice(argument)?;
    push_text(out, "'")?;
    Ok(())
}

/// Adds what s3270 says of a fault, without a line end.
pub fn push_fault(out: &mut Vec<u8>, fault: &Fault<'_>) -> Result<(), AllocError>
    ensures { IfOk result (λ done. out.new.items
        ≡ out.old.items ++ fault_text (fault_seen fault.now)) }
{
    match fault {
        Fault::Unknown(name) => push_unknown(out, name)?,
        Fault::Arguments(name) => push_miscounted(out, *name)?,
        Fault::Invalid(name, argument) => push_invalid(out, *name, argument)?,
    }
    Ok(())
}
