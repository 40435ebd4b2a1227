ghost use Rattle.std.specs.Prelude.{◌≡◌, ◌≢◌, ◌++◌, ◌∷◌, Err, OnOk};
ghost use Rattle.base_types.specs.Values.{IsInteger};
ghost use Rattle.packed_tree.specs.Encoding.{flag_bytes, whole_bytes};
ghost use Rattle.packed_tree.specs.Frames.{framed};

use crate::framing::{push_framed, push_number};
use base_types::OutOfMemory;
use base_types::json::TreeFault;

/// Puts the bytes of a flag behind others.
pub(crate) fn push_flag(out: &mut Vec<u8>, flag: bool) -> Result<(), OutOfMemory>
    ensures { OnOk result (out.new.items ≡ out.old.items ++ flag_bytes flag) }
{
    match flag {
        false => Ok(out.push(1)?),
        true => Ok(out.push(2)?),
    }
}

/// Puts those of a whole number behind others.
pub(crate) fn push_whole(out: &mut Vec<u8>, number: i128) -> Result<(), TreeFault>
    requires { IsInteger number }
    ensures ok { OnOk result (out.new.items ≡ out.old.items ++ whole_bytes number) }
    ensures err { result ≢ Err TreeFault.Fraction }
{
    if number < 0 {
        out.push(4)?;
        push_number(out, (-1 - number) as u64)?;
        return Ok(());
    }
    out.push(3)?;
    push_number(out, number as u64)?;
    Ok(())
}

/// Puts those of a text behind others.
pub(crate) fn push_text(out: &mut Vec<u8>, text: &str) -> Result<(), OutOfMemory>
    ensures { OnOk result (out.new.items ≡ out.old.items ++ 5 ∷ text.now) }
{
    out.push(5)?;
    out.extend_from_slice(text.as_bytes())?;
    Ok(())
}

/// Puts those of a member's name behind others.
pub(crate) fn push_name(out: &mut Vec<u8>, name: &str) -> Result<(), OutOfMemory>
    ensures { OnOk result (out.new.items ≡ out.old.items ++ framed name.now) }
{
    push_framed(out, name.as_bytes())
}
