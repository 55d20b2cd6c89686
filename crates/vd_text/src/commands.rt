//! Command texts: the bytes of a command as hexadecimal digits.
ghost use Rattle.std.specs.Prelude.{◌≡◌, ◌≤◌, ◌++◌, length, option_map, IfSome, OnOk, true};
ghost use Rattle.vd_text.specs.Commands.{command, is_command, command_text};

use arrayvec::ArrayVec;
use std::alloc::AllocError;

const DIGITS: &[u8; 16] = b"0123456789abcdef";

/// The 3 to 10 bytes that the digits of the text write, two digits each, or `None` where the text has no meaning.
#[tactic(auto, unfolding(crate::specs::Commands::command))]
pub fn read_command(text: &[u8]) -> Option<ArrayVec<u8, 10>>
    ensures value { option_map (λ v. v.items) result ≡ command text.now }
    ensures lawful { IfSome result (λ v. is_command v.items ≡ true) }
{
    if text.len() < 6 || text.len() > 20 {
        return None;
    }
    let mut digits = [0u8; 10];
    let bytes = &mut digits[..text.len() / 2];
    if hex::decode_to_slice(text, bytes).is_err() {
        return None;
    }
    Some(collect(bytes))
}

/// The bytes, of which there are at most 10.
fn collect(bytes: &[u8]) -> ArrayVec<u8, 10>
    requires { length bytes.now ≤ 10 }
    ensures { result.items ≡ bytes.now }
{
    let mut found = ArrayVec::new();
    for byte in bytes {
        found.push(*byte);
    }
    found
}

/// Appends the canonical text of a command: two digits for each byte, in lower case.
pub fn print_command(command: &[u8], out: &mut Vec<u8>) -> Result<(), AllocError>
    ensures { OnOk result (out.new.items ≡ out.old.items ++ command_text command.now) }
{
    for byte in command {
        out.push(DIGITS[(*byte >> 4) as usize])?;
        out.push(DIGITS[(*byte & 15) as usize])?;
    }
    Ok(())
}
