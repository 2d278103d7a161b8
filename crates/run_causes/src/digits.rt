//! Hexadecimal digits.

ghost use Rattle.std.specs.Prelude.{◌≡◌, ◌++◌, ◌<◌, OnOk};
ghost use Rattle.run_causes.specs.Causes.{hex_digit, hex_digits};

use std::alloc::AllocError;

/// The digit of a number below 16.
fn digit_of(number: u8) -> u8
    requires { number < 16 }
    ensures { result ≡ hex_digit number }
{
    if number < 10 {
        b'0' + number
    } else {
        b'a' + (number - 10)
    }
}

/// Appends the last digits of a number, as many as there are to be.
#[cycle(write_last)]
fn write_last(out: &mut Vec<u8>, count: u32, number: u64) -> Result<(), AllocError>
    ensures { OnOk result (out.new.items ≡ out.old.items ++ hex_digits count number) }
{
    if count == 0 {
        return Ok(());
    }
    write_last(out, count - 1, number / 16)?;
    out.push(digit_of((number % 16) as u8))?;
    Ok(())
}

/// Appends a number of 64 bits in 16 digits.
pub(crate) fn write_hex(out: &mut Vec<u8>, number: u64) -> Result<(), AllocError>
    ensures { OnOk result (out.new.items ≡ out.old.items ++ hex_digits 16 number) }
{
    write_last(out, 16, number)
}
