// The digits of a number in base ten. Two loops, each until one digit is left: by recursion, as `decimal` has it, they take half as long again.
ghost use Rattle.std.specs.Prelude.{◌≡◌, ◌+◌, ◌≤◌, length};
ghost use Rattle.record.specs.Text.{decimal, put_at};

// How many digits a number has in base ten.
fn digits(number: u64) -> usize
    ensures { result ≡ length (decimal number) }
{
    let mut left = number;
    let mut count: usize = 1;
    while left >= 10 {
        left /= 10;
        count += 1;
    }
    count
}

// Writes the digits of a number in base ten at a place of the output, the last one first, and gives the place after them.
pub(crate) fn write_decimal(output: &mut [u8], at: usize, number: u64) -> usize
    requires { at + length (decimal number) ≤ length output.old }
    ensures { record { next = result; output = output.new } ≡ put_at (decimal number) output.old at }
{
    let end = at + digits(number);
    let mut left = number;
    let mut last = end - 1;
    while left >= 10 {
        output[last] = b'0' + (left % 10) as u8;
        left /= 10;
        last -= 1;
    }
    output[last] = b'0' + left as u8;
    end
}
