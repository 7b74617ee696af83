// Writes parts of a text to their places: lines with a number, and the text of a state.
ghost use Rattle.std.specs.Prelude.{◌+◌, ◌≤◌, length};
ghost use Rattle.record.specs.Placing.{Placed};
ghost use Rattle.record.specs.StatesText.{number_line, state_text, value_line, value_lines};

use itoa::Buffer;

// What ends a line.
const LINE_END: &[u8] = b"\n";

// Writes a part from place `at` on, and says the place behind it.
pub fn put_bytes(bytes: &mut [u8], at: usize, part: &[u8]) -> usize
    requires { at + length part.now ≤ length bytes.old }
    ensures { Placed part.now at bytes.old result bytes.new }
{
    let end = at + part.len();
    bytes[at..end].copy_from_slice(part);
    end
}

// A line with a key, which has its `=`, and a number.
pub fn put_line(bytes: &mut [u8], at: usize, key: &[u8], number: usize) -> usize
    requires { at + length (number_line key.now number) ≤ length bytes.old }
    ensures { Placed (number_line key.now number) at bytes.old result bytes.new }
{
    let mut digits = Buffer::new();
    let at = put_bytes(bytes, at, key);
    let at = put_bytes(bytes, at, digits.format(number).as_bytes());
    put_bytes(bytes, at, LINE_END)
}

// The line with a variable's value.
fn put_value(bytes: &mut [u8], at: usize, variable: usize, value: i64) -> usize
    requires { at + length (value_line variable value) ≤ length bytes.old }
    ensures { Placed (value_line variable value) at bytes.old result bytes.new }
{
    let mut digits = Buffer::new();
    let at = put_bytes(bytes, at, b"v");
    let at = put_bytes(bytes, at, digits.format(variable).as_bytes());
    let at = put_bytes(bytes, at, b"=");
    let at = put_bytes(bytes, at, digits.format(value).as_bytes());
    put_bytes(bytes, at, LINE_END)
}

// The lines of a state's values.
fn put_values(bytes: &mut [u8], at: usize, values: &[i64]) -> usize
    requires { at + length (value_lines 0 values.now) ≤ length bytes.old }
    ensures { Placed (value_lines 0 values.now) at bytes.old result bytes.new }
{
    let mut end = at;
    for (variable, value) in values.iter().enumerate() {
        end = put_value(bytes, end, variable, *value);
    }
    end
}

// All lines of a state.
pub fn put_state(bytes: &mut [u8], at: usize, state: usize, values: &[i64]) -> usize
    requires { at + length (state_text state values.now) ≤ length bytes.old }
    ensures { Placed (state_text state values.now) at bytes.old result bytes.new }
{
    let at = put_line(bytes, at, b"state=", state);
    put_values(bytes, at, values)
}
