//! The fields in a record's data. All integers are big-endian.

ghost use Rattle.std.specs.Prelude.{◌≡◌, ◌+◌, ◌≤◌, length};
ghost use Rattle.dpl_spec_format.specs.Fields as fields;

/// The number in the two bytes from `i` on.
pub fn u16_at(body: &[u8], i: usize) -> u16
    requires { i + 2 ≤ length body.now }
    ensures { result ≡ fields.u16_at body.now i }
{
    u16::from_be_bytes([body[i], body[i + 1]])
}

/// The number in the two bytes from `i` on, in two's complement.
pub fn i16_at(body: &[u8], i: usize) -> i16
    requires { i + 2 ≤ length body.now }
    ensures { result ≡ fields.i16_at body.now i }
{
    i16::from_be_bytes([body[i], body[i + 1]])
}

/// The number in the four bytes from `i` on, in two's complement.
pub fn i32_at(body: &[u8], i: usize) -> i32
    requires { i + 4 ≤ length body.now }
    ensures { result ≡ fields.i32_at body.now i }
{
    let field = &body[i..i + 4];
    i32::from_be_bytes([field[0], field[1], field[2], field[3]])
}

/// The eight bytes of a real, from `i` on.
pub fn real_at(body: &[u8], i: usize) -> [u8; 8]
    requires { i + 8 ≤ length body.now }
    ensures { result ≡ fields.real_at body.now i }
{
    [
        body[i],
        body[i + 1],
        body[i + 2],
        body[i + 3],
        body[i + 4],
        body[i + 5],
        body[i + 6],
        body[i + 7],
    ]
}

/// The bytes without the zeros at their end.
pub fn name_of(body: &[u8]) -> &[u8]
    ensures { result.now ≡ fields.name_of body.now }
{
    let mut len = body.len();
    while len > 0 && body[len - 1] == 0 {
        len -= 1;
    }
    &body[..len]
}
