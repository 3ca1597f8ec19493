// The four bytes that a chunk begins with.

ghost use Rattle.std.specs.Prelude.{◌≡◌, ◌<◌, ◌≤◌, ◌^◌, length};
ghost use Rattle.my_frame.specs.Front.{header_length, header_number};

// The length of the chunk's part of a payload, and its sequence id.
#[derive(Clone, Copy)]
pub struct Header {
    pub len: usize,
    pub number: u8,
}

// The header that the bytes begin with.
pub fn read_header(bytes: &[u8]) -> Header
    requires { 4 ≤ length bytes.now }
    ensures len { result.len ≡ header_length bytes.now }
    ensures number { result.number ≡ header_number bytes.now }
    ensures fits { result.len < 2 ^ 24 }
{
    let low = bytes[0] as usize;
    let middle = bytes[1] as usize;
    let high = bytes[2] as usize;
    Header {
        len: low + 256 * middle + 65536 * high,
        number: bytes[3],
    }
}
