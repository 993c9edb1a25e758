ghost use Rattle.std.specs.Prelude.{◌≡◌, length};
ghost use Rattle.denovo_c.specs.Shown.{shown_in};

/// Copies the bytes to the start of the buffer, as far as it has room, and returns how many bytes there are. The rest of the
/// buffer stays.
pub fn show(bytes: &[u8], buffer: &mut [u8]) -> usize
    ensures shown { buffer.new ≡ shown_in bytes.now buffer.old }
    ensures count { result ≡ length bytes.now }
{
    let count = bytes.len().min(buffer.len());
    buffer[..count].copy_from_slice(&bytes[..count]);
    bytes.len()
}
