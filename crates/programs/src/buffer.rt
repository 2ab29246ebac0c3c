// Room for the bytes of a file.
ghost use Rattle.std.specs.Prelude.{◌≡◌, length, replicate};

// So many bytes, all the same.
pub fn filled<const N: usize>(byte: u8) -> [u8; N]
    ensures count { N ≡ length result }
    ensures same { result ≡ replicate N byte }
{
    [byte; N]
}
