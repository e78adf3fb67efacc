// The three functions that the Rust host calls through the C interface. Nothing else is exported. A byte slice is passed
// as a pointer and a length.
#![tactic(auto)]

ghost use Rattle.std.specs.Prelude.{◌≡◌};
ghost use Rattle.checksum.specs.Lookup3.{lookup3};
ghost use Rattle.fields.specs.Width.{enc_size, fshd_len};
ghost use Rattle.capi.specs.Refused.{or_zero};

// The checksum of a block's bytes.
#[unsafe(no_mangle)]
pub extern "C" fn jenkins_lookup3(bytes: &[u8]) -> u32
    ensures { result ≡ lookup3 bytes.now }
{
    checksum::jenkins_lookup3(bytes)
}

// The fewest bytes that hold `value`, at least 1.
#[unsafe(no_mangle)]
pub extern "C" fn enc_size(value: u64) -> usize
    ensures { result ≡ enc_size value }
{
    fields::width::enc_size(value)
}

// The length of an FSHD block at an offset size, or 0 where the size is refused.
#[unsafe(no_mangle)]
pub extern "C" fn fshd_len(offset_size: u8) -> u64
    ensures { result ≡ or_zero (fshd_len offset_size) }
{
    fields::width::fshd_len(offset_size).unwrap_or(0)
}
