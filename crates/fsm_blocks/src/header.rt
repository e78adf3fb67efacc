// The manager's header, FSHD.
ghost use Rattle.std.specs.Prelude.{◌≡◌, ◌≤◌, length};
ghost use Rattle.error.specs.Answers.{as_outcome};
ghost use Rattle.fsm_blocks.specs.Fshd.{signed, kept, parsed_fshd};

use error::Refusal;
use fields::bytes::read_uint_le;
use fields::width::is_width;

// What the reader takes from a header: the Rust's six fields.
#[derive(Clone, Copy, Debug, PartialEq, Eq)]
pub struct FsmHeader {
    pub total_space: u64,
    pub total_sections: u64,
    pub addr_space_bits: u16,
    pub max_section_size: u64,
    pub fsse_addr: u64,
    pub fsse_used: u64,
}

impl FsmHeader {
    pub const NUM_CLASSES: u16 = 3;

    pub const SHRINK_PCT: u16 = 80;

    pub const EXPAND_PCT: u16 = 120;

    // File free space; 0 is a fractal heap's.
    pub const CLIENT_ID: u8 = 1;

    pub const MAX_SECTION_SIZE: u64 = 0x7fff_ffff_ffff_ffff;

    // The header at the start of `bytes`. Version, client and checksum are not tested.
    #[tactic(auto, unfolding(crate::specs::Fshd::parsed_fshd, error::specs::Outcome::first_of, error::specs::Outcome::and_then))]
    pub fn parse(bytes: &[u8], offset_size: u8) -> Result<FsmHeader, Refusal>
        ensures { as_outcome result ≡ kept (parsed_fshd offset_size bytes.now) }
    {
        if !is_width(offset_size) {
            return Err(Refusal::Width);
        }
        let o = offset_size as usize;
        if bytes.len() < 74 + o {
            return Err(Refusal::Short {
                expected: (74 + o) as u64,
                available: bytes.len() as u64,
            });
        }
        if !is_signed(bytes, b'H', b'D') {
            return Err(Refusal::InvalidManager);
        }
        Ok(FsmHeader {
            total_space: read_uint_le(bytes, 6, 8),
            total_sections: read_uint_le(bytes, 14, 8),
            addr_space_bits: read_uint_le(bytes, 44, 2) as u16,
            max_section_size: read_uint_le(bytes, 46, 8),
            fsse_addr: read_uint_le(bytes, 54, o),
            fsse_used: read_uint_le(bytes, 54 + o, 8),
        })
    }
}

// Whether `bytes` begin with the letters F, S and the two given.
pub(crate) fn is_signed(bytes: &[u8], third: u8, fourth: u8) -> bool
    requires { 4 ≤ length bytes.now }
    ensures { result ≡ signed 70 83 third fourth bytes.now }
{
    bytes.starts_with(&[b'F', b'S', third, fourth])
}
