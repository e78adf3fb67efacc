// What a reading tests of a manager's blocks before they are parsed.
ghost use Rattle.std.specs.Prelude.{◌≡◌, ◌≤◌};
ghost use Rattle.error.specs.Answers.{as_outcome};
ghost use Rattle.error.specs.Outcome.{answer, first_of};
ghost use Rattle.fsm_blocks.specs.declared.checks.Reading.TheVariants.{Strict};
ghost use Rattle.fsm_blocks.specs.Checks.{block_checks, fshd_checks, fsse_checks};

use crate::header::{FsmHeader, is_signed};
use crate::size::OffsetSize;
use checksum::verify_trailing;
use error::Refusal;
use fields::bytes::read_uint_le;

// How managers are read.
// An enum and no closure: the public manager_count takes it, and statements speak of Loose and Strict.
#[derive(Clone, Copy, Debug, PartialEq, Eq)]
pub enum Reading {
    // As the Rust reads them: versions, client, checksums and back address are not tested.
    Loose,
    // They are tested, each in its place.
    Strict,
}

// Length, signature and version of a block.
#[tactic(auto, unfolding(error::specs::Outcome::first_of))]
fn verify_block(bytes: &[u8], len: usize, third: u8, fourth: u8) -> Result<(), Refusal>
    requires { 5 ≤ len }
    ensures { as_outcome result ≡ first_of (block_checks len third fourth bytes.now) (answer tt) }
{
    if bytes.len() < len {
        return Err(Refusal::Short {
            expected: len as u64,
            available: bytes.len() as u64,
        });
    }
    if !is_signed(bytes, third, fourth) {
        return Err(Refusal::InvalidManager);
    }
    let version = bytes[4];
    if version != 0 {
        return Err(Refusal::VersionOrClient(version));
    }
    Ok(())
}

// The header at the start of `bytes`, and no byte after it.
fn verify_fshd(bytes: &[u8], offset_size: u8) -> Result<(), Refusal>
    ensures { as_outcome result ≡ first_of (fshd_checks Strict offset_size bytes.now) (answer tt) }
{
    let len = 74 + offset_size as usize;
    verify_block(bytes, len, b'H', b'D')?;
    let client = bytes[5];
    if client != FsmHeader::CLIENT_ID {
        return Err(Refusal::VersionOrClient(client));
    }
    verify_trailing(&bytes[..len])
}

// The section list that `bytes` are, named by the header at `slot`.
fn verify_fsse(bytes: &[u8], slot: u64, size: OffsetSize) -> Result<(), Refusal>
    ensures { as_outcome result ≡ first_of (fsse_checks Strict size.bytes slot bytes.now) (answer tt) }
{
    let o = size.bytes as usize;
    verify_block(bytes, 9 + o, b'S', b'E')?;
    verify_trailing(bytes)?;
    if read_uint_le(bytes, 5, o) != slot {
        return Err(Refusal::BackAddress);
    }
    Ok(())
}

// What a reading tests of a header before it parses it.
#[tactic(auto, unfolding(error::specs::Outcome::first_of))]
pub(crate) fn check_fshd(bytes: &[u8], offset_size: u8, reading: Reading) -> Result<(), Refusal>
    ensures { as_outcome result ≡ first_of (fshd_checks reading offset_size bytes.now) (answer tt) }
{
    match reading {
        Reading::Loose => Ok(()),
        Reading::Strict => verify_fshd(bytes, offset_size),
    }
}

// What a reading tests of a section list before it parses it.
#[tactic(auto, unfolding(error::specs::Outcome::first_of))]
pub(crate) fn check_fsse(
    bytes: &[u8],
    slot: u64,
    size: OffsetSize,
    reading: Reading,
) -> Result<(), Refusal>
    ensures { as_outcome result ≡ first_of (fsse_checks reading size.bytes slot bytes.now) (answer tt) }
{
    match reading {
        Reading::Loose => Ok(()),
        Reading::Strict => verify_fsse(bytes, slot, size),
    }
}
