// The strict reading beside the loose one.
#![tactic(auto)]

ghost use Rattle.std.specs.Prelude.{◌≡◌};
ghost use Rattle.error.specs.Answers.{as_outcome};
ghost use Rattle.error.specs.Lent.{left, leaving};
ghost use Rattle.fsm_blocks.specs.declared.checks.Reading.TheVariants.{Loose, Strict};
ghost use Rattle.fsm_blocks.specs.Reading.{persisted};
ghost use Rattle.image.specs.Answers.{image_outcome, counts_in};
ghost use Rattle.image.specs.Reading.{image_into};
ghost use Rattle.strict_reading.specs.StrictReading.{Alike};

use error::Refusal;
use fields::address::BaseAddress;
use fsm_blocks::persisted::{read_persisted_sections, read_persisted_sections_strict};
use image::{ImageRead, read_image, read_image_strict};

// What both readings of managers answer.
#[derive(Clone, Copy, Debug, PartialEq, Eq)]
pub struct SectionsReadings {
    pub strict: Result<u64, Refusal>,
    pub loose: Result<u64, Refusal>,
}

// What both readings of an image answer.
#[derive(Clone, Copy, Debug, PartialEq, Eq)]
pub struct ImageReadings {
    pub strict: ImageRead,
    pub loose: ImageRead,
}

// Reads the managers that the slots name strictly into one run, and loosely into another. Of runs that were alike, a strict
// answer is the loose one.
pub fn read_sections_both(
    bytes: &[u8],
    slots: &[u64],
    base: BaseAddress,
    offset_size: u8,
    strict: &mut [u64],
    loose: &mut [u64],
) -> SectionsReadings
    ensures strict { left (as_outcome result.strict) strict.new
        ≡ leaving strict.old (persisted Strict slots.now base.0 offset_size bytes.now strict.old) }
    ensures loose { left (as_outcome result.loose) loose.new
        ≡ leaving loose.old (persisted Loose slots.now base.0 offset_size bytes.now loose.old) }
    ensures alike { Alike (as_outcome result.strict) strict.old strict.new (as_outcome result.loose)
        loose.old loose.new }
{
    SectionsReadings {
        strict: read_persisted_sections_strict(bytes, slots, base, offset_size, strict),
        loose: read_persisted_sections(bytes, slots, base, offset_size, loose),
    }
}

// The same of an image with its message at `place`.
pub fn read_image_both(
    image: &[u8],
    place: u64,
    strict: &mut [u64],
    loose: &mut [u64],
) -> ImageReadings
    ensures strict { left (image_outcome result.strict) strict.new
        ≡ leaving strict.old (image_into Strict place image.now strict.old) }
    ensures loose { left (image_outcome result.loose) loose.new
        ≡ leaving loose.old (image_into Loose place image.now loose.old) }
    ensures counted { (result.strict.counts ≡ counts_in (image_outcome result.strict)) × (result.loose.counts ≡ counts_in (image_outcome result.loose)) }
    ensures alike { Alike (image_outcome result.strict) strict.old strict.new (image_outcome result.loose)
        loose.old loose.new }
{
    ImageReadings {
        strict: read_image_strict(image, place, strict),
        loose: read_image(image, place, loose),
    }
}
