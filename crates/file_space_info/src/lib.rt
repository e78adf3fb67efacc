// The File Space Info message (file_space_info.rs): what it records of a file's space, its bytes, and their reading. The
// manager addresses, a `Vec` of the Rust, stand beside the record: in lent memory, or as the twelve slots of `WithSlots`.
#![tactic(auto)]

ghost use Rattle.std.specs.Prelude.{◌≡◌, ◌+◌, ◌*◌, ◌≤◌, ◌<◌, cond, ◌&&◌, length, drop};
ghost use Rattle.error.specs.Answers.{as_outcome};
ghost use Rattle.error.specs.Lent.{left, leaving, over};
ghost use Rattle.fields.specs.Width.{valid_width};
ghost use Rattle.fields.specs.Layout.{row, layout, le_at};
ghost use Rattle.file_space_info.specs.Strategies.{code_of, from_code};
ghost use Rattle.file_space_info.specs.Infos.{non_persistent, persistent_managers, persistent_empty, persistent_single_manager};
ghost use Rattle.file_space_info.specs.Message.{shape, fixed_len, numbers_of, address_row, serialized, info_with};
ghost use Rattle.file_space_info.specs.Message.{present, numbers_at, fixed_read, parsed};

use error::Refusal;
use fields::bytes::{read_uint_le, write_uint_le};
use fields::convert::UNDEF;
use fields::width::is_width;

// The default free-space section threshold of the C library.
pub const DEFAULT_THRESHOLD: u64 = 1;
// The default file-space page size of the C library.
pub const DEFAULT_PAGE_SIZE: u64 = 4096;
// How many manager addresses a persisting message carries: one for each kind of file memory.
pub const NUM_FILE_FSM_MANAGERS: usize = 12;
// The bytes of a written message with its twelve slots.
pub const MESSAGE_LEN: u64 = 125;

// H5F_fspace_strategy_t.
#[derive(Clone, Copy, Debug, PartialEq, Eq)]
pub enum FileSpaceStrategy {
    // Free-space managers, aggregators and the virtual file driver: the default.
    FsmAggr,
    // Paged aggregation with free-space managers.
    Page,
    // Aggregators and the virtual file driver.
    Aggr,
    // No tracking: allocation only appends.
    None,
}

impl FileSpaceStrategy {
    // to_code and from_code are public names of the Rust that is ported, which callers and docs/STATEMENTS.md have: no `TryFrom` beside them.
    // The code on file, 0 to 3.
    pub fn to_code(self) -> u8
        ensures { result ≡ code_of self }
    {
        match self {
            FileSpaceStrategy::FsmAggr => 0,
            FileSpaceStrategy::Page => 1,
            FileSpaceStrategy::Aggr => 2,
            FileSpaceStrategy::None => 3,
        }
    }

    pub fn from_code(code: u8) -> Result<FileSpaceStrategy, Refusal>
        ensures { as_outcome result ≡ from_code code }
    {
        match code {
            0 => Ok(FileSpaceStrategy::FsmAggr),
            1 => Ok(FileSpaceStrategy::Page),
            2 => Ok(FileSpaceStrategy::Aggr),
            3 => Ok(FileSpaceStrategy::None),
            _ => Err(Refusal::Strategy(code)),
        }
    }
}

#[derive(Clone, Copy, Debug, PartialEq, Eq)]
pub struct FileSpaceInfo {
    pub strategy: FileSpaceStrategy,
    // Whether free space is kept on file; only then are addresses written. A flag and no Option: the message has all fields either way.
    pub persist: bool,
    // The smallest section that the managers track.
    pub threshold: u64,
    pub page_size: u64,
    pub page_end_meta_threshold: u16,
    // The end of the allocated space before the managers' blocks: `UNDEF` where free space is not kept.
    pub eoa_pre_fsm: u64,
}

// A persisting message with its twelve manager addresses; unused ones are `UNDEF`.
#[derive(Clone, Copy, Debug, PartialEq, Eq)]
pub struct WithSlots {
    pub info: FileSpaceInfo,
    pub slots: [u64; NUM_FILE_FSM_MANAGERS],
}

// A message that was read, with the number of addresses.
#[derive(Clone, Copy, Debug, PartialEq, Eq)]
pub struct Parsed {
    pub info: FileSpaceInfo,
    pub count: usize,
}

impl FileSpaceInfo {
    // A message that keeps no free space.
    pub fn non_persistent(
        strategy: FileSpaceStrategy,
        threshold: u64,
        page_size: u64,
    ) -> FileSpaceInfo
        ensures { result ≡ non_persistent strategy threshold page_size }
    {
        FileSpaceInfo {
            strategy,
            persist: false,
            threshold,
            page_size,
            page_end_meta_threshold: 0,
            eoa_pre_fsm: UNDEF,
        }
    }

    // A persisting message of a file that has no free space yet.
    pub fn persistent_empty(
        strategy: FileSpaceStrategy,
        threshold: u64,
        page_size: u64,
    ) -> WithSlots
        ensures { result ≡ persistent_empty strategy threshold page_size }
    {
        FileSpaceInfo::persistent_managers(
            strategy,
            threshold,
            page_size,
            [UNDEF; NUM_FILE_FSM_MANAGERS],
            UNDEF,
        )
    }

    // A persisting message with all free space in one manager.
    pub fn persistent_single_manager(
        strategy: FileSpaceStrategy,
        threshold: u64,
        page_size: u64,
        manager0_addr: u64,
        eoa_pre_fsm: u64,
    ) -> WithSlots
        ensures { result ≡ persistent_single_manager strategy threshold page_size manager0_addr eoa_pre_fsm }
    {
        let mut slots = [UNDEF; NUM_FILE_FSM_MANAGERS];
        slots[0] = manager0_addr;
        FileSpaceInfo::persistent_managers(strategy, threshold, page_size, slots, eoa_pre_fsm)
    }

    // A persisting message of a paged file: a manager for each kind of page.
    pub fn persistent_managers(
        strategy: FileSpaceStrategy,
        threshold: u64,
        page_size: u64,
        slots: [u64; NUM_FILE_FSM_MANAGERS],
        eoa_pre_fsm: u64,
    ) -> WithSlots
        ensures { result ≡ persistent_managers strategy threshold page_size slots eoa_pre_fsm }
    {
        let info = FileSpaceInfo {
            strategy,
            persist: true,
            threshold,
            page_size,
            page_end_meta_threshold: 0,
            eoa_pre_fsm,
        };
        WithSlots { info, slots }
    }

    // Writes the message at offset and length size 8, and answers how many bytes it takes. `addrs` are written only where free
    // space is kept.
    pub fn serialize(self, addrs: &[u64], out: &mut [u8]) -> Result<u64, Refusal>
        ensures { left (as_outcome result) out.new ≡ leaving out.old (serialized self addrs.now out.old) }
    {
        let needed = message_len(self.persist, addrs);
        if out.len() < needed {
            return Err(Refusal::OverCapacity {
                needed: needed as u64,
                given: out.len() as u64,
            });
        }
        write_fixed(self, out);
        if self.persist {
            write_addrs(addrs, out);
        }
        Ok(needed as u64)
    }

    // Reads a message of the given sizes, and all whole addresses after it if free space is kept.
    pub fn parse(
        bytes: &[u8],
        offset_size: u8,
        length_size: u8,
        addrs: &mut [u64],
    ) -> Result<Parsed, Refusal>
        ensures { left (as_outcome result) addrs.new
            ≡ leaving addrs.old (parsed bytes.now offset_size length_size addrs.old) }
    {
        let info = read_fixed(bytes, offset_size, length_size)?;
        let count = present_addrs(bytes.len(), offset_size, length_size, info.persist);
        if addrs.len() < count {
            return Err(Refusal::OverCapacity {
                needed: count as u64,
                given: addrs.len() as u64,
            });
        }
        read_addrs(
            bytes,
            fixed_len(offset_size, length_size),
            offset_size as usize,
            count,
            addrs,
        );
        Ok(Parsed { info, count })
    }
}

// The bytes that a message takes at sizes 8.
fn message_len(persist: bool, addrs: &[u64]) -> usize
    ensures { result ≡ 29 + cond persist (length addrs.now * 8) 0 }
{
    if persist { 29 + addrs.len() * 8 } else { 29 }
}

// Writes the fixed part at sizes 8.
fn write_fixed(info: FileSpaceInfo, out: &mut [u8])
    ensures { out.new ≡ over 0 (layout (row (shape 8 8) (numbers_of info))) out.old }
{
    write_uint_le(out, 0, 1, 1);
    write_uint_le(out, 1, info.strategy.to_code() as u64, 1);
    write_uint_le(out, 2, info.persist as u64, 1);
    write_uint_le(out, 3, info.threshold, 8);
    write_uint_le(out, 11, info.page_size, 8);
    write_uint_le(out, 19, info.page_end_meta_threshold as u64, 2);
    write_uint_le(out, 21, info.eoa_pre_fsm, 8);
}

// Writes the addresses after the fixed part.
fn write_addrs(addrs: &[u64], out: &mut [u8])
    ensures { out.new ≡ over 29 (layout (address_row 8 addrs.now)) out.old }
{
    for (i, addr) in addrs.iter().enumerate() {
        write_uint_le(out, 29 + i * 8, *addr, 8);
    }
}

fn are_widths(offset_size: u8, length_size: u8) -> bool
    ensures { result ≡ (valid_width offset_size && valid_width length_size) }
{
    is_width(offset_size) && is_width(length_size)
}

// By `as`: the laws of lengths read the sum with the byte itself.
fn fixed_len(offset_size: u8, length_size: u8) -> usize
    ensures { result ≡ fixed_len offset_size length_size }
{
    5 + 2 * (length_size as usize) + (offset_size as usize)
}

// The fixed part, or the first refusal that it meets.
fn read_fixed(bytes: &[u8], offset_size: u8, length_size: u8) -> Result<FileSpaceInfo, Refusal>
    ensures { as_outcome result ≡ fixed_read offset_size length_size bytes.now }
{
    if !are_widths(offset_size, length_size) {
        return Err(Refusal::Width);
    }
    let fixed = fixed_len(offset_size, length_size);
    if bytes.len() < fixed {
        return Err(Refusal::Short {
            expected: fixed as u64,
            available: bytes.len() as u64,
        });
    }
    let version = bytes[0];
    if version != 1 {
        return Err(Refusal::MessageVersion(version));
    }
    let strategy = FileSpaceStrategy::from_code(bytes[1])?;
    Ok(fixed_fields(bytes, offset_size, length_size, strategy))
}

// The fields after the strategy.
fn fixed_fields(
    bytes: &[u8],
    offset_size: u8,
    length_size: u8,
    strategy: FileSpaceStrategy,
) -> FileSpaceInfo
    requires { (offset_size ≤ 8) × (length_size ≤ 8) × (2 < length bytes.now) }
    ensures { result ≡ info_with offset_size length_size strategy bytes.now }
{
    let os = offset_size as usize;
    let ls = length_size as usize;
    FileSpaceInfo {
        strategy,
        persist: bytes[2] != 0,
        threshold: read_uint_le(bytes, 3, ls),
        page_size: read_uint_le(bytes, 3 + ls, ls),
        page_end_meta_threshold: read_u16(bytes, 3 + 2 * ls),
        eoa_pre_fsm: read_uint_le(bytes, 5 + 2 * ls, os),
    }
}

fn read_u16(bytes: &[u8], at: usize) -> u16
    ensures { result ≡ le_at at 2 bytes.now }
{
    read_uint_le(bytes, at, 2) as u16
}

// How many whole addresses follow the fixed part.
fn present_addrs(len: usize, offset_size: u8, length_size: u8, persist: bool) -> usize
    requires { (1 ≤ offset_size) × (fixed_len offset_size length_size ≤ len) }
    ensures { result ≡ present offset_size length_size len persist }
{
    if persist {
        (len - fixed_len(offset_size, length_size)) / (offset_size as usize)
    } else {
        0
    }
}

// Reads `n` numbers of `width` bytes each, from `at` on.
fn read_addrs(bytes: &[u8], at: usize, width: usize, n: usize, addrs: &mut [u64])
    requires { (width ≤ 8) × (at + n * width ≤ length bytes.now) × (n ≤ length addrs.old) }
    ensures { addrs.new ≡ over 0 (numbers_at width n (drop at bytes.now)) addrs.old }
{
    for i in 0..n {
        addrs[i] = read_uint_le(bytes, at + i * width, width);
    }
}
