// The metadata checksum of HDF5, Jenkins' lookup3 `hashlittle` (checksum.rs).
#![tactic(auto)]

ghost use Rattle.std.specs.Prelude.{◌≡◌, ◌+◌, ◌%◌, ◌^◌, ◌<◌, ◌≤◌, length, take, drop};
ghost use Rattle.error.specs.Answers.{as_outcome};
ghost use Rattle.fields.specs.Le.{le_value};
ghost use Rattle.checksum.specs.Lookup3.{sub32, xor32, rotl32, mixed, finished, block_added, tail_added, hash_of, lookup3};
ghost use Rattle.checksum.specs.LastBlock.{padded};
ghost use Rattle.checksum.specs.Trailing.{trailing};

use error::Refusal;

// The three words that lookup3 mixes.
#[derive(Clone, Copy)]
struct Words {
    a: u32,
    b: u32,
    c: u32,
}

// `x` rotated left by `k` bits, 1 to 31 of them: by shifts and or, as lookup3.c has it. What they mean is proved once, for every amount.
fn rot(x: u32, k: u32) -> u32
    requires { (1 ≤ k) × (k < 32) }
    ensures { result ≡ rotl32 x k }
{
    (x << k) | (x >> (32 - k))
}

// x -= z; x ^= rot(z, k)
// `k` is one of lookup3.c's constants: as a const parameter it would only stand before the bracket.
fn sub_xor_rot(x: u32, z: u32, k: u32) -> u32
    requires { (1 ≤ k) × (k < 32) }
    ensures { result ≡ xor32 (sub32 x z) (rotl32 z k) }
{
    x.wrapping_sub(z) ^ rot(z, k)
}

// x ^= z; x -= rot(z, k)
fn xor_sub_rot(x: u32, z: u32, k: u32) -> u32
    requires { (1 ≤ k) × (k < 32) }
    ensures { result ≡ sub32 (xor32 x z) (rotl32 z k) }
{
    (x ^ z).wrapping_sub(rot(z, k))
}

fn mix(w: Words) -> Words
    ensures { result ≡ mixed w }
{
    let Words {
        mut a,
        mut b,
        mut c,
    } = w;
    a = sub_xor_rot(a, c, 4);
    c = c.wrapping_add(b);
    b = sub_xor_rot(b, a, 6);
    a = a.wrapping_add(c);
    c = sub_xor_rot(c, b, 8);
    b = b.wrapping_add(a);
    a = sub_xor_rot(a, c, 16);
    c = c.wrapping_add(b);
    b = sub_xor_rot(b, a, 19);
    a = a.wrapping_add(c);
    c = sub_xor_rot(c, b, 4);
    b = b.wrapping_add(a);
    Words { a, b, c }
}

fn final_mix(w: Words) -> Words
    ensures { result ≡ finished w }
{
    let Words {
        mut a,
        mut b,
        mut c,
    } = w;
    c = xor_sub_rot(c, b, 14);
    a = xor_sub_rot(a, c, 11);
    b = xor_sub_rot(b, a, 25);
    c = xor_sub_rot(c, b, 16);
    a = xor_sub_rot(a, c, 4);
    b = xor_sub_rot(b, a, 14);
    c = xor_sub_rot(c, b, 24);
    Words { a, b, c }
}

// The word that the first four bytes spell.
fn word(bytes: &[u8]) -> u32
    requires { 4 ≤ length bytes.now }
    ensures { result ≡ le_value (take 4 bytes.now) }
{
    u32::from_le_bytes([bytes[0], bytes[1], bytes[2], bytes[3]])
}

// Adds the first twelve bytes.
fn add_block(w: Words, bytes: &[u8]) -> Words
    requires { 12 ≤ length bytes.now }
    ensures { result ≡ block_added bytes.now w }
{
    Words {
        a: w.a.wrapping_add(word(bytes)),
        b: w.b.wrapping_add(word(&bytes[4..])),
        c: w.c.wrapping_add(word(&bytes[8..])),
    }
}

// The last bytes, twelve at the most, as one block whose missing bytes are 0. It is made on the stack, since a constant would
// be read-only memory, and by or, since a plain copy would become a call of C's `memcpy`.
fn last_block(bytes: &[u8]) -> [u8; 12]
    requires { length bytes.now ≤ 12 }
    ensures { result ≡ padded bytes.now }
{
    let mut block = [0; 12];
    for (i, byte) in bytes.iter().enumerate() {
        block[i] |= *byte;
    }
    block
}

// Adds the last bytes, twelve at the most, as lookup3.c's switch does.
fn add_tail(w: Words, bytes: &[u8]) -> Words
    requires { length bytes.now ≤ 12 }
    ensures { result ≡ tail_added 0 bytes.now w }
{
    add_block(w, &last_block(bytes))
}

// lookup3.c's `hashlittle`.
pub fn hashlittle(data: &[u8], initval: u32) -> u32
    ensures { result ≡ hash_of «data».now initval }
{
    // The length modulo 2^32.
    let len = (data.len() % 0x1_0000_0000) as u32;
    let start = 0xdeadbeefu32.wrapping_add(len).wrapping_add(initval);
    let mut w = Words {
        a: start,
        b: start,
        c: start,
    };
    // A `for` over chunks would give the last twelve bytes as a block too, which are not mixed.
    let mut rest = data;
    while 12 < rest.len() {
        w = mix(add_block(w, rest));
        rest = &rest[12..];
    }
    if rest.is_empty() {
        return w.c;
    }
    final_mix(add_tail(w, rest)).c
}

// The checksum of bytes.
pub fn jenkins_lookup3(data: &[u8]) -> u32
    ensures { result ≡ lookup3 «data».now }
{
    hashlittle(data, 0)
}

// Whether the last four bytes of a block are the checksum of those before them.
pub fn verify_trailing(block: &[u8]) -> Result<(), Refusal>
    ensures { as_outcome result ≡ trailing block.now }
{
    let Some((body, sum)) = block.split_last_chunk::<4>() else {
        return Err(Refusal::Short {
            expected: 4,
            available: block.len() as u64,
        });
    };
    let stored = word(sum);
    let computed = jenkins_lookup3(body);
    if computed != stored {
        return Err(Refusal::Checksum { stored, computed });
    }
    Ok(())
}
