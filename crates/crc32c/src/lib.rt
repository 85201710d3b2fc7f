// CRC-32C (RFC 3720) over bytes, a byte at a time over a table, and the lower-casing of ASCII that
// path hashes use. The running state is the CRC so far, 0 at the start, so parts are fed one after
// another. Relies on the laws of proofs/.
#![tactic(auto)]

ghost use Rattle.std.specs.Prelude.{◌≡◌, cond, map};
ghost use Rattle.crc32c.specs.Crc.{byte_step, feed, crc_of, crc_from, lower};
ghost use Rattle.crc32c.specs.private.Table.{IsTable};

use crate::table::TABLE;

mod table;

// The register after one byte more, by a table whose entry k is the register k after eight bits.
fn byte_step(table: &[u32; 256], state: u32, b: u8) -> u32
    requires { IsTable table.now }
    ensures { result ≡ byte_step state b }
{
    let i = (state ^ u32::from(b)) & 0xff;
    table[i as usize] ^ (state >> 8)
}

// The register after the bytes of `data`, where `LOWER` is true in lower case. The table is lent to each step: it is
// stored once a call.
#[tactic(auto, using(crate::proofs::Parts::feeding))]
fn feed_part<const LOWER: bool>(state: u32, data: &[u8]) -> u32
    ensures { result ≡ feed state (cond LOWER (map lower «data».now) «data».now) }
{
    let mut x = state;
    for &b in data {
        let c = if LOWER { b.to_ascii_lowercase() } else { b };
        x = byte_step(&TABLE, x, c);
    }
    x
}

// The CRC of the bytes so far, whose CRC is `crc`, and of `data`.
// Stays: it and the next share `feed_part`; as one public function each caller would write `::<false>` or `::<true>`.
pub fn crc32c_append(crc: u32, data: &[u8]) -> u32
    ensures { result ≡ crc_from crc «data».now }
{
    feed_part::<false>(crc ^ 0xffff_ffff, data) ^ 0xffff_ffff
}

// The same, of `data` in lower case.
// Stays: it and `crc32c_append` share `feed_part`; as one public function each caller would write the parameter.
pub fn crc32c_append_lowercase(crc: u32, data: &[u8]) -> u32
    ensures { result ≡ crc_from crc (map lower «data».now) }
{
    feed_part::<true>(crc ^ 0xffff_ffff, data) ^ 0xffff_ffff
}

// The CRC of `data`.
pub fn crc32c(data: &[u8]) -> u32
    ensures { result ≡ crc_of «data».now }
{
    crc32c_append(0, data)
}
