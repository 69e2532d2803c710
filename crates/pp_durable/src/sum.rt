//! The check sum of an image.

ghost use Rattle.std.specs.Prelude.{◌≡◌};
ghost use Rattle.pp_durable.specs.Sum.{after_bits, with_byte, sum_of};

/// What four bits at the register's lower end come to, by the number that they are.
const TABLE: [u32; 16] = [
    0x0000_0000,
    0x105E_C76F,
    0x20BD_8EDE,
    0x30E3_49B1,
    0x417B_1DBC,
    0x5125_DAD3,
    0x61C6_9362,
    0x7198_540D,
    0x82F6_3B78,
    0x92A8_FC17,
    0xA24B_B5A6,
    0xB215_72C9,
    0xC38D_26C4,
    0xD3D3_E1AB,
    0xE330_A81A,
    0xF36E_6F75,
];

/// The register after four more bits of 0.
fn after_four(register: u32) -> u32
    ensures { result ≡ after_bits 4 register }
{
    TABLE[(register % 16) as usize] ^ (register >> 4)
}

/// The register after one more byte.
fn with_byte(register: u32, byte: u8) -> u32
    ensures { result ≡ with_byte register byte }
{
    after_four(after_four(register ^ u32::from(byte)))
}

/// The CRC-32C of the bytes. It is computed by a table, four bits at a time; contracts see it bit by bit.
pub fn sum_of(bytes: &[u8]) -> u32
    ensures { result ≡ sum_of bytes.now }
{
    bytes
        .iter()
        .fold(u32::MAX, |register, byte| with_byte(register, *byte))
        ^ u32::MAX
}
