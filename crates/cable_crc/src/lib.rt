// CRC-16 of appendix C, a byte at once and without a table.
// No function has a `requires`. proofs/ByteLaws says that eight turns of appendix C's program come to this.
#![tactic(auto)]

ghost use Rattle.std.specs.Prelude.{◌≡◌};
ghost use Rattle.meaning_cable.specs.Crc.{byte_all, crc};

// What is put over the register if a byte has an odd number of ones: 8005h over its double, as eight turns leave it.
const ODD: u16 = 0x8003;

// A register of 16 bits is two bytes.
const BYTE: u16 = 256;

// The register after one byte more. With x, the high byte over the new one: x doubled, x doubled twice and, if its ones are odd, 8003h; the low byte moves up.
pub fn crc_byte(crc: u16, b: u8) -> u16
    ensures { result ≡ byte_all crc b }
{
    let x = crc / BYTE ^ b as u16;
    let y = x ^ x / 16;
    let z = y ^ y / 4;
    let odd = (z ^ z / 2) % 2;
    x * 2 ^ x * 4 ^ odd * ODD ^ crc % BYTE * BYTE
}

// The CRC of some bytes: "The CRC program of appendix C decides".
pub fn crc_of(s: &[u8]) -> u16
    ensures { result ≡ crc s.now }
{
    s.iter().fold(0, |crc, b| crc_byte(crc, *b))
}
