// A float entry: an f64 with its short mark. A NaN's bits cannot pass through an f64 here, so that they stand beside it.
ghost use Rattle.std.specs.Prelude.{◌≡◌};
ghost use Rattle.ir.specs.Floats.{bits_of_float, entry_of_float, entry};

use records::words::nan_bits;

#[derive(Clone, Copy)]
pub struct FloatEntry {
    pub value: f64,
    pub short: bool,
}

#[derive(Clone, Copy)]
pub enum FloatBits {
    Number(FloatEntry),
    Nan(u64, bool),
}

// An entry by its bits, by which it is found.
#[derive(Clone, Copy)]
pub struct EntryBits {
    pub bits: u64,
    pub short: bool,
}

// The entry with these bits and this mark.
pub fn float_entry(bits: u64, short: bool) -> FloatBits
    ensures { entry_of_float result ≡ entry bits short }
{
    if nan_bits(bits) {
        return FloatBits::Nan(bits, short);
    }
    FloatBits::Number(FloatEntry {
        value: f64::from_bits(bits),
        short,
    })
}

fn number_bits(x: f64) -> u64
    ensures { result ≡ bits_of_float x }
{
    if x != x {
        return 0x7FF8_0000_0000_0000;
    }
    f64::to_bits(x)
}

pub fn entry_bits(f: FloatBits) -> EntryBits
    ensures { entry result.bits result.short ≡ entry_of_float f }
{
    match f {
        FloatBits::Number(e) => EntryBits {
            bits: number_bits(e.value),
            short: e.short,
        },
        FloatBits::Nan(bits, short) => EntryBits { bits, short },
    }
}
