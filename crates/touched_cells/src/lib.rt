// Document 01's block of 27 voxels, an array of three layers of three rows, and the cells that its kept voxels touch.
// A row is one byte: the statuses of its three voxels, two bits each, the lower for kept and the upper for pending.
#![tactic(auto)]

ghost use Rattle.std.specs.Prelude.{◌≡◌};
ghost use Rattle.cells.specs.Cells.{touched};
ghost use Rattle.bits.specs.Bits.{has, bits, spaced};
ghost use Rattle.touched_cells.specs.Block.{LayerRows, Rows, layer_bit, code_in, kept_in, kept_of, row_of, layer_of, Unpacked};

// The statuses of a layer: its rows side by side.
fn layer_code(layer: [u8; 3]) -> u64
    requires { LayerRows layer }
    ensures { result ≡ bits 18 (layer_bit layer) }
{
    u64::from(layer[0]) | u64::from(layer[1]) << 6 | u64::from(layer[2]) << 12
}

// The statuses of a block: its layers side by side, so that place p has the bits 2 p and 2 p + 1.
pub fn code_of(block: [[u8; 3]; 3]) -> u64
    requires { Rows block }
    ensures { result ≡ code_in block }
{
    layer_code(block[0]) | layer_code(block[1]) << 18 | layer_code(block[2]) << 36
}

// The cells that the kept voxels of a code touch, two bits apart as these are. A neighbour contains what it spans: along each axis in turn the
// middle is copied to both ends.
pub fn spread(code: u64) -> u64
    ensures { result ≡ bits 54 (spaced (touched (kept_of code))) }
{
    let k = code & 0x15555551555555;
    let kx = k & 0x04104104104104;
    let u = k | kx << 2 | kx >> 2;
    let uy = u & 0x00540015000540;
    let v = u | uy << 6 | uy >> 6;
    let vz = v & 0x00000555540000;
    v | vz << 18 | vz >> 18
}

// The cells that a block touches.
pub fn touched(block: [[u8; 3]; 3]) -> u64
    requires { Rows block }
    ensures { result ≡ bits 54 (spaced (touched (kept_in block))) }
{
    spread(code_of(block))
}

// The low 27 bits, two apart: each step moves the upper half of every group up.
fn spaced_bits(kept: u32) -> u64
    ensures { result ≡ bits 54 (spaced (has kept)) }
{
    let x = u64::from(kept) & 0x7FFFFFF;
    let x16 = (x | x << 16) & 0x0000FFFF0000FFFF;
    let x8 = (x16 | x16 << 8) & 0x00FF00FF00FF00FF;
    let x4 = (x8 | x8 << 4) & 0x0F0F0F0F0F0F0F0F;
    let x2 = (x4 | x4 << 2) & 0x3333333333333333;
    (x2 | x2 << 1) & 0x15555555555555
}

fn row_of(code: u64) -> u8
    ensures { result ≡ row_of code }
{
    (code & 63) as u8
}

fn layer_of(code: u64) -> [u8; 3]
    ensures { result ≡ layer_of code }
{
    [row_of(code), row_of(code >> 6), row_of(code >> 12)]
}

// The block whose kept voxels are the low 27 bits of one number, as C hands them over.
pub fn block_of(kept: u32) -> [[u8; 3]; 3]
    ensures { Unpacked kept result }
{
    let code = spaced_bits(kept);
    [layer_of(code), layer_of(code >> 18), layer_of(code >> 36)]
}
