// How far apart a matrix's columns are, in bytes. The Rust multiplies an `Alignment` by the width; document 02 wants the nine products
// held in a table.
ghost use Rattle.std.specs.Prelude.{◌≡◌, true};
ghost use Rattle.definition.specs.Rules.{column_stride, has_stride};

// A line for two, for three and for four rows, in it a number for the widths 2, 4 and 8.
const STRIDES: [[u32; 3]; 3] = [[4, 8, 16], [8, 16, 32], [8, 16, 32]];

// The stride of so many rows of a width. A width's place in a line is how often 4 goes into it: 0, 1 and 2 times.
pub fn matrix_stride(rows: u8, width: u8) -> u32
    requires { has_stride rows width ≡ true }
    ensures { result ≡ column_stride rows width }
{
    let line = (rows - 2) as usize;
    let place = (width / 4) as usize;
    STRIDES[line][place]
}
