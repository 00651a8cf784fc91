// How an image is described: its dimension and its format, with the Specification's numbers.
ghost use Rattle.std.specs.Prelude.{◌≡◌, ◌<◌};
ghost use Rattle.definition.specs.Shapes.{dim_of};
ghost use Rattle.kinds.specs.Numbers.{dimension_number};
ghost use Rattle.spirv.specs.Images.{dim_number, format_number};

use kinds::ImageDimension;

#[derive(Clone, Copy)]
pub enum Dim {
    Dim1D = 0,
    Dim2D = 1,
    Dim3D = 2,
    DimCube = 3,
}

impl Dim {
    pub fn number(self) -> u32
        ensures value { result ≡ dim_number self }
        ensures a_byte { result < 256 }
    {
        self as u32
    }
}

impl From<ImageDimension> for Dim {
    ghost from_gives = { λ d r. dim_number r ≡ dim_of (dimension_number d) };

    fn from(d: ImageDimension) -> Self {
        match d {
            ImageDimension::D1 => Dim::Dim1D,
            ImageDimension::D2 => Dim::Dim2D,
            ImageDimension::D3 => Dim::Dim3D,
            ImageDimension::Cube => Dim::DimCube,
        }
    }
}

#[derive(Clone, Copy)]
pub enum ImageFormat {
    Unknown = 0,
    Rgba32f = 1,
    Rgba16f = 2,
    R32f = 3,
    Rgba8 = 4,
    Rgba8Snorm = 5,
    Rg32f = 6,
    Rg16f = 7,
    R11fG11fB10f = 8,
    R16f = 9,
    Rgba16 = 10,
    Rgb10A2 = 11,
    Rg16 = 12,
    Rg8 = 13,
    R16 = 14,
    R8 = 15,
    Rgba16Snorm = 16,
    Rg16Snorm = 17,
    Rg8Snorm = 18,
    R16Snorm = 19,
    R8Snorm = 20,
    Rgba32i = 21,
    Rgba16i = 22,
    Rgba8i = 23,
    R32i = 24,
    Rg32i = 25,
    Rg16i = 26,
    Rg8i = 27,
    R16i = 28,
    R8i = 29,
    Rgba32ui = 30,
    Rgba16ui = 31,
    Rgba8ui = 32,
    R32ui = 33,
    Rgb10a2ui = 34,
    Rg32ui = 35,
    Rg16ui = 36,
    Rg8ui = 37,
    R16ui = 38,
    R8ui = 39,
}

impl ImageFormat {
    pub fn number(self) -> u32
        ensures value { result ≡ format_number self }
        ensures a_byte { result < 256 }
    {
        self as u32
    }
}
