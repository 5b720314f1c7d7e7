// A record where it stands in memory, as C lays it out: 168 bytes.
ghost use Rattle.std.specs.Prelude.{◌≡◌, min, length, take, drop};
ghost use Rattle.header.specs.Semantics.{Bytes};

// The fields of a record but its lists and `predicted`.
#[derive(Clone, Copy)]
pub struct Fields {
    pub apply_grain: bool,
    pub grain_seed: u16,
    pub update_grain: bool,
    pub film_grain_params_ref_idx: u8,
    pub num_y_points: u8,
    pub chroma_scaling_from_luma: bool,
    pub num_cb_points: u8,
    pub num_cr_points: u8,
    pub grain_scaling: u8,
    pub ar_coeff_lag: u8,
    pub ar_coeff_shift: u8,
    pub grain_scale_shift: u8,
    pub cb_mult: u8,
    pub cb_luma_mult: u8,
    pub cb_offset: u16,
    pub cr_mult: u8,
    pub cr_luma_mult: u8,
    pub cr_offset: u16,
    pub overlap_flag: bool,
    pub clip_to_restricted_range: bool,
}

impl From<&[u8; 168]> for Fields {
    ghost use Rattle.header.specs.Scalars.{fields_of};

    ghost from_gives = { λ p f. f ≡ fields_of p.now };

    fn from(p: &[u8; 168]) -> Fields {
        Fields {
            apply_grain: p[0] != 0,
            grain_seed: u16::from_le_bytes([p[2], p[3]]),
            update_grain: p[4] != 0,
            film_grain_params_ref_idx: p[5],
            num_y_points: p[6],
            chroma_scaling_from_luma: p[35] != 0,
            num_cb_points: p[36],
            num_cr_points: p[57],
            grain_scaling: p[78],
            ar_coeff_lag: p[79],
            ar_coeff_shift: p[154],
            grain_scale_shift: p[155],
            cb_mult: p[156],
            cb_luma_mult: p[157],
            cb_offset: u16::from_le_bytes([p[158], p[159]]),
            cr_mult: p[160],
            cr_luma_mult: p[161],
            cr_offset: u16::from_le_bytes([p[162], p[163]]),
            overlap_flag: p[164] != 0,
            clip_to_restricted_range: p[165] != 0,
        }
    }
}

// Where a list begins in a record, and how many places it has.
#[derive(Clone, Copy)]
pub struct List {
    pub at: usize,
    pub places: usize,
}

// The values of a plane's points; as many scalings stand after them.
pub const Y_POINTS: List = List { at: 7, places: 14 };

pub const CB_POINTS: List = List { at: 37, places: 10 };

pub const CR_POINTS: List = List { at: 58, places: 10 };

// A plane's coefficients.
pub const Y_COEFFS: List = List { at: 80, places: 24 };

pub const CB_COEFFS: List = List {
    at: 104,
    places: 25,
};

pub const CR_COEFFS: List = List {
    at: 129,
    places: 25,
};

// A plane's points: as many scalings as values.
#[derive(Clone, Copy)]
pub struct Points<'a> {
    pub values: &'a [u8],
    pub scalings: &'a [u8],
    ghost paired: { length scalings.now ≡ length values.now },
}

// The first n places of a list, or all that it has, and the others.
pub fn parted(list: &[u8], n: usize) -> (&[u8], &[u8])
    ensures first { result.0.now ≡ take (min n (length list.now)) list.now }
    ensures others { result.1.now ≡ drop (min n (length list.now)) list.now }
    ensures bytes { Bytes (length list.now) list.now }
{
    list.split_at(n.min(list.len()))
}
